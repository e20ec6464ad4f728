// The refusals of the calls over a layer: its tests in the order of the table.
#![tactic(auto)]

ghost use Rattle.std.specs.Prelude.{◌≡◌, ◌&&◌, ◌/◌, List, [], ◌∷◌, map, leb};
ghost use Rattle.std.specs.List.{list_all};
ghost use Rattle.rules.specs.Forms.{Plane};
ghost use Rattle.rules.specs.Domain.{is_pitch, plane_length, layer_lengths};
ghost use Rattle.rules.specs.Refusals.{Table, first_fitting, layer_rows, number_or, numbered, empty_refusal, peel_refusal, unpeel_refusal};
ghost use Rattle.layer_lent.specs.Lent.{lay, output_by, first_by, second_by, ratio_of};
ghost use Rattle.layer_refuse.specs.Rows.{measured, peel_by, unpeel_by};

use layer_lent::{Lent, Shape};
use rules::Refusal;

// A byte plane that lies over the plane that is worked on, by its length and its pitch.
#[derive(Clone, Copy)]
pub struct Over {
    pub length: usize,
    pub pitch: usize,
}

// The layer's pitches.
fn pitches(shape: Shape) -> bool
    ensures { result ≡ (is_pitch shape.luma_pitch shape.width && is_pitch shape.chroma_pitch (shape.width / shape.ratio)) }
{
    plane::pitched(shape.luma_pitch, shape.width)
        & plane::pitched(shape.chroma_pitch, plane::divided(shape.width, shape.ratio))
}

// The layer's lengths.
fn lengths<L: Lent>(shape: Shape, layer: L) -> bool
    ensures { result ≡ layer_lengths (lay shape (L.held layer)) }
{
    let rows = plane::divided(shape.height, shape.ratio);
    let luma = plane::layered(layer.size(0), shape.luma_pitch, shape.height);
    let first = plane::layered(layer.size(1), shape.chroma_pitch, rows);
    let second = plane::layered(layer.size(2), shape.chroma_pitch, rows);
    luma & first & second
}

// The pitches of the byte planes.
fn over_pitches(over: &[Over], width: usize) -> bool
    ensures { result ≡ list_all (λ plane. is_pitch plane.pitch width) over.now }
{
    over.iter().all(|plane| plane::pitched(plane.pitch, width))
}

// And their lengths.
fn over_lengths(over: &[Over], width: usize, height: usize) -> bool
    ensures { result ≡ list_all (λ plane. leb (plane_length plane.pitch (width, height)) plane.length) over.now }
{
    over.iter().all(|plane| plane::planed(plane.length, plane.pitch, width, height))
}

// The rows that every call over a layer shares, where these byte planes lie over it. They are compiled into each call:
// apart, `empty` of 64 by 64 pixels takes 33 ns, not 18.
#[inline(always)]
#[tactic(auto, unfolding(rules::specs::Refusals::first_fitting))]
pub fn rows<L: Lent>(shape: Shape, layer: L, over: &[Over]) -> Result<(), Refusal>
    ensures { (lent : List Plane) (rest : Table) → map measured lent ≡ over.now
        → first_fitting (layer_rows (lay shape (L.held layer)) shape.plane lent rest) ≡ number_or result (first_fitting rest) }
{
    plane::ensure(shape.plane <= 2, Refusal::Size)?;
    plane::ensure(plane::sizes(shape.width, shape.height), Refusal::Size)?;
    plane::ensure(
        plane::ratioed(shape.ratio, shape.width, shape.height),
        Refusal::Ratio,
    )?;
    plane::ensure(pitches(shape), Refusal::Pitch)?;
    let ratio = plane::plane_ratio(shape.ratio, shape.plane);
    let width = plane::divided(shape.width, ratio);
    let height = plane::divided(shape.height, ratio);
    plane::ensure(over_pitches(over, width), Refusal::Pitch)?;
    plane::ensure(over_lengths(over, width, height), Refusal::Length)?;
    plane::ensure(lengths(shape, layer), Refusal::Length)
}

// The tests of empty: luma, and no byte plane.
pub fn empty_refusal<L: Lent>(shape: Shape, layer: L) -> Result<(), Refusal>
    requires { shape.plane ≡ 0 }
    ensures { numbered result ≡ empty_refusal (lay shape (L.held layer)) }
{
    rows(shape, layer, &[])
}

// The tests of peel.
pub fn peel_refusal<L: Lent>(
    shape: Shape,
    layer: L,
    output: &[u8],
    frames: [&[u8]; 2],
) -> Result<(), Refusal>
    ensures { numbered result ≡ peel_refusal (peel_by shape (L.held layer) output.now frames.entry) }
{
    let over = [
        Over {
            length: output.len(),
            pitch: shape.output_pitch,
        },
        Over {
            length: frames[0].len(),
            pitch: shape.first_pitch,
        },
    ];
    rows(shape, layer, &over)
}

// The rows of an output and a plane of each frame.
pub fn frames_rows<L: Lent>(
    shape: Shape,
    layer: L,
    output: &[u8],
    frames: [&[u8]; 2],
) -> Result<(), Refusal>
    ensures { (rest : Table) → let lent = output_by shape output.now ∷ first_by shape frames.entry ∷ second_by shape frames.entry ∷ [] in
        first_fitting (layer_rows (lay shape (L.held layer)) shape.plane lent rest) ≡ number_or result (first_fitting rest) }
{
    let over = [
        Over {
            length: output.len(),
            pitch: shape.output_pitch,
        },
        Over {
            length: frames[0].len(),
            pitch: shape.first_pitch,
        },
        Over {
            length: frames[1].len(),
            pitch: shape.second_pitch,
        },
    ];
    rows(shape, layer, &over)
}

// The tests of unpeel.
pub fn unpeel_refusal<L: Lent>(
    shape: Shape,
    layer: L,
    output: &[u8],
    frames: [&[u8]; 2],
) -> Result<(), Refusal>
    ensures { numbered result ≡ unpeel_refusal (unpeel_by shape (L.held layer) output.now frames.entry) }
{
    frames_rows(shape, layer, output, frames)?;
    plane::ensure(plane::timed(shape.time), Refusal::Setting)
}
