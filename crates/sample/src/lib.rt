// A byte plane, read at a pixel and between pixels.
#![tactic(auto)]

ghost use Rattle.std.specs.Prelude.{◌≡◌, ◌+◌, ◌*◌, ◌<◌, ◌≤◌, length};
ghost use Rattle.rules.specs.Float.{float, cut, ◌⊕◌};
ghost use Rattle.rules.specs.Reading.{at as at_of};
ghost use Rattle.calls.specs.Lent.{plane_of};
ghost use Rattle.sample.specs.Points.{PlaneFits, Held, Within, around, sampled_row, sampled_at};

use rules::Taps;

// A byte plane that is borrowed, with its pitch.
#[derive(Clone, Copy)]
pub struct View<'p> {
    pub bytes: &'p [u8],
    pub pitch: usize,
}

impl<'p> View<'p> {
    // The view of a slice.
    pub fn new(bytes: &'p [u8], pitch: usize) -> View<'p>
        ensures bytes { result.bytes ≡ bytes.entry }
        ensures pitch { result.pitch ≡ pitch }
    {
        View { bytes, pitch }
    }
}

// The whole number below a point of a plane.
pub fn whole(x: f32) -> u32
    requires { cut x ≤ 4096 }
    ensures { result ≡ cut x }
{
    float::cut_low(float::max(0.0, x))
}

// A coordinate held to the plane.
// Kept: (d) a side of 1 to 4096 is asked here and below, as an index is of a slice: a side as a value would be made
// anew from a grid's or a plane's number for each point.
pub fn held(x: f32, size: usize) -> f32
    requires some { 1 ≤ size }
    requires few { size ≤ 4096 }
    ensures { Held x size result }
{
    float::clamp(x, 0.0, float::of_size(size - 1))
}

// A pixel's coordinate, moved and held to the plane.
pub fn shifted(x: usize, d: f32, size: usize) -> f32
    requires near { x ≤ 4096 }
    requires some { 1 ≤ size }
    requires few { size ≤ 4096 }
    ensures { Held (float x ⊕ d) size result }
{
    held(float::of_size(x) + d, size)
}

// The two columns or rows around a point of the plane, the first of which is known.
pub fn taps_at(x: f32, first: usize, size: usize) -> Taps
    requires first_is { first ≡ cut x }
    requires within { first < size }
    requires few { size ≤ 4096 }
    ensures { Within (around x size) size result }
{
    Taps {
        first,
        second: plane::after(first, size),
        share: x - float::of_size(first),
    }
}

// The two columns or rows around a point of the plane. The point is cut once.
pub fn between(x: f32, size: usize) -> Taps
    requires within { cut x < size }
    requires few { size ≤ 4096 }
    ensures { Within (around x size) size result }
{
    taps_at(x, whole(x) as usize, size)
}

// A byte of a plane as a float.
pub fn at(raw: &[u8], pitch: usize, x: usize, y: usize) -> f32
    requires across { x ≤ 65536 }
    requires down { y ≤ 65536 }
    requires apart { pitch ≤ 65536 }
    requires long { y * pitch + x < length raw.now }
    ensures { result ≡ at_of (plane_of raw.now pitch) x y }
{
    f32::from(raw[plane::place(y, pitch, x)])
}

// Two bytes of a row, mixed.
#[tactic(auto, unfolding(crate::specs::Points::sampled_row))]
fn sample_row(raw: &[u8], pitch: usize, across: Taps, y: usize, width: usize, height: usize) -> f32
    requires fits { PlaneFits raw.now pitch width height }
    requires first_in { across.first < width }
    requires second_in { across.second < width }
    requires low { y < height }
    ensures { result ≡ sampled_row (plane_of raw.now pitch) across y }
{
    let m = at(raw, pitch, across.first, y);
    let n = at(raw, pitch, across.second, y);
    float::mix(m, n, across.share)
}

// The plane between four pixels, along the row first.
#[tactic(auto, unfolding(crate::specs::Points::sampled_at))]
pub fn sample_at(
    raw: &[u8],
    pitch: usize,
    across: Taps,
    down: Taps,
    width: usize,
    height: usize,
) -> f32
    requires fits { PlaneFits raw.now pitch width height }
    requires first_in { across.first < width }
    requires second_in { across.second < width }
    requires upper_in { down.first < height }
    requires lower_in { down.second < height }
    ensures { result ≡ sampled_at (plane_of raw.now pitch) across down }
{
    let upper = sample_row(raw, pitch, across, down.first, width, height);
    let lower = sample_row(raw, pitch, across, down.second, width, height);
    float::mix(upper, lower, down.share)
}
