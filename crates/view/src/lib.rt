// A byte plane with its pitch travels as one borrowed view. `peel_view` and `unpeel_views` take views and call the
// slice versions; `peel_of` and `unpeel_of`, of plain parameters, are for every other caller.
#![tactic(auto)]

ghost use Rattle.std.specs.Prelude.{◌≡◌};
ghost use Rattle.peel.specs.Call.{peel_of, unpeel_of, Peeled, Unpeeled};
ghost use Rattle.view.specs.Viewed.{peel_seen, unpeel_seen};

use layer_lent::{Lent, Shape};
use rules::Refusal;

// A byte plane that is borrowed, with its pitch.
#[derive(Clone, Copy)]
pub struct View<'a> {
    pub bytes: &'a [u8],
    pub pitch: usize,
}

// The view of a slice.
pub fn new<'a>(bytes: &'a [u8], pitch: usize) -> View<'a>
    ensures bytes { result.bytes ≡ bytes.entry }
    ensures pitch { result.pitch ≡ pitch }
{
    View { bytes, pitch }
}

// Peels a plane that is a view.
pub fn peel_view<'o, 'f, L: Lent>(
    output: &'o mut [u8],
    shape: Shape,
    layer: L,
    raw: View<'f>,
) -> Result<usize, Refusal>
    ensures { Peeled (peel_seen shape (L.held layer) output.old raw.entry) output.new result }
{
    peel::peel(output, shape, layer, raw.bytes, raw.pitch)
}

// Peels one that is a slice with its pitch.
pub fn peel_of<'o, 'f, L: Lent>(
    output: &'o mut [u8],
    shape: Shape,
    layer: L,
    raw: &'f [u8],
    pitch: usize,
) -> Result<usize, Refusal>
    ensures { Peeled (peel_of shape (L.held layer) output.old raw.entry pitch) output.new result }
{
    peel_view(output, shape, layer, new(raw, pitch))
}

// Unpeels a plane between two views.
pub fn unpeel_views<'o, 'f, L: Lent>(
    output: &'o mut [u8],
    shape: Shape,
    layer: L,
    first: View<'f>,
    second: View<'f>,
) -> Result<usize, Refusal>
    ensures { Unpeeled (unpeel_seen shape (L.held layer) output.old first.entry second.entry) output.new result }
{
    peel::unpeel(
        output,
        shape,
        layer,
        first.bytes,
        first.pitch,
        second.bytes,
        second.pitch,
    )
}

// Unpeels one between two slices, each with its pitch.
pub fn unpeel_of<'o, 'f, L: Lent>(
    output: &'o mut [u8],
    shape: Shape,
    layer: L,
    first: &'f [u8],
    first_pitch: usize,
    second: &'f [u8],
    second_pitch: usize,
) -> Result<usize, Refusal>
    ensures { Unpeeled (unpeel_of shape (L.held layer) output.old first.entry first_pitch second.entry second_pitch) output.new result }
{
    unpeel_views(
        output,
        shape,
        layer,
        new(first, first_pitch),
        new(second, second_pitch),
    )
}
