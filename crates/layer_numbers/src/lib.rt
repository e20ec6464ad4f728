// The stored numbers of a pixel's model: the total of its gains, and its offset.
#![tactic(auto)]

ghost use Rattle.std.specs.Prelude.{◌≡◌, ◌<◌, ◌≤◌, pos, nat_abs, length, get_or};
ghost use Rattle.rules.specs.Reading.{luma_gain, luma_offset, stored_chroma};
ghost use Rattle.layer_lent.specs.Lent.{lay, LumaLong, Planned, Inside};
ghost use Rattle.layer_numbers.specs.Stored.{RowFits, Added, RowSummed, Summed};

use layer_lent::{Lent, Plan, Sheet};
use rules::{Gain, Offset};

// The gain that is number k of the luma slice.
fn gain<L: Lent>(layer: L, k: usize) -> Gain
    requires { k < length (L.held layer 0) }
    ensures { result ≡ record { 0 = get_or (L.held layer 0) k (pos 0) } }
{
    Gain(layer.entry(0, k))
}

// A total with one gain more.
fn added<L: Lent>(layer: L, k: usize, total: i32) -> i32
    requires inside { k < length (L.held layer 0) }
    requires small { nat_abs total ≤ 524288 }
    ensures { Added (L.held layer 0) k total result }
{
    total + i32::from(gain(layer, k).0)
}

// A row of a pixel's gains, added to a total. The span is a constant: the loops are unrolled.
#[tactic(auto, using(crate::proofs::Sums::row_none, crate::proofs::Sums::row_more))]
fn gain_row<L: Lent, const SPAN: usize>(
    layer: L,
    row: usize,
    pitch: usize,
    x: usize,
    total: i32,
) -> i32
    requires fits { RowFits (L.held layer 0) row pitch x SPAN }
    requires small { nat_abs total ≤ 393216 }
    ensures { RowSummed (L.held layer 0) row pitch x SPAN SPAN total result }
{
    let mut sum = total;
    for dx in 0..SPAN {
        let at = plane::place(row, pitch, plane::place(x, SPAN, dx));
        sum = added(layer, at, sum);
    }
    sum
}

// The gain of a pixel that has one.
pub fn luma_gain<L: Lent>(plan: Plan, layer: L, x: usize, y: usize) -> Gain
    requires planned { Planned plan }
    requires inside { Inside plan x y }
    requires long { LumaLong plan (L.held layer 0) }
    requires one { plan.span ≡ 1 }
    ensures { result ≡ luma_gain (lay plan.shape (L.held layer)) x y }
{
    gain(layer, plane::place(y, plan.shape.luma_pitch, x))
}

// The total of a pixel's gains, row by row, by a span that is a constant.
#[tactic(auto, using(crate::proofs::Sums::block_none, crate::proofs::Sums::block_more, crate::proofs::Places::row_fits))]
pub fn block<L: Lent, const SPAN: usize>(plan: Plan, layer: L, x: usize, y: usize) -> i32
    requires planned { Planned plan }
    requires inside { Inside plan x y }
    requires long { LumaLong plan (L.held layer 0) }
    requires same { plan.span ≡ SPAN }
    ensures { Summed plan (L.held layer 0) x y result }
{
    let mut sum = 0;
    for dy in 0..SPAN {
        let row = plane::place(y, SPAN, dy);
        sum = gain_row::<L, SPAN>(layer, row, plan.shape.luma_pitch, x, sum);
    }
    sum
}

// And by the plan's.
pub fn gains<L: Lent>(plan: Plan, layer: L, x: usize, y: usize) -> i32
    requires planned { Planned plan }
    requires inside { Inside plan x y }
    requires long { LumaLong plan (L.held layer 0) }
    ensures { Summed plan (L.held layer 0) x y result }
{
    match plan.span {
        1 => block::<L, 1>(plan, layer, x, y),
        2 => block::<L, 2>(plan, layer, x, y),
        _ => block::<L, 4>(plan, layer, x, y),
    }
}

// The offset of a luma pixel.
pub fn luma_offset<L: Lent>(plan: Plan, layer: L, x: usize, y: usize) -> Offset
    requires planned { Planned plan }
    requires inside { Inside plan x y }
    requires long { LumaLong plan (L.held layer 0) }
    requires luma { plan.shape.plane ≡ 0 }
    ensures { result ≡ luma_offset (lay plan.shape (L.held layer)) x y }
{
    let shape = plan.shape;
    let k = plane::place(shape.height + y, shape.luma_pitch, x);
    Offset(layer.entry(0, k))
}

// And of a chroma pixel.
pub fn chroma_offset<L: Lent>(sheet: Sheet<L>, x: usize, y: usize) -> Offset
    requires inside { Inside sheet.plan x y }
    requires chroma { sheet.plan.shape.plane ≡ 0 → ⊥ }
    ensures { result ≡ stored_chroma (lay sheet.plan.shape (L.held sheet.layer)) sheet.plan.shape.plane x y }
{
    let shape = sheet.plan.shape;
    let k = plane::place(y, shape.chroma_pitch, x);
    match shape.plane {
        1 => Offset(sheet.layer.entry(1, k)),
        _ => Offset(sheet.layer.entry(2, k)),
    }
}
