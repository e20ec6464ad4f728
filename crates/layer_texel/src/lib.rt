// The model of a pixel, as floats.
#![tactic(auto)]

ghost use Rattle.std.specs.Prelude.{◌≡◌, ◌≤◌};
ghost use Rattle.rules.specs.Reading.{texel as texel_of};
ghost use Rattle.layer_lent.specs.Lent.{lay, Inside};
ghost use Rattle.layer_numbers.specs.Stored.{Summed};
ghost use Rattle.layer_texel.specs.Fixed.{Fixed};

use layer_lent::{Lent, Sheet};
use rules::Model;

// The model of a luma pixel.
#[tactic(auto, using(layer_lent::proofs::Plans::one_of), unfolding(rules::specs::Reading::texel))]
fn luma_model<L: Lent>(sheet: Sheet<L>, x: usize, y: usize) -> Model
    requires inside { Inside sheet.plan x y }
    requires luma { sheet.plan.shape.plane ≡ 0 }
    ensures { result ≡ texel_of (lay sheet.plan.shape (L.held sheet.layer)) sheet.plan.shape.plane x y }
{
    let gain = layer_numbers::luma_gain(sheet.plan, sheet.layer, x, y);
    let offset = layer_numbers::luma_offset(sheet.plan, sheet.layer, x, y);
    layer_model::luma_texel(gain, offset)
}

// The model of a chroma pixel with this total of gains. The span is the plan's, so that it can be a constant.
#[tactic(auto, using(crate::proofs::Models::chroma_is))]
fn chroma_model<L: Lent>(sheet: Sheet<L>, span: usize, x: usize, y: usize, total: i32) -> Model
    requires inside { Inside sheet.plan x y }
    requires chroma { sheet.plan.shape.plane ≡ 0 → ⊥ }
    requires same { sheet.plan.span ≡ span }
    requires summed { Summed sheet.plan (L.held sheet.layer 0) x y total }
    ensures { result ≡ texel_of (lay sheet.plan.shape (L.held sheet.layer)) sheet.plan.shape.plane x y }
{
    let offset = layer_numbers::chroma_offset(sheet, x, y);
    layer_model::chroma_texel(total, span, offset)
}

// The model of a pixel with this total of gains.
pub fn texel_of<L: Lent>(sheet: Sheet<L>, x: usize, y: usize, total: i32) -> Model
    requires inside { Inside sheet.plan x y }
    requires summed { Summed sheet.plan (L.held sheet.layer 0) x y total }
    ensures { result ≡ texel_of (lay sheet.plan.shape (L.held sheet.layer)) sheet.plan.shape.plane x y }
{
    if sheet.plan.shape.plane == 0 {
        luma_model(sheet, x, y)
    } else {
        chroma_model(sheet, sheet.plan.span, x, y, total)
    }
}

// The model of a pixel, in a straight line that is compiled for each plane and span.
pub fn straight<L: Lent, const LUMA: bool, const SPAN: usize>(
    sheet: Sheet<L>,
    x: usize,
    y: usize,
) -> Model
    requires inside { Inside sheet.plan x y }
    requires fixed { Fixed sheet.plan LUMA SPAN }
    ensures { result ≡ texel_of (lay sheet.plan.shape (L.held sheet.layer)) sheet.plan.shape.plane x y }
{
    if LUMA {
        return luma_model(sheet, x, y);
    }
    let total = layer_numbers::block::<L, SPAN>(sheet.plan, sheet.layer, x, y);
    chroma_model(sheet, SPAN, x, y, total)
}

// The model of a pixel.
pub fn texel<L: Lent>(sheet: Sheet<L>, x: usize, y: usize) -> Model
    requires { Inside sheet.plan x y }
    ensures { result ≡ texel_of (lay sheet.plan.shape (L.held sheet.layer)) sheet.plan.shape.plane x y }
{
    let total = layer_numbers::gains(sheet.plan, sheet.layer, x, y);
    texel_of(sheet, x, y, total)
}
