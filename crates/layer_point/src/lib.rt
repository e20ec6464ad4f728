// A layer's model at a point, by the columns and rows around it.
#![tactic(auto)]

ghost use Rattle.std.specs.Prelude.{◌≡◌, ℕ};
ghost use Rattle.rules.specs.Reading.{mix_models, texel as texel_of};
ghost use Rattle.layer_lent.specs.Lent.{lay};
ghost use Rattle.layer_point.specs.Points.{Gives, Readable, Around, row_of, point_of};

use layer_lent::{Lent, Sheet};
use rules::{Model, Taps};

// Two models, mixed by a share.
fn mix_models(one: Model, other: Model, share: f32) -> Model
    ensures { result ≡ mix_models one other share }
{
    Model {
        gain: float::mix(one.gain, other.gain, share),
        offset: float::mix(one.offset, other.offset, share),
    }
}

// Two models of a row, mixed. What reads the model of a pixel is given.
fn row<F: Fn(usize, usize) -> Model + Copy>(read: F, across: Taps, y: usize) -> Model
    requires left { F.pre read across.first y }
    requires right { F.pre read across.second y }
    ensures { (t : ((x y : ℕ) → Model)) → Gives (F.post read) t → result ≡ row_of t across y }
{
    let left = read(across.first, y);
    let right = read(across.second, y);
    mix_models(left, right, across.share)
}

// The model at a point; at a whole point that pixel's own.
fn point<F: Fn(usize, usize) -> Model + Copy>(read: F, across: Taps, down: Taps) -> Model
    requires { Readable (F.pre read) across down }
    ensures { (t : ((x y : ℕ) → Model)) → Gives (F.post read) t → result ≡ point_of t across down }
{
    if (across.share == 0.0) & (down.share == 0.0) {
        return read(across.first, down.first);
    }
    let upper = row(read, across, down.first);
    let lower = row(read, across, down.second);
    mix_models(upper, lower, down.share)
}

// The model at a point: luma and chroma at ratio 2 are read in straight lines.
#[tactic(auto, using(layer_lent::proofs::Plans::one_of))]
pub fn model_by<L: Lent>(sheet: Sheet<L>, across: Taps, down: Taps) -> Model
    requires { Around sheet.plan.across sheet.plan.down across down }
    ensures { result ≡ point_of (texel_of (lay sheet.plan.shape (L.held sheet.layer)) sheet.plan.shape.plane) across down }
{
    if sheet.plan.shape.plane == 0 {
        let luma = |x, y| layer_texel::straight::<L, true, 1>(sheet, x, y);
        return point(luma, across, down);
    }
    if sheet.plan.span == 2 {
        let chroma = |x, y| layer_texel::straight::<L, false, 2>(sheet, x, y);
        return point(chroma, across, down);
    }
    point(|x, y| layer_texel::texel(sheet, x, y), across, down)
}
