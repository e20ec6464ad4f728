// The model that stored numbers stand for, as floats: a gain in 4096ths, an offset in 64ths.
#![tactic(auto)]

ghost use Rattle.std.specs.Prelude.{◌≡◌, ◌≤◌, nat_abs};
ghost use Rattle.rules.specs.Literals.{0·2, 64·0};
ghost use Rattle.rules.specs.Float.{◌⊘◌, ◌≼◌, abs, signed};
ghost use Rattle.rules.specs.Reading.{luma_texel, chroma_texel};
ghost use Rattle.layer_numbers.specs.Stored.{gain_by};
ghost use Rattle.layer_model.specs.Least.{least_of};

use rules::{Gain, Model, Offset};

// A gain, of the total of span² stored gains. The common divisors are constants, powers of two.
#[tactic(auto, using(crate::proofs::Fifth::scale_four, layer_numbers::proofs::Texels::scale_one))]
fn gain_of(total: i32, span: usize) -> f32
    requires small { nat_abs total ≤ 524288 }
    requires few { span ≤ 4 }
    ensures { result ≡ gain_by span total }
{
    match span {
        1 => total as f32 / 4096.0,
        2 => total as f32 / 16384.0,
        _ => total as f32 / (float::of_size(span * span) * 4096.0),
    }
}

// An offset, of a stored one.
fn offset_of(offset: Offset) -> f32
    ensures { result ≡ signed offset.0 ⊘ 64·0 }
{
    f32::from(offset.0) / 64.0
}

// The least total of span² stored gains whose gain is 0.2 or more.
fn least(span: usize) -> u32
    ensures { result ≡ least_of span }
{
    match span {
        1 => 820,
        2 => 3277,
        _ => 13108,
    }
}

// A gain of 0.2 or more, by size.
#[tactic(auto, using(crate::proofs::Fifth::fifth_test))]
pub fn strong(total: i32, span: usize) -> bool
    requires small { nat_abs total ≤ 524288 }
    requires some { 1 ≤ span }
    requires few { span ≤ 4 }
    requires power { span ≡ 3 → ⊥ }
    ensures { result ≡ (0·2 ≼ abs (gain_by span total)) }
{
    least(span) <= total.unsigned_abs()
}

// The model of a luma pixel's stored numbers.
#[tactic(auto, unfolding(rules::specs::Reading::luma_texel))]
pub fn luma_texel(gain: Gain, offset: Offset) -> Model
    ensures { result ≡ luma_texel gain offset }
{
    Model {
        gain: f32::from(gain.0) / 4096.0,
        offset: offset_of(offset),
    }
}

// And of a chroma pixel's: the total of its gains, and its offset.
// Kept: (d) two bodies beside each other, as the rules have two definitions: luma's gain is a stored one, chroma's a
// mean, and one body for both would ask which plane it is.
#[tactic(auto, unfolding(rules::specs::Reading::chroma_texel))]
pub fn chroma_texel(total: i32, span: usize, offset: Offset) -> Model
    requires small { nat_abs total ≤ 524288 }
    requires few { span ≤ 4 }
    ensures { result ≡ chroma_texel span (signed total) offset }
{
    Model {
        gain: gain_of(total, span),
        offset: offset_of(offset),
    }
}
