// The Rust's `model`, `error` and `set`.
#![tactic(auto)]

ghost use Rattle.std.specs.Prelude.{◌≡◌};
ghost use Rattle.rules.specs.Model.{spread as spread_of, line as line_of, same as same_of, left as left_of, trust as trust_of};
ghost use Rattle.rules.specs.Model.{blend as blend_of, model as model_of, error as error_of, set as set_of, is_plain};
ghost use Rattle.calls.specs.Lent.{listed};

use rules::{Spread, Sums};

// Means, variances and covariance.
#[tactic(auto, unfolding(rules::specs::Model::spread))]
pub fn spread(sums: Sums, samples: f32) -> Spread
    ensures { result ≡ spread_of (listed sums) samples }
{
    let mp = sums.p / samples;
    let mi = sums.i / samples;
    Spread {
        mp,
        mi,
        vp: sums.pp / samples - mp * mp,
        vi: sums.ii / samples - mi * mi,
        cov: sums.pi / samples - mp * mi,
    }
}

// The line through the samples.
#[tactic(auto, unfolding(rules::specs::Model::line))]
pub fn line(spread: Spread) -> rules::Model
    ensures { result ≡ line_of spread }
{
    let gain = spread.cov / (spread.vp + 4.0);
    rules::Model {
        gain,
        offset: spread.mi - gain * spread.mp,
    }
}

// The mean square error of no change.
#[tactic(auto, unfolding(rules::specs::Model::same))]
pub fn same(spread: Spread) -> f32
    ensures { result ≡ same_of spread }
{
    spread.vi + spread.vp - 2.0 * spread.cov + (spread.mi - spread.mp) * (spread.mi - spread.mp)
}

// The mean square error that gain a leaves.
#[tactic(auto, unfolding(rules::specs::Model::left))]
pub fn left(spread: Spread, gain: f32) -> f32
    ensures { result ≡ left_of spread gain }
{
    float::max(
        spread.vi - 2.0 * gain * spread.cov + gain * gain * spread.vp,
        0.0,
    )
}

// How far the line is trusted.
#[tactic(auto, unfolding(rules::specs::Model::trust))]
pub fn trust(same: f32, left: f32, limit: f32, strict: bool) -> f32
    ensures { result ≡ trust_of same left limit strict }
{
    let trusted = float::clamp((1.0 - left / float::max(same, 0.001) - 0.5) / 0.2, 0.0, 1.0)
        * float::clamp((same - limit) / limit, 0.0, 1.0);
    if strict {
        trusted * float::clamp((limit / 2.0 - left) / (limit / 4.0), 0.0, 1.0)
    } else {
        trusted
    }
}

// From (1, 0) to the line.
#[tactic(auto, unfolding(rules::specs::Model::blend))]
pub fn blend(line: rules::Model, trust: f32) -> rules::Model
    ensures { result ≡ blend_of line trust }
{
    rules::Model {
        gain: 1.0 + trust * (line.gain - 1.0),
        offset: trust * line.offset,
    }
}

// The model of the sums t over n samples. The limit is squared already.
#[tactic(auto, unfolding(rules::specs::Model::model))]
pub fn model(sums: Sums, samples: f32, limit: f32, strict: bool) -> rules::Model
    ensures { result ≡ model_of (listed sums) samples limit strict }
{
    let spread = spread(sums, samples);
    let line = line(spread);
    blend(
        line,
        trust(same(spread), left(spread, line.gain), limit, strict),
    )
}

// The error of a model on the sums t.
#[tactic(auto, unfolding(rules::specs::Model::error))]
pub fn error(sums: Sums, samples: f32, model: rules::Model) -> f32
    ensures { result ≡ error_of (listed sums) samples model }
{
    let gain = model.gain;
    let offset = model.offset;
    (sums.ii - 2.0 * gain * sums.pi - 2.0 * offset * sums.i
        + gain * gain * sums.pp
        + 2.0 * gain * offset * sums.p)
        / samples
        + offset * offset
}

// Whether a model changes a pixel enough.
#[tactic(auto, unfolding(rules::specs::Model::set))]
pub fn set(model: rules::Model) -> bool
    ensures { result ≡ set_of model }
{
    0.02 < float::abs(model.gain - 1.0) || 1.0 < float::abs(model.offset)
}

// The model that changes nothing.
#[tactic(auto, unfolding(rules::specs::Model::is_plain))]
pub fn plain(model: rules::Model) -> bool
    ensures { result ≡ is_plain model }
{
    model.gain == 1.0 && model.offset == 0.0
}
