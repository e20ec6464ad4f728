// Scene values: what a model makes of a sample, and the mean of a ring.
#![tactic(auto)]

ghost use Rattle.std.specs.Prelude.{◌≡◌, ◌≤◌, ℕ, MatchOption};
ghost use Rattle.rules.specs.Scene.{value as value_of, lift as lift_of, lifted as lifted_of, gathered, mean_or};
ghost use Rattle.rules.specs.Unpeel.{relaid as relaid_of};
ghost use Rattle.scene_lift.specs.Means.{means, Makes};

use rules::{Model, Ring, Scene};
use std::hint;

// A sample as it was before the layer.
pub fn lift(sample: f32, model: Model) -> f32
    ensures { result ≡ lift_of sample model }
{
    float::clamp((sample - model.offset) / model.gain, 0.0, 255.0)
}

// A sample lifted by a model, or left raw.
#[tactic(auto, unfolding(rules::specs::Scene::lifted))]
pub fn lifted(sample: f32, model: Model) -> Scene
    ensures { result ≡ lifted_of sample model }
{
    if 0.2 <= float::abs(model.gain) {
        Scene::Lifted(lift(sample, model))
    } else {
        Scene::Raw(sample)
    }
}

// A scene value's float.
pub fn value(scene: Scene) -> f32
    ensures { result ≡ value_of scene }
{
    match scene {
        Scene::Lifted(value) | Scene::Raw(value) => value,
    }
}

// A ring with one lifted value more.
#[tactic(auto, unfolding(rules::specs::Scene::gathered))]
pub fn added(ring: Ring, value: f32) -> Ring
    ensures { result ≡ gathered (Scene.Lifted value) ring }
{
    Ring {
        total: ring.total + value,
        count: ring.count + 1.0,
    }
}

// The mean of a ring that has any.
#[tactic(auto, unfolding(rules::specs::Scene::mean_or))]
pub fn mean(ring: Ring) -> Option<f32>
    ensures { MatchOption result ((other : Scene) → mean_or ring other ≡ other) (λ v. (other : Scene) → mean_or ring other ≡ Scene.Lifted v) }
{
    if 0.0 < ring.count {
        Some(ring.total / ring.count)
    } else {
        None
    }
}

// A raw value, filled from the first of its three rings that has any.
pub fn filled<F: Fn(usize) -> Ring + Copy>(ring: F, value: f32) -> Scene
    requires { (n : ℕ) → 1 ≤ n → n ≤ 3 → F.pre ring n }
    ensures { (rings : ℕ → Ring) → Makes (F.post ring) rings → result ≡ means rings 3 (Scene.Raw value) }
{
    for times in 1..=3 {
        if let Some(mean) = mean(ring(times)) {
            return Scene::Lifted(mean);
        }
    }
    Scene::Raw(value)
}

// A pixel under the layer again: own bytes mixed, or the middle scene value with the layer on it. Both are made, and
// each size is tested from both sides: straight lines.
pub fn relaid(model: Model, first: f32, second: f32, time: f32, old: f32) -> f32
    ensures { result ≡ relaid_of model first second time old }
{
    let mixed = float::mix(first, second, time);
    let middle = float::median(old, lift(first, model), lift(second, model));
    let laid = model.gain * middle + model.offset;
    let change = first - second;
    let below = hint::select_unpredictable(-change <= 2.5, mixed, laid);
    let apart = hint::select_unpredictable(change <= 2.5, below, laid);
    let gain = model.gain;
    hint::select_unpredictable(
        gain < 0.2,
        hint::select_unpredictable(-gain < 0.2, mixed, apart),
        apart,
    )
}
