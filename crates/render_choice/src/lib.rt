// What render decides at a pixel: whether it is written, and what is taken from the two frames.
#![tactic(auto)]

ghost use Rattle.std.specs.Prelude.{◌≡◌, ◌≤◌, ◌^◌};
ghost use Rattle.rules.specs.Render.{timed as timed_of, reach as reach_of, is_on, exchanged as exchanged_of, chosen as chosen_of, between as between_of};
ghost use Rattle.render_choice.specs.Kept.{is_within, is_kept};

use rules::{Model, Moved, Scene, Steps};

// The steps as far as the time takes them.
#[tactic(auto, unfolding(rules::specs::Render::timed))]
pub fn timed(time: f32, steps: Steps) -> Steps
    ensures { result ≡ timed_of time steps }
{
    let rest = 1.0 - time;
    Steps {
        fx: steps.fx * time,
        fy: steps.fy * time,
        bx: steps.bx * rest,
        by: steps.by * rest,
    }
}

// The largest of a pixel's own steps, in luma pixels.
#[tactic(auto, unfolding(rules::specs::Render::reach))]
fn reach(ratio: usize, steps: Steps) -> f32
    requires { ratio ≤ 2 ^ 24 }
    ensures { result ≡ reach_of ratio steps }
{
    let first = float::max(float::abs(steps.fx), float::abs(steps.fy));
    let both = float::max(
        float::max(first, float::abs(steps.bx)),
        float::abs(steps.by),
    );
    both * float::of_size(ratio)
}

// A gap that a reach makes up for.
pub fn within(gap: f32, reach: f32) -> bool
    ensures { result ≡ is_within gap reach }
{
    !(float::max(reach + 1.0, 16.0) < gap)
}

// A gap that a pixel's own steps make up for. No margin is below 16, and most gaps are not above it.
#[tactic(auto, using(crate::proofs::Sides::near_within))]
pub fn reached(gap: f32, ratio: usize, steps: Steps) -> bool
    requires { ratio ≤ 2 ^ 24 }
    ensures { result ≡ is_within gap (reach_of ratio steps) }
{
    if gap <= 16.0 {
        return true;
    }
    within(gap, reach(ratio, steps))
}

// More than a trace of a layer.
pub fn is_on(model: Model) -> bool
    ensures { result ≡ is_on model }
{
    0.0001 <= float::abs(model.gain - 1.0) || 0.01 <= float::abs(model.offset)
}

// The pixel's own bytes are mixed, whatever the frames show elsewhere.
pub fn kept(model: Model, layered: bool, first: f32, second: f32) -> bool
    ensures { result ≡ is_kept model layered first second }
{
    float::abs(model.gain) < 0.2 || layered && float::abs(first - second) <= 2.5
}

// One side's scene, or its raw sample, where the layer is on at this side alone and that is nearer to
// the other side's scene.
#[tactic(auto, unfolding(rules::specs::Render::exchanged))]
fn exchanged(mine: Moved, other: Moved, gap: f32) -> Scene
    ensures { result ≡ exchanged_of mine other gap }
{
    let near = float::abs(mine.raw - scene_lift::value(other.scene)) < gap;
    let lifted = matches!(mine.scene, Scene::Lifted(_));
    let across = matches!(other.scene, Scene::Lifted(_));
    if mine.on & !other.on & lifted & across & near {
        Scene::Lifted(mine.raw)
    } else {
        mine.scene
    }
}

// `algo` 1 prefers the second, 2 the first, others the median; a lifted side wins over a raw one.
#[tactic(auto, unfolding(rules::specs::Render::chosen))]
fn chosen(first: Scene, second: Scene, base: f32, algo: i32) -> f32
    ensures { result ≡ chosen_of first second base algo }
{
    match (first, second) {
        (Scene::Lifted(early), Scene::Lifted(late)) => match algo {
            1 => late,
            2 => early,
            _ => float::median(early, late, base),
        },
        (Scene::Lifted(early), Scene::Raw(_)) => early,
        (Scene::Raw(_), Scene::Lifted(late)) => late,
        (Scene::Raw(_), Scene::Raw(_)) => base,
    }
}

// The two sides, exchanged and chosen from. Where the layer is on at both or at none, nothing is exchanged.
#[tactic(auto, unfolding(rules::specs::Render::between), using(crate::proofs::Sides::alike_is))]
pub fn between(first: Moved, second: Moved, base: f32, algo: i32) -> f32
    ensures { result ≡ between_of first second base algo }
{
    let early = first.scene;
    let late = second.scene;
    if first.on == second.on {
        return chosen(early, late, base, algo);
    }
    let gap = float::abs(scene_lift::value(early) - scene_lift::value(late));
    chosen(
        exchanged(first, second, gap),
        exchanged(second, first, gap),
        base,
        algo,
    )
}
