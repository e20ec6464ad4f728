// What lies under a layer at a point, filled from the rings around it.
#![tactic(auto)]

ghost use Rattle.std.specs.Prelude.{◌≡◌, ◌<◌, ◌≤◌};
ghost use Rattle.rules.specs.Float.{cut, ◌⊗◌, ◌⊕◌};
ghost use Rattle.rules.specs.Scene.{under as under_of, sign as sign_of, gathered as gathered_of, stepped, filled as filled_of, ring as ring_of};
ghost use Rattle.sample.specs.Points.{Held};
ghost use Rattle.calls.specs.Lent.{plane_of};
ghost use Rattle.layer_lent.specs.Lent.{lay, Inside};
ghost use Rattle.scene_between.specs.Rings.{ring_up_to};

use layer_lent::{Lent, Seen};
use rules::{Ring, Scene};

// A ring: the point that it lies around, and how far.
#[derive(Clone, Copy)]
struct Circle {
    x: f32,
    y: f32,
    radius: f32,
}

// -1.0, 0.0 or 1.0.
fn sign(k: usize) -> f32
    requires { k < 3 }
    ensures { result ≡ sign_of k }
{
    match k {
        0 => -1.0,
        1 => 0.0,
        _ => 1.0,
    }
}

// A coordinate beside another, held to the plane.
fn beside(x: f32, k: usize, radius: f32, size: usize) -> f32
    requires side { k < 3 }
    requires some { 1 ≤ size }
    requires few { size ≤ 4096 }
    ensures { Held (x ⊕ sign_of k ⊗ radius) size result }
{
    sample::held(x + sign(k) * radius, size)
}

// A ring with the value at a point more, if it is lifted: the plane is read only there.
fn gathered_at<L: Lent>(seen: &Seen<L>, x: f32, y: f32, ring: Ring) -> Ring
    requires { Inside seen.now.sheet.plan (cut x) (cut y) }
    ensures { let plan = seen.now.sheet.plan in
        result ≡ gathered_of (under_of (lay plan.shape (L.held seen.now.sheet.layer)) plan.shape.plane (plane_of seen.now.raw.now seen.now.pitch) x y) ring }
{
    let plan = seen.sheet.plan;
    let across = sample::between(x, plan.across);
    let down = sample::between(y, plan.down);
    let model = layer_point::model_by(seen.sheet, across, down);
    if 0.2 <= float::abs(model.gain) {
        let value = sample::sample_at(seen.raw, seen.pitch, across, down, plan.across, plan.down);
        scene_lift::added(ring, scene_lift::lift(value, model))
    } else {
        ring
    }
}

// Point `side` of a ring more; 4 is the middle and no point of it.
fn ring_step<L: Lent>(seen: &Seen<L>, circle: Circle, side: usize, ring: Ring) -> Ring
    requires { side < 9 }
    ensures { let plan = seen.now.sheet.plan in
        result ≡ stepped (lay plan.shape (L.held seen.now.sheet.layer)) plan.shape.plane (plane_of seen.now.raw.now seen.now.pitch) circle.x circle.y circle.radius side ring }
{
    if side == 4 {
        return ring;
    }
    let u = beside(circle.x, side % 3, circle.radius, seen.sheet.plan.across);
    let v = beside(circle.y, side / 3, circle.radius, seen.sheet.plan.down);
    gathered_at(seen, u, v, ring)
}

// The points of a ring, row by row.
#[tactic(auto, unfolding(rules::specs::Forms::turns, crate::specs::Rings::ring_up_to))]
fn ring_around<L: Lent>(seen: &Seen<L>, circle: Circle) -> Ring
    ensures { let plan = seen.now.sheet.plan in
        result ≡ ring_up_to (lay plan.shape (L.held seen.now.sheet.layer)) plan.shape.plane (plane_of seen.now.raw.now seen.now.pitch) circle.x circle.y circle.radius 9 }
{
    let mut grown = Ring {
        total: 0.0,
        count: 0.0,
    };
    for side in 0..9 {
        grown = ring_step(seen, circle, side, grown);
    }
    grown
}

// The ring at so many times the radius.
fn ring<L: Lent>(seen: &Seen<L>, x: f32, y: f32, times: usize) -> Ring
    requires { times ≤ 3 }
    ensures { let plan = seen.now.sheet.plan in
        result ≡ ring_of (lay plan.shape (L.held seen.now.sheet.layer)) plan.shape.plane (plane_of seen.now.raw.now seen.now.pitch) x y times }
{
    let radius = 4.0 / float::of_size(seen.sheet.plan.span) * float::of_size(times);
    ring_around(seen, Circle { x, y, radius })
}

// A scene value, filled if it is raw.
#[tactic(auto, unfolding(rules::specs::Scene::filled))]
pub fn filled<L: Lent>(seen: &Seen<L>, x: f32, y: f32, scene: Scene) -> Scene
    ensures { let plan = seen.now.sheet.plan in
        result ≡ filled_of (lay plan.shape (L.held seen.now.sheet.layer)) plan.shape.plane (plane_of seen.now.raw.now seen.now.pitch) x y scene }
{
    match scene {
        Scene::Lifted(_) => scene,
        Scene::Raw(value) => scene_lift::filled(|times| ring(seen, x, y, times), value),
    }
}
