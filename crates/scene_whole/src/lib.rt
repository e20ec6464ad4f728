// What lies under a layer at a pixel. At whole points nothing is cut or mixed.
#![tactic(auto)]

ghost use Rattle.std.specs.Prelude.{◌≡◌, ℕ, ◌*◌, ◌/◌, ◌<◌, ◌≤◌, get_or};
ghost use Rattle.rules.specs.Float.{float};
ghost use Rattle.rules.specs.Reading.{at, texel};
ghost use Rattle.rules.specs.Scene.{lift, gathered, filled};
ghost use Rattle.calls.specs.Lent.{plane_of};
ghost use Rattle.layer_lent.specs.Lent.{lay, Inside};
ghost use Rattle.layer_numbers.specs.Stored.{Summed};
ghost use Rattle.scene_whole.specs.Rings.{held_at, seen as seen_of, point_on, band_on, whole_ring};

use layer_lent::{Lent, Seen};
use rules::{Ring, Scene};

// One of a ring's three rows, by number: which row of the plane it is, around which column, and how far its points lie.
#[derive(Clone, Copy)]
struct Band {
    x: usize,
    row: usize,
    radius: usize,
    down: usize,
}

// Column or row x a radius back, where it is, or a radius on, held to the plane.
fn held(x: usize, k: usize, radius: usize, size: usize) -> usize
    requires inside { x < size }
    requires few { size ≤ 4096 }
    requires near { radius ≤ 12 }
    ensures is { result ≡ held_at x k radius size }
    ensures within { result < size }
{
    match k {
        0 => x.saturating_sub(radius),
        1 => x,
        _ => (x + radius).min(size - 1),
    }
}

// What the type of a slice's bytes says of each.
fn small(bytes: &[u8])
    ensures { (k : ℕ) → get_or bytes.now k 0 ≤ 255 }
{}

// The lifted value at a pixel with this total of gains.
// Kept: (b) a pixel stands beside its plane, not in one value with it: where render made the plane's value anew for
// each pixel of luma, that took 6 in 100 more instructions.
fn lifted_at<L: Lent>(seen: &Seen<L>, x: usize, y: usize, total: i32) -> f32
    requires inside { Inside seen.now.sheet.plan x y }
    requires summed { Summed seen.now.sheet.plan (L.held seen.now.sheet.layer 0) x y total }
    ensures { let plan = seen.now.sheet.plan in
        result ≡ lift (at (plane_of seen.now.raw.now seen.now.pitch) x y) (texel (lay plan.shape (L.held seen.now.sheet.layer)) plan.shape.plane x y) }
{
    let model = layer_texel::texel_of(seen.sheet, x, y, total);
    scene_lift::lift(sample::at(seen.raw, seen.pitch, x, y), model)
}

// A ring with the value at a pixel more, if it is lifted: nothing else is read before its gain is tested.
fn gathered_at<L: Lent>(seen: &Seen<L>, x: usize, y: usize, ring: Ring) -> Ring
    requires { Inside seen.now.sheet.plan x y }
    ensures { let plan = seen.now.sheet.plan in
        result ≡ gathered (seen_of (lay plan.shape (L.held seen.now.sheet.layer)) plan.shape.plane (plane_of seen.now.raw.now seen.now.pitch) x y) ring }
{
    let total = layer_numbers::gains(seen.sheet.plan, seen.sheet.layer, x, y);
    if layer_model::strong(total, seen.sheet.plan.span) {
        scene_lift::added(ring, lifted_at(seen, x, y, total))
    } else {
        ring
    }
}

// Point k of a row of a ring more; the ring has no middle.
#[tactic(auto, unfolding(crate::specs::Rings::gathered_on))]
fn point_more<L: Lent>(seen: &Seen<L>, band: Band, k: usize, ring: Ring) -> Ring
    requires inside { Inside seen.now.sheet.plan band.x band.row }
    requires near { band.radius ≤ 12 }
    ensures { let sheet = seen.now.sheet in
        result ≡ point_on sheet.plan (L.held sheet.layer) (plane_of seen.now.raw.now seen.now.pitch) band k ring }
{
    if band.down == 1 && k == 1 {
        ring
    } else {
        let column = held(band.x, k, band.radius, seen.sheet.plan.across);
        gathered_at(seen, column, band.row, ring)
    }
}

// The points of a row of a ring.
#[tactic(auto, unfolding(rules::specs::Forms::turns, crate::specs::Rings::row_ring))]
fn ring_row<L: Lent>(seen: &Seen<L>, band: Band, ring: Ring) -> Ring
    requires inside { Inside seen.now.sheet.plan band.x band.row }
    requires near { band.radius ≤ 12 }
    ensures { let sheet = seen.now.sheet in
        result ≡ band_on sheet.plan (L.held sheet.layer) (plane_of seen.now.raw.now seen.now.pitch) band ring }
{
    let mut grown = ring;
    for k in 0..3 {
        grown = point_more(seen, band, k, grown);
    }
    grown
}

// How far the first ring lies: 4 luma pixels. Each quotient is a constant.
fn fill_step(span: usize) -> usize
    requires some { 1 ≤ span }
    requires few { span ≤ 4 }
    ensures { result ≡ 4 / span }
{
    match span {
        1 => 4,
        2 => 2,
        _ => 1,
    }
}

// The ring at so many times the radius of the first.
#[tactic(auto, using(crate::proofs::Around::radius_in), unfolding(rules::specs::Forms::turns, crate::specs::Rings::whole_ring))]
fn ring<L: Lent>(seen: &Seen<L>, x: usize, y: usize, times: usize) -> Ring
    requires inside { Inside seen.now.sheet.plan x y }
    requires few { times ≤ 3 }
    ensures { let plan = seen.now.sheet.plan in
        result ≡ whole_ring (lay plan.shape (L.held seen.now.sheet.layer)) plan.shape.plane (plane_of seen.now.raw.now seen.now.pitch) (plan.across, plan.down) x y (4 / plan.span * times) 3 }
{
    let radius = fill_step(seen.sheet.plan.span) * times;
    let mut grown = Ring {
        total: 0.0,
        count: 0.0,
    };
    for down in 0..3 {
        let row = held(y, down, radius, seen.sheet.plan.down);
        let band = Band {
            x,
            row,
            radius,
            down,
        };
        grown = ring_row(seen, band, grown);
    }
    grown
}

// The raw value of a pixel, filled from its first ring with any.
pub fn rings<L: Lent>(seen: Seen<L>, x: usize, y: usize, value: f32) -> Scene
    requires { Inside seen.sheet.plan x y }
    ensures { let plan = seen.entry.sheet.plan in
        result ≡ filled (lay plan.shape (L.held seen.entry.sheet.layer)) plan.shape.plane (plane_of seen.entry.raw.now seen.entry.pitch) (float x) (float y) (Scene.Raw value) }
{
    small(seen.raw);
    scene_lift::filled(|times| ring(&seen, x, y, times), value)
}
