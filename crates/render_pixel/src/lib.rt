// What render sees at a pixel: each frame where the pixel moves, and both at the pixel itself.
#![tactic(auto)]

ghost use Rattle.std.specs.Prelude.{◌≡◌, ℕ, ◌≤◌, ⊤, get_or};
ghost use Rattle.rules.specs.Literals.{0·0};
ghost use Rattle.rules.specs.Float.{◌≼◌};
ghost use Rattle.rules.specs.Reading.{gap};
ghost use Rattle.rules.specs.Render.{moved as moved_of};
ghost use Rattle.calls.specs.Lent.{plane_of};
ghost use Rattle.layer_lent.specs.Lent.{lay, Inside};
ghost use Rattle.render_pixel.specs.Shown.{base_by, seen_by, byte_by};

use layer_lent::{Lent, Seen};
use rules::{Model, Moved, Steps};
use std::alloc::AllocError;

// A pixel of the plane.
#[derive(Clone, Copy)]
pub struct Spot {
    pub x: usize,
    pub y: usize,
}

// A plane of each of two frames, seen over one sheet.
pub struct Frames<'f, L: Lent> {
    pub first: Seen<'f, L>,
    pub second: Seen<'f, L>,
    pub ghost layer: { second.sheet.layer ≡ first.sheet.layer },
    pub ghost plan: { second.sheet.plan ≡ first.sheet.plan },
    pub ghost first_small: { (k : ℕ) → get_or first.raw.now k 0 ≤ 255 },
    pub ghost second_small: { (k : ℕ) → get_or second.raw.now k 0 ≤ 255 },
}

impl<L: Lent> Copy for Frames<'_, L> {}

impl<L: Lent> Clone for Frames<'_, L> {
    ghost is_clone = { λ a b. (b.first.sheet ≡ a.first.sheet) × (b.first.raw.now ≡ a.first.raw.now) × (b.first.pitch ≡ a.first.pitch)
        × (b.second.sheet ≡ a.second.sheet) × (b.second.raw.now ≡ a.second.raw.now) × (b.second.pitch ≡ a.second.pitch) };

    ghost is_infallible = { λ _. ⊤ };

    fn clone(&self) -> Result<Self, AllocError> {
        Ok(Frames {
            first: Seen {
                sheet: self.first.sheet,
                raw: self.first.raw,
                pitch: self.first.pitch,
            },
            second: Seen {
                sheet: self.second.sheet,
                raw: self.second.raw,
                pitch: self.second.pitch,
            },
        })
    }
}

// What a frame shows at a pixel that moves. The model and the sample there are taken once.
fn moved<L: Lent>(seen: &Seen<L>, spot: Spot, dx: f32, dy: f32) -> Moved
    requires { Inside seen.now.sheet.plan spot.x spot.y }
    ensures { let plan = seen.now.sheet.plan in
        result ≡ moved_of (lay plan.shape (L.held seen.now.sheet.layer)) plan.shape.plane (plane_of seen.now.raw.now seen.now.pitch) spot.x spot.y dx dy }
{
    let plan = seen.sheet.plan;
    let u = sample::shifted(spot.x, dx, plan.across);
    let v = sample::shifted(spot.y, dy, plan.down);
    let across = sample::between(u, plan.across);
    let down = sample::between(v, plan.down);
    let model = layer_point::model_by(seen.sheet, across, down);
    let value = sample::sample_at(seen.raw, seen.pitch, across, down, plan.across, plan.down);
    let under = scene_lift::lifted(value, model);
    Moved {
        scene: scene_between::filled(seen, u, v, under),
        on: render_choice::is_on(model),
        raw: value,
    }
}

// Both bytes of a pixel, lifted by its model and mixed by time.
fn base(model: Model, first: f32, second: f32, time: f32) -> f32
    ensures { result ≡ base_by model first second time }
{
    let early = scene_lift::value(scene_lift::lifted(first, model));
    let late = scene_lift::value(scene_lift::lifted(second, model));
    float::mix(early, late, time)
}

impl<L: Lent> Frames<'_, L> {
    ghost use Rattle.render_pixel.specs.Framed.{plan_of, layer_of, frames_of};

    // The scene chosen for a pixel.
    #[tactic(auto, unfolding(crate::specs::Shown::seen_by))]
    fn seen(&self, steps: Steps, base: f32, algo: i32, spot: Spot) -> f32
        requires { Inside (plan_of self.now) spot.x spot.y }
        ensures { result ≡ seen_by (layer_of self.now) (plan_of self.now).shape.plane (frames_of self.now) steps base algo spot.x spot.y }
    {
        let early = moved(&self.first, spot, steps.fx, steps.fy);
        let late = moved(&self.second, spot, steps.bx, steps.by);
        render_choice::between(early, late, base, algo)
    }

    // The byte of a pixel. Where its own bytes are mixed, the frames are looked at nowhere else.
    pub fn composed(&self, steps: Steps, near: bool, algo: i32, spot: Spot) -> u8
        requires inside { Inside (plan_of self.now) spot.x spot.y }
        requires near { near ≡ (gap (layer_of self.now) (plan_of self.now).shape.plane spot.x spot.y ≼ 0·0) }
        ensures { result ≡ byte_by (layer_of self.now) (plan_of self.now).shape.plane (frames_of self.now) steps algo spot.x spot.y }
    {
        let Spot { x, y } = spot;
        let sheet = self.first.sheet;
        let time = sheet.plan.shape.time;
        let model = layer_texel::texel(sheet, x, y);
        let early = sample::at(self.first.raw, self.first.pitch, x, y);
        let late = sample::at(self.second.raw, self.second.pitch, x, y);
        let layered = near & !fit_model::plain(model);
        if render_choice::kept(model, layered, early, late) {
            return float::pixel(float::mix(early, late, time));
        }
        let base = base(model, early, late, time);
        let scene = self.seen(steps, base, algo, spot);
        float::pixel(model.gain * scene + model.offset)
    }
}
