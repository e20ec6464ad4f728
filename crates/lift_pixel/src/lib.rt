// What peel and unpeel do to one pixel: they write the same ones.
#![tactic(auto)]

ghost use Rattle.std.specs.Prelude.{◌≡◌, ◌≤◌, ℕ, get_or, true};
ghost use Rattle.rules.specs.Literals.{0·0};
ghost use Rattle.rules.specs.Float.{◌≼◌};
ghost use Rattle.rules.specs.Reading.{gap, texel as texel_of};
ghost use Rattle.plane.specs.Done.{change as change_of};
ghost use Rattle.layer_lent.specs.declared.Plan.{Plan};
ghost use Rattle.layer_lent.specs.Lent.{lay, Held, Inside, Sound};
ghost use Rattle.layer_texel.specs.Fixed.{Fixed};
ghost use Rattle.lift_pixel.specs.Works.{Bytes, peel_bytes, unpeel_bytes, rule_of};

use layer_lent::{Lent, Seen, Sheet};
use lift_straight::Unpeel;
use rules::{Model, Scene};

// A sheet, or what lies over one.
pub trait Over: Copy {
    type Layer: Lent;

    // the sheet's plan, and the numbers of its slices
    ghost plan: { Self → Plan };

    ghost held: { Self → Held };

    fn sheet(self) -> Sheet<Self::Layer>
        ensures plan { result.plan ≡ plan self }
        ensures held { Self.Layer.held result.layer ≡ held self };

    // it is not refused
    ghost sound: { (o : Self) → Sound (plan o) (held o) };
}

impl<L: Lent> Over for Sheet<L> {
    type Layer = L;

    ghost plan = { λ s. s.plan };

    ghost held = { λ s. L.held s.layer };

    ghost sound = { λ s. s.sound };

    fn sheet(self) -> Sheet<L> {
        self
    }
}

impl<L: Lent> Over for Seen<'_, L> {
    type Layer = L;

    ghost plan = { λ s. s.sheet.plan };

    ghost held = { λ s. L.held s.sheet.layer };

    ghost sound = { λ s. s.sheet.sound };

    fn sheet(self) -> Sheet<L> {
        self.sheet
    }
}

impl<L: Lent> Over for Unpeel<'_, L> {
    type Layer = L;

    ghost plan = { λ w. w.sheet.plan };

    ghost held = { λ w. L.held w.sheet.layer };

    ghost sound = { λ w. w.sheet.sound };

    fn sheet(self) -> Sheet<L> {
        self.sheet
    }
}

// What is done with a plane: the byte of a pixel that the layer shows in.
pub trait Work: Over {
    // A run of pixels is faster where each byte is made, whether it is put there or not.
    const STRAIGHT: bool;

    ghost byte: { Self → Bytes };

    // The byte of a pixel with this model.
    fn made(self, x: usize, y: usize, model: Model, old: u8) -> u8
        requires inside { Inside (Self.plan self) x y }
        requires texel { model ≡ texel_of (lay (Self.plan self).shape (Self.held self)) (Self.plan self).shape.plane x y }
        ensures { result ≡ byte self x y old };
}

// What the type of a slice's bytes says of each.
fn small(bytes: &[u8])
    ensures { (k : ℕ) → get_or bytes.now k 0 ≤ 255 }
{}

// Peel: the layer is taken off what is seen.
impl<L: Lent> Work for Seen<'_, L> {
    // Few bytes are made without a branch.
    const STRAIGHT: bool = false;

    ghost byte = { λ s. peel_bytes s.sheet.plan.shape (L.held s.sheet.layer) s.raw.now s.pitch };

    #[tactic(auto, using(sample::proofs::Bytes::byte_in))]
    fn made(self, x: usize, y: usize, model: Model, old: u8) -> u8 {
        small(self.raw);
        match scene_lift::lifted(sample::at(self.raw, self.pitch, x, y), model) {
            Scene::Lifted(shown) => float::pixel(shown),
            Scene::Raw(shown) => {
                let scene = scene_whole::rings(self, x, y, shown);
                float::pixel(scene_lift::value(scene))
            }
        }
    }
}

// Unpeel: it is laid on again.
impl<L: Lent> Work for Unpeel<'_, L> {
    const STRAIGHT: bool = true;

    ghost byte = { λ w. unpeel_bytes w.sheet.plan.shape (L.held w.sheet.layer) w.first.now w.second.now };

    // By the frames.
    fn made(self, x: usize, y: usize, model: Model, old: u8) -> u8 {
        self.byte(model, x, y, old)
    }
}

// What is done to a pixel of a near cell. No byte is made where it stays.
pub fn change<W: Work>(work: W, x: usize, y: usize, old: u8) -> Option<u8>
    requires inside { Inside (W.plan work) x y }
    requires near { (gap (lay (W.plan work).shape (W.held work)) (W.plan work).shape.plane x y ≼ 0·0) ≡ true }
    ensures { result ≡ change_of (rule_of (W.byte work) (W.plan work).shape (W.held work)) x y old }
{
    let model = layer_texel::texel(work.sheet(), x, y);
    if fit_model::plain(model) {
        return None;
    }
    Some(work.made(x, y, model, old))
}

// The same where a pixel has one gain or four, in a straight line: the byte is made whether it is put there or not.
pub fn straight<W: Work, const LUMA: bool, const SPAN: usize>(
    work: W,
    x: usize,
    y: usize,
    old: u8,
) -> Option<u8>
    requires inside { Inside (W.plan work) x y }
    requires near { (gap (lay (W.plan work).shape (W.held work)) (W.plan work).shape.plane x y ≼ 0·0) ≡ true }
    requires fixed { Fixed (W.plan work) LUMA SPAN }
    requires few { SPAN ≤ 2 }
    ensures { result ≡ change_of (rule_of (W.byte work) (W.plan work).shape (W.held work)) x y old }
{
    let model = layer_texel::straight::<W::Layer, LUMA, SPAN>(work.sheet(), x, y);
    let byte = work.made(x, y, model, old);
    (!fit_model::plain(model)).then_some(byte)
}
