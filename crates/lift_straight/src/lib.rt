// Unpeel: the layer on a pixel again. And the pixel of a run, stored without a branch, so that a run goes fast whatever
// it holds.
#![tactic(auto)]

ghost use Rattle.std.specs.Prelude.{◌≡◌, ◌<◌, ◌^◌, ⊤, length};
ghost use Rattle.sample.specs.Points.{PlaneFits};
ghost use Rattle.plane.specs.Done.{Stamped};
ghost use Rattle.layer_lent.specs.Lent.{Inside};
ghost use Rattle.lift_straight.specs.Laid.{byte_by};

use layer_lent::{Lent, Sheet};
use rules::Model;
use std::alloc::AllocError;

// The layer is laid on at a time between two frames, whose planes lie over the plane that is worked on.
pub struct Unpeel<'f, L: Lent> {
    pub sheet: Sheet<L>,
    pub first: &'f [u8],
    pub second: &'f [u8],
    pub ghost first_lies: { PlaneFits first.now sheet.plan.shape.first_pitch sheet.plan.across sheet.plan.down },
    pub ghost second_lies: { PlaneFits second.now sheet.plan.shape.second_pitch sheet.plan.across sheet.plan.down },
}

impl<L: Lent> Copy for Unpeel<'_, L> {}

impl<L: Lent> Clone for Unpeel<'_, L> {
    ghost is_clone = { λ a b. (b.sheet ≡ a.sheet) × (b.first.now ≡ a.first.now) × (b.second.now ≡ a.second.now) };

    ghost is_infallible = { λ _. ⊤ };

    fn clone(&self) -> Result<Self, AllocError> {
        Ok(Unpeel {
            sheet: self.sheet,
            first: self.first,
            second: self.second,
        })
    }
}

impl<L: Lent> Unpeel<'_, L> {
    // The byte of a pixel with the layer on it again.
    #[tactic(auto, using(sample::proofs::Bytes::byte_in))]
    pub fn byte(self, model: Model, x: usize, y: usize, old: u8) -> u8
        requires { Inside self.sheet.plan x y }
        ensures { result ≡ byte_by self.entry.sheet.plan.shape self.entry.first.now self.entry.second.now model x y old }
    {
        let shape = self.sheet.plan.shape;
        let first = sample::at(self.first, shape.first_pitch, x, y);
        let second = sample::at(self.second, shape.second_pitch, x, y);
        let old = f32::from(old);
        float::pixel(scene_lift::relaid(model, first, second, shape.time, old))
    }
}

// The pixel is stored, whether it is written or not, and counted if it is. A run's count is as wide as a float, so that
// they go side by side.
pub fn mark(output: &mut [u8], k: usize, byte: Option<u8>, count: u32) -> u32
    requires place { k < length output.old }
    requires few { count < 2 ^ 31 }
    ensures { Stamped output.old k byte count output.new result }
{
    output[k] = byte.unwrap_or(output[k]);
    count + u32::from(byte.is_some())
}
