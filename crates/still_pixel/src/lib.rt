// What hold and apply do to one pixel, by the sum of its mask cells.
#![tactic(auto)]

ghost use Rattle.std.specs.Prelude.{◌≡◌, Bool, ℕ, cond, ◌*◌, ◌≤◌, ◌<◌, ltb, min, length, get_or};
ghost use Rattle.rules.specs.Float.{float, mix, pixel as pixel_of};
ghost use Rattle.rules.specs.Still.{weighed as weighed_of};

use std::hint;

// The sum of a pixel's mask cells, and how many they are.
#[derive(Clone, Copy)]
pub struct Weight {
    pub sum: u32,
    pub cells: u32,
    pub ghost some: { 1 ≤ cells },
    pub ghost few: { cells ≤ 64 },
    pub ghost most: { sum ≤ 255 * cells },
}

impl Weight {
    // The most that the sum can be.
    fn full(self) -> u32
        ensures { result ≡ 255 * self.cells }
    {
        255 * self.cells
    }
}

// What is done with the pixels of a plane, by the frames that are read: which are written, by their sums, and the byte
// that then stands there.
pub trait Work: Copy {
    // how many places the frames have
    ghost places: { Self → ℕ };

    ghost writes: { Self → (sum cells : ℕ) → Bool };

    ghost byte: { Self → (k old sum cells : ℕ) → ℕ };

    // A pixel that stays is passed over, or, where `skips` is false, reckoned like the others: a row is then a loop
    // without a branch.
    fn pixel(self, k: usize, old: u8, weight: Weight, skips: bool) -> u8
        requires { k < places self }
        ensures { result ≡ cond (writes self weight.sum weight.cells) (byte self k old weight.sum weight.cells) old };
}

// By hold: bytes are weighed with the bytes of a plane that is kept.
#[derive(Clone, Copy)]
pub struct Hold<'a> {
    pub held: &'a [u8],
}

// By apply: two frames are mixed.
#[derive(Clone, Copy)]
pub struct Apply<'a> {
    pub first: &'a [u8],
    pub second: &'a [u8],
    pub time: f32,
}

// Two bytes weighed: of the full weight, the sum is for the byte that was made.
#[tactic(auto, unfolding(rules::specs::Still::weighed))]
fn weighed(kept: u8, made: u8, sum: u32, full: u32) -> u8
    requires low { sum ≤ full }
    requires some { 1 ≤ full }
    requires few { full ≤ 16320 }
    ensures { result ≡ weighed_of kept made sum full }
{
    let mixed = u32::from(kept) * (full - sum) + u32::from(made) * sum;
    ((mixed + full / 2) / full) as u8
}

impl Work for Hold<'_> {
    ghost places = { λ s. length s.held.now };

    ghost writes = { λ _ sum cells. ltb sum (255 * cells) };

    ghost byte = { λ s k old sum cells. weighed_of (get_or s.held.now k 0) old sum (255 * cells) };

    #[tactic(auto, using(crate::proofs::Weights::whole))]
    fn pixel(self, k: usize, made: u8, weight: Weight, skips: bool) -> u8 {
        let full = weight.full();
        if skips & (weight.sum == full) {
            return made;
        }
        let kept = self.held[k];
        weighed(kept, made, weight.sum, full)
    }
}

impl Work for Apply<'_> {
    ghost places = { λ s. min (length s.first.now) (length s.second.now) };

    ghost writes = { λ _ sum cells. ltb (4 * cells) (10 * sum) };

    ghost byte = { λ s k _ _ _. pixel_of (mix (float (get_or s.first.now k 0)) (float (get_or s.second.now k 0)) s.time) };

    fn pixel(self, k: usize, old: u8, weight: Weight, skips: bool) -> u8 {
        let mixes = 10 * weight.sum > 4 * weight.cells;
        if skips & !mixes {
            return old;
        }
        let a = f32::from(self.first[k]);
        let b = f32::from(self.second[k]);
        hint::select_unpredictable(mixes, float::pixel(float::mix(a, b, self.time)), old)
    }
}
