// Keeping, at one pixel: how many of its neighbours are set, and what becomes of it.
#![tactic(auto)]

ghost use Rattle.std.specs.Prelude.{◌≡◌, ◌+◌, ◌*◌, ◌/◌, ◌%◌, ◌<◌, ◌≤◌, length};
ghost use Rattle.rules.specs.Model.{set};
ghost use Rattle.rules.specs.Keeping.{beside as beside_of, model_of, near as near_of};
ghost use Rattle.rules.specs.Assembly.{model_slice};
ghost use Rattle.table.specs.Models.{model_at};
ghost use Rattle.fit_near.specs.Verdict.{verdict_of};

use rules::Model;

// What becomes of a pixel.
// Kept: (d) three outcomes, each by its name; as an Option<bool> they would be None, Some(false) and Some(true), and
// each place that matches them would have to say what these mean.
#[derive(Clone, Copy)]
pub enum Verdict {
    // it is not kept
    Dropped,
    // it is kept, and marks no cell
    Unmarked,
    // it is kept, and marks its cell
    Marked,
}

// The rough models of a plane.
#[derive(Clone, Copy)]
pub struct Rough<'r> {
    pub models: &'r [f32],
    pub width: usize,
    pub height: usize,
    pub ghost wide: { width ≤ 4096 },
    pub ghost tall: { height ≤ 4096 },
    pub ghost long: { length models.now ≡ 4 * (width * height) },
}

// The model of luma pixel `at`.
fn model_at(models: &[f32], at: usize) -> Model
    requires { at * 4 + 4 ≤ length models.now }
    ensures { result ≡ (model_at models.now at).model }
{
    Model {
        gain: models[at * 4],
        offset: models[at * 4 + 1],
    }
}

// Column or row k, moved by side - 1 and clamped.
fn beside(k: usize, side: usize, size: usize) -> usize
    requires inside { k < size }
    requires small { size ≤ 4096 }
    requires near { side ≤ 2 }
    ensures moved { result ≡ beside_of k side size }
    ensures inside { result < size }
{
    match side {
        0 => k.saturating_sub(1),
        1 => k,
        _ => (k + 1).min(size - 1),
    }
}

// A pixel of a plane of rough models.
#[derive(Clone, Copy)]
pub struct Pixel<'r> {
    pub rough: Rough<'r>,
    pub x: usize,
    pub y: usize,
    pub ghost left: { x < rough.width },
    pub ghost above: { y < rough.height },
}

impl Pixel<'_> {
    // Whether neighbour `side` of the pixel, of 0 to 8, is set.
    fn is_set(self, side: usize) -> bool
        requires { side < 9 }
        ensures { let r = self.entry.rough in result
            ≡ set (model_of (model_slice r.models.now (r.width * r.height))
            (beside_of self.entry.y (side / 3) r.height * r.width + beside_of self.entry.x (side % 3) r.width)) }
    {
        let rough = self.rough;
        let row = beside(self.y, side / 3, rough.height);
        let column = beside(self.x, side % 3, rough.width);
        fit_model::set(model_at(rough.models, plane::place(row, rough.width, column)))
    }

    // How many of its nine neighbours are set.
    #[tactic(auto, unfolding(rules::specs::Forms::turns, rules::specs::Forms::how_many, rules::specs::Keeping::near, crate::specs::Verdict::near_below), using(crate::proofs::Near::one_more))]
    fn near(self) -> usize
        ensures { let r = self.entry.rough in result
            ≡ near_of (model_slice r.models.now (r.width * r.height)) (r.width, r.height) self.entry.x self.entry.y }
    {
        let mut count = 0;
        for side in 0..9 {
            count += usize::from(self.is_set(side));
        }
        count
    }

    // What becomes of it.
    pub fn verdict(self) -> Verdict
        ensures { let r = self.entry.rough in result
            ≡ verdict_of (model_slice r.models.now (r.width * r.height)) (r.width, r.height) (self.entry.y * r.width + self.entry.x) }
    {
        let rough = self.rough;
        let model = model_at(rough.models, plane::place(self.y, rough.width, self.x));
        if fit_model::set(model) {
            if 3 <= self.near() {
                Verdict::Marked
            } else {
                Verdict::Dropped
            }
        } else if fit_model::plain(model) {
            Verdict::Dropped
        } else {
            Verdict::Unmarked
        }
    }
}
