// The window's answer at each luma pixel, as rough models.
#![tactic(auto)]

ghost use Rattle.std.specs.Prelude.{◌≡◌, ◌+◌, ◌*◌, ◌<◌, ◌≤◌, length};
ghost use Rattle.rules.specs.declared.Found.TheVariants.{At};
ghost use Rattle.rules.specs.Forms.{scan_row};
ghost use Rattle.fit_window.specs.Lent.{parts_lent};
ghost use Rattle.assemble_offsets.specs.Sizes.{Formed};
ghost use Rattle.fit_rough.specs.Search.{passed_over, found_put, search_at, Outputs, Searched};

use assemble_offsets::Sizes;
use fit_trial::Settings;
use fit_window::Lent;
use rules::{Found, Model, Trial};
use table::Fitted;

// What is looked for in three lent parts of these sizes. The limit is squared already.
// Kept: (a) outputs are single slices that come first (docs/DECISIONS.md, 26), so their lengths are a clause of each
// function that writes them, and no field.
#[derive(Clone, Copy)]
pub struct Search<'l> {
    pub lent: Lent<'l>,
    pub sizes: Sizes,
    pub settings: Settings,
    pub ghost formed: { Formed sizes },
    pub ghost luma_long: { length lent.luma.own.now ≡ 6 * (sizes.width * sizes.height) },
    pub ghost chroma_long: { length lent.chroma1.own.now ≡ 2 * (sizes.chroma_width * sizes.chroma_height) },
}

// "passed over as (1, 0)", with 0 as the kept byte.
fn pass_over(models: &mut [f32], kept: &mut [u8], at: usize)
    requires model { at * 4 + 4 ≤ length models.old }
    requires byte { at < length kept.old }
    ensures { (models.new, kept.new) ≡ passed_over at (models.old, kept.old) }
{
    table::put_model(models, at, table::UNFITTED);
    kept[at] = 0;
}

impl Search<'_> {
    // A found model with its chroma offsets, and 1 as the kept byte.
    #[tactic(auto, unfolding(crate::specs::Search::found_put, rules::specs::Window::fitted))]
    fn put_found(
        &self,
        models: &mut [f32],
        kept: &mut [u8],
        model: Model,
        trial: Trial,
        x: usize,
        y: usize,
    )
        requires outputs { Outputs self.now.sizes models.old kept.old }
        requires left { x < self.now.sizes.width }
        requires above { y < self.now.sizes.height }
        ensures { (models.new, kept.new)
            ≡ found_put (parts_lent self.now.lent) self.now.sizes (y * self.now.sizes.width + x) (At model trial) (models.old, kept.old) }
    {
        let sizes = self.sizes;
        let ratio = sizes.ratio;
        let spot = plane::place(y / ratio, sizes.chroma_width, x / ratio);
        let offsets = self.lent.offsets_of(trial, model.gain, spot);
        let at = plane::place(y, sizes.width, x);
        let chroma = (offsets.first, offsets.second);
        table::put_model(models, at, Fitted { model, chroma });
        kept[at] = 1;
    }

    // A row: "where nothing is found the pixel is passed over as (1, 0)".
    #[tactic(auto, unfolding(rules::specs::Forms::turns, rules::specs::Forms::scan_row), using(table::proofs::Turns::turns_more))]
    fn row(&self, models: &mut [f32], kept: &mut [u8], y: usize)
        requires outputs { Outputs self.now.sizes models.old kept.old }
        requires above { y < self.now.sizes.height }
        ensures { (models.new, kept.new)
            ≡ scan_row (search_at (parts_lent self.now.lent) self.now.sizes self.now.settings) y self.now.sizes.width (models.old, kept.old) }
    {
        for x in 0..self.sizes.width {
            let at = plane::place(y, self.sizes.width, x);
            let Found::At(model, trial) = self.lent.window(at, self.settings) else {
                pass_over(models, kept, at);
                continue;
            };
            self.put_found(models, kept, model, trial, x, y);
        }
    }

    // The rough models.
    // Kept: (d) a for with one call. A walk that passes share would take the call as a closure, and of what a closure
    // borrows and changes nothing is known after the walk; a trait with an impl for each pass would be longer than its
    // loop.
    #[tactic(auto, unfolding(rules::specs::Forms::turns, rules::specs::Forms::scan), using(table::proofs::Turns::turns_more))]
    pub fn rows(&self, models: &mut [f32], kept: &mut [u8])
        requires { Outputs self.now.sizes models.old kept.old }
        ensures { Searched (parts_lent self.now.lent) self.now.sizes self.now.settings models.new kept.new }
    {
        for y in 0..self.sizes.height {
            self.row(models, kept, y);
        }
    }
}
