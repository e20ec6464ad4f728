// The keeping pass: which of the found models stay, and which cells they mark.
#![tactic(auto)]

ghost use Rattle.std.specs.Prelude.{◌≡◌, ◌*◌, ◌<◌, ◌≤◌, length};
ghost use Rattle.rules.specs.Forms.{turns, scan_row, scan};
ghost use Rattle.rules.specs.Assembly.{model_slice};
ghost use Rattle.fit_keep.specs.Pass.{marked, step_at, reset_step, Work, Sound, Flagged, Kept};

use fit_near::{Pixel, Rough, Verdict};

// What a verdict does to the kept byte of pixel `at` and to its cell.
// Kept: (a) the kept byte is one of the work slices of the C interface: 0 nothing was found, 1 it is kept, 2 it is not.
fn mark(kept: &mut [u8], cover: &mut [u8], at: usize, cell: usize, verdict: Verdict)
    requires pixel { at < length kept.old }
    requires cell { cell < length cover.old }
    ensures { (kept.new, cover.new) ≡ marked verdict at cell (kept.old, cover.old) }
{
    match verdict {
        Verdict::Marked => {
            kept[at] = 1;
            cover[cell] = 0;
        }
        Verdict::Unmarked => {
            kept[at] = 1;
        }
        Verdict::Dropped => {
            kept[at] = 2;
        }
    }
}

// A pixel: nothing where nothing was found.
// Kept: (a) outputs are single slices that come first (docs/DECISIONS.md, 26), so what is asked of them is a clause of
// each function that writes them, and no field.
fn keep_pixel(kept: &mut [u8], cover: &mut [u8], pixel: Pixel)
    requires { Work kept.old cover.old pixel.rough.width pixel.rough.height }
    ensures { let r = pixel.entry.rough in (kept.new, cover.new)
        ≡ step_at (model_slice r.models.now (r.width * r.height)) (r.width, r.height) pixel.entry.x pixel.entry.y (kept.old, cover.old) }
{
    let width = pixel.rough.width;
    let at = plane::place(pixel.y, width, pixel.x);
    if kept[at] == 0 {
        return;
    }
    let cell = plane::place(
        layer_lookup::cell_of(pixel.y, 8),
        table::cells(width),
        layer_lookup::cell_of(pixel.x, 8),
    );
    mark(kept, cover, at, cell, pixel.verdict());
}

// A row.
#[tactic(auto, unfolding(rules::specs::Forms::turns, rules::specs::Forms::scan_row), using(table::proofs::Turns::turns_more))]
fn keep_row(kept: &mut [u8], cover: &mut [u8], rough: Rough, y: usize)
    requires work { Work kept.old cover.old rough.width rough.height }
    requires above { y < rough.height }
    ensures { let r = rough.entry in (kept.new, cover.new)
        ≡ scan_row (step_at (model_slice r.models.now (r.width * r.height)) (r.width, r.height)) y r.width (kept.old, cover.old) }
{
    for x in 0..rough.width {
        keep_pixel(kept, cover, Pixel { rough, x, y });
    }
}

// The rows, one after the other.
// Kept: (d) a for with one call. A walk that passes share would take the call as a closure, and of what a closure
// borrows and changes nothing is known after the walk; a trait with an impl for each pass would be longer than its
// loop.
#[tactic(auto, unfolding(rules::specs::Forms::turns, rules::specs::Forms::scan), using(table::proofs::Turns::turns_more))]
fn keep_rows(kept: &mut [u8], cover: &mut [u8], rough: Rough)
    requires { Work kept.old cover.old rough.width rough.height }
    ensures { let r = rough.entry in (kept.new, cover.new)
        ≡ scan (step_at (model_slice r.models.now (r.width * r.height)) (r.width, r.height)) (r.width, r.height) (kept.old, cover.old) }
{
    for y in 0..rough.height {
        keep_row(kept, cover, rough, y);
    }
}

// The models that are not kept become (1, 0).
fn reset(models: &mut [f32], kept: &[u8])
    requires { 4 * length kept.now ≤ length models.old }
    ensures { models.new ≡ turns (reset_step kept.now) (length kept.now) models.old }
{
    for (at, byte) in kept.iter().enumerate() {
        if *byte == 2 {
            table::put_model(models, at, table::UNFITTED);
        }
    }
}

// The pass: a kept byte of 0 says that nothing was found at its pixel.
pub fn keep(models: &mut [f32], kept: &mut [u8], cover: &mut [u8], width: usize, height: usize)
    requires sound { Sound models.old kept.old cover.old width height }
    requires flagged { Flagged models.old kept.old }
    ensures { Kept (model_slice models.old (width * height)) (width, height) models.new cover.new }
{
    cover.fill(255);
    let rough = Rough {
        models,
        width,
        height,
    };
    keep_rows(kept, cover, rough);
    reset(models, kept);
}
