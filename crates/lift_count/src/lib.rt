// Which pixels of a plane peel and unpeel write, and how many, by the layer alone: no byte plane is read.
#![tactic(auto)]

ghost use Rattle.std.specs.Prelude.{◌≡◌, ◌<◌, ◌+◌, ◌-◌, ◌^◌};
ghost use Rattle.rules.specs.Peel.{layered};
ghost use Rattle.layer_lent.specs.Lent.{lay, Inside};
ghost use Rattle.lift_count.specs.Counts.{Reads, PartCounted, RowCounted, Counts};

use layer_lent::{Lent, Sheet};
use lift_rows::{Stretch, Stretches};
use rules::Model;

// Whether a pixel is written.
pub fn writes<L: Lent>(sheet: Sheet<L>, x: usize, y: usize) -> bool
    requires { Inside sheet.plan x y }
    ensures { result ≡ layered (lay sheet.plan.shape (L.held sheet.layer)) sheet.plan.shape.plane x y }
{
    let near = layer_cell::near(layer_cell::distance(sheet.plan, sheet.layer, x, y));
    let model = layer_texel::texel(sheet, x, y);
    near & !fit_model::plain(model)
}

// How many of a stretch, with those before it. What reads the model of a pixel is given; a stretch is counted in 32
// bits, as wide as a float.
fn run<L: Lent, F: Fn(usize) -> Model + Copy>(
    stretch: Stretch<Sheet<L>>,
    read: F,
    count: usize,
) -> usize
    requires few { count + (stretch.to - stretch.from) < 2 ^ 63 }
    requires reads { Reads stretch.over.plan (L.held stretch.over.layer) stretch.y stretch.from stretch.to (F.pre read) (F.post read) }
    ensures { PartCounted stretch.over.plan (L.held stretch.over.layer) stretch.y stretch.from stretch.to count result }
{
    let mut more: u32 = 0;
    for x in stretch.from..stretch.to {
        let model = read(x);
        more += u32::from(!fit_model::plain(model));
    }
    count + more as usize
}

// By the reader that is fast for its plane.
// Kept: (d) `lift_rows` chooses by the same two tests what is done to a pixel; there it is said why each has its own.
fn near_run<L: Lent>(stretch: Stretch<Sheet<L>>, count: usize) -> usize
    requires { count + (stretch.to - stretch.from) < 2 ^ 63 }
    ensures { PartCounted stretch.over.plan (L.held stretch.over.layer) stretch.y stretch.from stretch.to count result }
{
    let sheet = stretch.over;
    let y = stretch.y;
    if sheet.plan.shape.plane == 0 {
        let luma = |x| layer_texel::straight::<L, true, 1>(sheet, x, y);
        run(stretch, luma, count)
    } else if sheet.plan.span == 2 {
        let straight = |x| layer_texel::straight::<L, false, 2>(sheet, x, y);
        run(stretch, straight, count)
    } else {
        run(stretch, |x| layer_texel::texel(sheet, x, y), count)
    }
}

// How many of a row, with those before it: far cells are passed over.
fn row<L: Lent>(sheet: Sheet<L>, y: usize, count: usize) -> usize
    requires above { y < sheet.plan.down }
    requires few { count + 4096 < 2 ^ 63 }
    ensures { RowCounted (lay sheet.plan.shape (L.held sheet.layer)) sheet.plan.shape.plane y sheet.plan.across count result }
{
    let mut counted = count;
    for stretch in Stretches::of(sheet, y) {
        counted = near_run(stretch, counted);
    }
    counted
}

// How many of the plane.
pub fn count<L: Lent>(sheet: Sheet<L>) -> usize
    ensures { Counts (lay sheet.plan.shape (L.held sheet.layer)) sheet.plan.shape.plane result }
{
    let mut n = 0;
    for y in 0..sheet.plan.down {
        n = row(sheet, y, n);
    }
    n
}
