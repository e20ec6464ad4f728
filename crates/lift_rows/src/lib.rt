// A pass of peel or unpeel over a plane: row by row, and in a row stretch by stretch of near cells.
#![tactic(auto)]

mod stretch;

ghost use Rattle.std.specs.Prelude.{◌<◌};
ghost use Rattle.lift_pixel.specs.Works.{rule_of};
ghost use Rattle.lift_rows.specs.Rows.{PartAsks, Changes, PartDone, RowAsks, RowBy, RowsAsk, RowsBy};

use lift_pixel::{Over, Work};
pub use stretch::{Stretch, Stretches};

// The pixels of a stretch, by what is done to each. Every byte is stored, and counted in 32 bits.
fn run<W: Work, F: Fn(W, usize, usize, u8) -> Option<u8> + Copy>(
    output: &mut [u8],
    stretch: Stretch<W>,
    change: F,
    count: usize,
) -> usize
    requires room { PartAsks (W.plan stretch.over) output.old stretch.y stretch.from stretch.to count }
    requires changes { Changes (rule_of (W.byte stretch.over) (W.plan stretch.over).shape (W.held stretch.over)) stretch.y stretch.from stretch.to
        (F.pre change stretch.over) (F.post change stretch.over) }
    ensures { PartDone (W.byte stretch.over) (W.plan stretch.over) (W.held stretch.over) stretch.y stretch.from stretch.to count output.old output.new result }
{
    let work = stretch.over;
    let pitch = work.sheet().plan.shape.output_pitch;
    let mut more: u32 = 0;
    for x in stretch.from..stretch.to {
        let k = plane::place(stretch.y, pitch, x);
        let byte = change(work, x, stretch.y, output[k]);
        more = lift_straight::mark(output, k, byte, more);
    }
    count + more as usize
}

// A work over a stretch, in the way that is fast for it and its plane.
// Kept: (d) `lift_count` chooses by the same two tests what reads a pixel. One choice for both would take the step that
// follows as a trait's method, generic over the reader, in place of two lines.
fn near_run<W: Work>(output: &mut [u8], stretch: Stretch<W>, count: usize) -> usize
    requires { PartAsks (W.plan stretch.over) output.old stretch.y stretch.from stretch.to count }
    ensures { PartDone (W.byte stretch.over) (W.plan stretch.over) (W.held stretch.over) stretch.y stretch.from stretch.to count output.old output.new result }
{
    let plan = stretch.over.sheet().plan;
    if W::STRAIGHT && plan.shape.plane == 0 {
        run(output, stretch, lift_pixel::straight::<W, true, 1>, count)
    } else if W::STRAIGHT && plan.span == 2 {
        run(output, stretch, lift_pixel::straight::<W, false, 2>, count)
    } else {
        run(output, stretch, lift_pixel::change::<W>, count)
    }
}

// One row: far cells are passed over.
fn row<W: Work>(output: &mut [u8], work: W, y: usize, count: usize) -> usize
    requires { RowAsks (W.plan work) output.old y count }
    ensures { RowBy (W.byte work) (W.plan work) (W.held work) y count output.old output.new result }
{
    let mut counted = count;
    for stretch in Stretches::of(work, y) {
        counted = near_run(output, stretch, counted);
    }
    counted
}

// All rows.
pub fn rows<W: Work>(output: &mut [u8], work: W) -> usize
    requires { RowsAsk (W.plan work) output.old }
    ensures { RowsBy (W.byte work) (W.plan work) (W.held work) output.old output.new result }
{
    let mut count = 0;
    for y in 0..work.sheet().plan.down {
        count = row(output, work, y, count);
    }
    count
}
