// The pass of hold or apply with its steps as constants, for each of which a loop is compiled apart: a row of a pixel's
// cells is summed without a loop, and with the smallest steps no division is left.
#![tactic(auto)]

ghost use Rattle.still_pass.specs.Pass.{RowsPainted, PlaneIn};
ghost use Rattle.still_rows.specs.Rows.{ruled};

use still_cells::{Fixed, Rows, Steps};
use still_pixel::Work;
use still_rows::Job;

// Both steps are constants where they are 1, 2 or 3 cells across and 1 down, or 1 or 2 across and 2 down.
pub fn pass<W: Work>(output: &mut [u8], job: Job<W, Steps>)
    requires { PlaneIn output.old job.numbers.output_pitch (job.numbers.width, job.numbers.height) }
    ensures { let j = job.entry in RowsPainted (ruled (W.writes j.work) (W.byte j.work) j.mask.now j.numbers j.steps.across j.steps.down)
        j.numbers.output_pitch j.numbers.width j.numbers.height output.old output.new }
{
    let down = job.steps.down;
    match (job.steps.across, down) {
        (1, 1) => job.by(Fixed::<1, 1>).rows(output),
        (2, 1) => job.by(Fixed::<2, 1>).rows(output),
        (3, 1) => job.by(Fixed::<3, 1>).rows(output),
        (1, 2) => job.by(Fixed::<1, 2>).rows(output),
        (2, 2) => job.by(Fixed::<2, 2>).rows(output),
        (1, _) => job.by(Rows::<1> { down }).rows(output),
        (2, _) => job.by(Rows::<2> { down }).rows(output),
        (3, _) => job.by(Rows::<3> { down }).rows(output),
        (4, _) => job.by(Rows::<4> { down }).rows(output),
        (5, _) => job.by(Rows::<5> { down }).rows(output),
        (6, _) => job.by(Rows::<6> { down }).rows(output),
        (7, _) => job.by(Rows::<7> { down }).rows(output),
        _ => job.by(Rows::<8> { down }).rows(output),
    }
}
