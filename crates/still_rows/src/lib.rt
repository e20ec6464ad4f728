// A pass of hold or apply over a plane, row by row. For each work, and for steps that are constants, a loop is compiled
// apart.
#![tactic(auto)]

ghost use Rattle.std.specs.Prelude.{◌≡◌, ◌+◌, ◌-◌, ◌*◌, ◌≤◌, ◌<◌};
ghost use Rattle.still_pass.specs.Pass.{RowPainted, RowsPainted, PlaneIn};
ghost use Rattle.still_cells.specs.Cells.{PlaneCells};
ghost use Rattle.still_rows.specs.Rows.{ruled};

use still_cells::{Cells, Numbers};
use still_pixel::{Weight, Work};

// What is done with a plane: a work, by a mask and the steps from pixels to its cells.
// Kept: (a) outputs are single slices that come first (docs/DECISIONS.md, 26), so what is asked of one is a clause of
// each function that writes it, and no field.
#[derive(Drop)]
pub struct Job<'m, W: Work, C: Cells> {
    pub work: W,
    pub mask: &'m [u8],
    pub numbers: Numbers,
    pub steps: C,
    pub ghost cells: { PlaneCells mask.now numbers.mask_width (C.across steps) (C.down steps) (numbers.width, numbers.height) },
    pub ghost apart: { numbers.pitch ≤ 65536 },
    pub ghost frames: { (numbers.height - 1) * numbers.pitch + numbers.width ≤ W.places work },
}

impl<'m, W: Work, C: Cells> Job<'m, W, C> {
    // The same, with steps that are constants of the same value.
    pub fn by<D: Cells>(&self, steps: D) -> Job<'m, W, D>
        requires across { D.across steps ≡ C.across self.now.steps }
        requires down { D.down steps ≡ C.down self.now.steps }
        ensures work { result.work ≡ self.now.work }
        ensures mask { result.mask.now ≡ self.now.mask.now }
        ensures numbers { result.numbers ≡ self.now.numbers }
        ensures steps { result.steps ≡ steps }
    {
        Job {
            work: self.work,
            mask: self.mask,
            numbers: self.numbers,
            steps,
        }
    }

    // One row.
    #[tactic(auto, using(still_pass::proofs::Pass::row_none, still_pass::proofs::Pass::row_more, crate::proofs::Pixels::ruled_put))]
    fn row(&self, output: &mut [u8], y: usize)
        requires room { PlaneIn output.old self.now.numbers.output_pitch (self.now.numbers.width, self.now.numbers.height) }
        requires row { y < self.now.numbers.height }
        ensures { let s = self.now in RowPainted (ruled (W.writes s.work) (W.byte s.work) s.mask.now s.numbers (C.across s.steps) (C.down s.steps))
            s.numbers.output_pitch y s.numbers.width output.old output.new }
    {
        let numbers = self.numbers;
        let cells = still_cells::cell_count(self.steps);
        for x in 0..numbers.width {
            let k = plane::place(y, numbers.output_pitch, x);
            let from = plane::place(y, numbers.pitch, x);
            let sum = still_cells::byte_sum(self.mask, numbers.mask_width, self.steps, x, y);
            let weight = Weight { sum, cells };
            output[k] = self.work.pixel(from, output[k], weight, C::SKIPS);
        }
    }

    // The rows, one after the other. Each work and each steps have a function of their own, in which all pointers have
    // registers.
    // Kept: (d) a for with one call. A walk that passes share would take the call as a closure, and of what a closure
    // borrows and changes nothing is known after the walk; a trait with an impl for each pass would be longer than its
    // loop.
    #[inline(never)]
    #[tactic(auto, using(still_pass::proofs::Pass::rows_none))]
    pub fn rows(self, output: &mut [u8])
        requires { PlaneIn output.old self.numbers.output_pitch (self.numbers.width, self.numbers.height) }
        ensures { let s = self.entry in RowsPainted (ruled (W.writes s.work) (W.byte s.work) s.mask.now s.numbers (C.across s.steps) (C.down s.steps))
            s.numbers.output_pitch s.numbers.width s.numbers.height output.old output.new }
    {
        for y in 0..self.numbers.height {
            self.row(output, y);
        }
    }
}
