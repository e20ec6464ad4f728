// The sums of one plane, with a pair of frames added. How many sums a pixel has is a const parameter: six of luma, two
// of a chroma plane.
#![tactic(auto)]

ghost use Rattle.std.specs.Prelude.{◌≡◌, ◌+◌, ◌*◌, ◌<◌, ◌≤◌, length};
ghost use Rattle.sample.specs.Points.{PlaneFits};

use motion::{Carried, Motion};
use rules::Taps;
use sample::View;
use stats_batch::{Raster, Run};

// What is added to a plane's sums: the pairs before, the plane in both frames, its size, and how it moves.
#[derive(Clone, Copy)]
pub struct Task<'f, 'm, const MANY: usize> {
    pub pairs: usize,
    pub first: View<'f>,
    pub second: View<'f>,
    pub width: usize,
    pub height: usize,
    pub motion: Motion<'m>,
    pub ghost terms: { MANY ≤ 6 },
    pub ghost first_fits: { PlaneFits first.bytes.now first.pitch width height },
    pub ghost second_fits: { PlaneFits second.bytes.now second.pitch width height },
}

impl<const MANY: usize> Task<'_, '_, MANY> {
    ghost use Rattle.stats_gather.specs.Sums.{run_added, row_added, all_added, lane_of, pass_of, Started, RunDone};

    // Adds the terms of a run, from place `place` on: pb and pa are the moved samples.
    #[tactic(auto, unfolding(crate::specs::Sums::run_added, rules::specs::Forms::turns), using(sample::proofs::Bytes::byte_in))]
    fn add_run(&self, sums: &mut [f32], pb: [f32; 32], pa: [f32; 32], run: Run, place: usize)
        requires within { run.x + run.n ≤ self.now.width }
        requires low { run.y < self.now.height }
        requires room { place + MANY * run.n ≤ length sums.old }
        ensures { sums.new ≡ run_added self.now.pairs MANY (lane_of pb pa self.now run) place run.n sums.old }
    {
        let pairs = self.pairs;
        let first = self.first;
        let second = self.second;
        for k in 0..run.n {
            let ib = sample::at(second.bytes, second.pitch, run.x + k, run.y);
            let ia = sample::at(first.bytes, first.pitch, run.x + k, run.y);
            let terms = stats_terms::six_terms(pb[k], pa[k], ib, ia);
            stats_add::add_terms::<MANY>(sums, place + MANY * k, pairs, terms);
        }
    }

    // Adds a run. Gives the columns to carry on.
    fn gather_run(
        &self,
        sums: &mut [f32],
        down: Taps,
        previous: Carried,
        run: Run,
        place: usize,
    ) -> Carried
        requires started { Started (pass_of self.now) down previous run.y }
        requires within { run.x + run.n ≤ self.now.width }
        requires room { place + MANY * run.n ≤ length sums.old }
        ensures { RunDone MANY self.now.pairs (pass_of self.now) down run place sums.old sums.new result }
    {
        let first = Raster {
            view: self.first,
            width: self.width,
            height: self.height,
        };
        let second = Raster {
            view: self.second,
            width: self.width,
            height: self.height,
        };
        let shifts = run.steps(self.motion, down, previous);
        let pb = run.moved(first, shifts.fx, shifts.fy);
        let pa = run.moved(second, shifts.bx, shifts.by);
        self.add_run(sums, pb, pa, run, place);
        shifts.held
    }

    // The pixels of a row, from place `place` on, run by run: neighbours share the columns of their block, which
    // are carried.
    #[tactic(auto, using(crate::proofs::Pixels::room))]
    fn gather_pixels(&self, sums: &mut [f32], down: Taps, start: Carried, place: usize, y: usize)
        requires started { Started (pass_of self.now) down start y }
        requires room { place + MANY * self.now.width ≤ length sums.old }
        ensures { sums.new ≡ row_added self.now.pairs MANY (pass_of self.now) y place self.now.width sums.old }
    {
        let width = self.width;
        let mut held = start;
        for x in (0..width).step_by(32) {
            let n = (width - x).min(32);
            held = self.gather_run(sums, down, held, Run { x, y, n }, place + MANY * x);
        }
    }

    // A row: the grid's rows around it are found once.
    #[tactic(auto, using(motion::proofs::Fields::same_rows))]
    fn gather_row(&self, sums: &mut [f32], y: usize)
        requires low { y < self.now.height }
        requires long { length sums.old ≡ MANY * (self.now.width * self.now.height) }
        ensures { sums.new
            ≡ row_added self.now.pairs MANY (pass_of self.now) y (MANY * (y * self.now.width)) self.now.width sums.old }
    {
        let lattice = self.motion.lattice;
        let down = lattice.row_taps(y);
        let start = self.motion.around(down, lattice.column_taps(0));
        self.gather_pixels(sums, down, start, MANY * (y * self.width), y);
    }

    // Adds a pair of planes to the sums of a plane.
    #[tactic(auto, unfolding(crate::specs::Sums::rows_added, rules::specs::Forms::turns))]
    pub fn gather(&self, sums: &mut [f32])
        requires { length sums.old ≡ MANY * (self.now.width * self.now.height) }
        ensures { sums.new ≡ all_added MANY self.now.pairs (pass_of self.now) sums.old }
    {
        for y in 0..self.height {
            self.gather_row(sums, y);
        }
    }
}
