// Up to 32 pixels of a row at once. Each step is a loop of its own over arrays, so that those without a
// branch are compiled four pixels wide.
#![tactic(auto)]

ghost use Rattle.std.specs.Prelude.{◌+◌, ◌*◌, ◌<◌, ◌≤◌, ℕ, get_or};
ghost use Rattle.std.specs.Float.{nan};
ghost use Rattle.rules.specs.Float.{float, cut, ◌⊕◌};
ghost use Rattle.rules.specs.Reading.{sample as sample_of, held_to};
ghost use Rattle.sample.specs.Points.{plane_by, PlaneFits};
ghost use Rattle.motion.specs.Moves.{motion_of, laid_out, place_of, Rows, Holds};
ghost use Rattle.stats_terms.specs.Terms.{moved_of};
ghost use Rattle.stats_batch.specs.Lanes.{Lanes, Wholes, Inside, Shifted};

use motion::{Carried, Lattice, Motion};
use rules::Taps;
use sample::View;

// A byte plane of this size.
#[derive(Clone, Copy)]
pub struct Raster<'p> {
    pub view: View<'p>,
    pub width: usize,
    pub height: usize,
    pub ghost fits: { PlaneFits view.bytes.now view.pitch width height },
}

// Pixels of a row: the first of them, and how many they are.
#[derive(Clone, Copy)]
pub struct Run {
    pub x: usize,
    pub y: usize,
    pub n: usize,
    pub ghost few: { n ≤ 32 },
    pub ghost near: { x + n ≤ 4096 },
}

// How far each pixel moves, by the four fields, and the columns to carry on.
// Kept: (d) an array for each field: a pass over a frame is lent its two, and does not ask which frame's they are. From
// an array of steps it would be handed a closure that picks its numbers, or a copy of them.
#[derive(Clone, Copy)]
pub struct Shifts {
    pub fx: [f32; 32],
    pub fy: [f32; 32],
    pub bx: [f32; 32],
    pub by: [f32; 32],
    pub held: Carried,
}

impl Run {
    // One value for each pixel, and `none` after them.
    fn lanes<T: Copy + Drop, F: Fn(usize) -> T>(self, none: T, f: F) -> [T; 32]
        requires { (k : ℕ) → k < self.n → F.pre f k }
        ensures { (k : ℕ) (other : T) → k < self.n → F.post f k (get_or result k other) }
    {
        let mut out = [none; 32];
        for k in 0..self.n {
            out[k] = f(k);
        }
        out
    }

    // The places in the grid of the pixels' columns.
    fn places(self, lattice: Lattice) -> [f32; 32]
        ensures are { Lanes self.n nan (λ k. held_to (place_of (laid_out lattice.grid) lattice.ratio (self.x + k)) lattice.grid.width) result }
        ensures inside { Inside self.n lattice.grid.width result }
    {
        self.lanes(0.0, |k| lattice.column_place(self.x + k))
    }

    // The whole number below each point.
    fn wholes(self, points: [f32; 32]) -> [u32; 32]
        requires { Inside self.n 4097 points }
        ensures { Wholes self.n points result }
    {
        self.lanes(0, |k| sample::whole(points[k]))
    }

    // A plane at points of it, whose whole parts are known.
    fn sampled(
        self,
        raster: Raster,
        u: [f32; 32],
        columns: [u32; 32],
        v: [f32; 32],
        rows: [u32; 32],
    ) -> [f32; 32]
        requires across { Inside self.n raster.width u }
        requires down { Inside self.n raster.height v }
        requires columns { Wholes self.n u columns }
        requires rows { Wholes self.n v rows }
        ensures { let r = raster.entry in
            Lanes self.n nan (λ k. sample_of (plane_by r.view) (get_or u k nan) (get_or v k nan) (r.width, r.height)) result }
    {
        let Raster {
            view,
            width,
            height,
        } = raster;
        self.lanes(0.0, |k| {
            let across = sample::taps_at(u[k], columns[k] as usize, width);
            let down = sample::taps_at(v[k], rows[k] as usize, height);
            sample::sample_at(view.bytes, view.pitch, across, down, width, height)
        })
    }

    // A plane at the pixels, each of which moves.
    pub fn moved(self, raster: Raster, dx: [f32; 32], dy: [f32; 32]) -> [f32; 32]
        requires across { self.x + self.n ≤ raster.width }
        requires low { self.y < raster.height }
        ensures { let r = raster.entry in
            Lanes self.n nan (λ k. moved_of (plane_by r.view) (self.x + k) self.y (get_or dx k nan) (get_or dy k nan) (r.width, r.height)) result }
    {
        let Raster { width, height, .. } = raster;
        let u = self.lanes(0.0, |k| sample::shifted(self.x + k, dx[k], width));
        let v = self.lanes(0.0, |k| sample::shifted(self.y, dy[k], height));
        self.sampled(raster, u, self.wholes(u), v, self.wholes(v))
    }

    // How far the pixels move: neighbours share the columns of their block.
    pub fn steps(self, motion: Motion, down: Taps, start: Carried) -> Shifts
        requires rows { Rows motion.lattice.grid.height down }
        requires holds { Holds (motion_of motion.fields motion.lattice.grid) motion.lattice.ratio down start }
        ensures { let lattice = motion.entry.lattice in
            Shifted (motion_of motion.entry.fields lattice.grid) lattice.ratio down self.x self.n result }
    {
        let lattice = motion.lattice;
        let points = self.places(lattice);
        let first = self.wholes(points);
        let mut held = start;
        let mut fx = [0.0; 32];
        let mut fy = [0.0; 32];
        let mut bx = [0.0; 32];
        let mut by = [0.0; 32];
        for k in 0..self.n {
            let across = sample::taps_at(points[k], first[k] as usize, lattice.grid.width);
            held = motion.carry_to(down, held, across);
            let shift = motion::steps_of(held);
            fx[k] = shift.fx;
            fy[k] = shift.fy;
            bx[k] = shift.bx;
            by[k] = shift.by;
        }
        Shifts {
            fx,
            fy,
            bx,
            by,
            held,
        }
    }
}
