// The rows of a frame made between two others, with the layer laid on: row by row, in a row cell by cell.
#![tactic(auto)]

ghost use Rattle.std.specs.Prelude.{◌≡◌, ⊤};
ghost use Rattle.rules.specs.Render.{far as far_of};
ghost use Rattle.motion.specs.Moves.{motion_of};

use layer_lent::{Lent, Seen};
use motion::{Carried, Motion};
use render_pixel::{Frames, Spot};
use rules::{Steps, Taps};
use std::alloc::AllocError;

// A call that is not refused: its frames over their sheet, the motion between them, and what follows from it.
pub struct Job<'f, 'm, L: Lent> {
    pub frames: Frames<'f, L>,
    pub motion: Motion<'m>,
    pub algo: i32,
    pub far: f32,
    pub ghost span: { motion.lattice.ratio ≡ frames.first.sheet.plan.span },
    pub ghost far_is: { far ≡ far_of (motion_of motion.fields motion.lattice.grid) },
}

impl<L: Lent> Copy for Job<'_, '_, L> {}

impl<L: Lent> Clone for Job<'_, '_, L> {
    ghost is_clone = { λ a b. (b.frames.first.sheet ≡ a.frames.first.sheet) × (b.frames.first.raw.now ≡ a.frames.first.raw.now)
        × (b.frames.first.pitch ≡ a.frames.first.pitch) × (b.frames.second.sheet ≡ a.frames.second.sheet)
        × (b.frames.second.raw.now ≡ a.frames.second.raw.now) × (b.frames.second.pitch ≡ a.frames.second.pitch)
        × (b.motion ≡ a.motion) × (b.algo ≡ a.algo) × (b.far ≡ a.far) };

    ghost is_infallible = { λ _. ⊤ };

    fn clone(&self) -> Result<Self, AllocError> {
        let frames = &self.frames;
        Ok(Job {
            frames: Frames {
                first: Seen {
                    sheet: frames.first.sheet,
                    raw: frames.first.raw,
                    pitch: frames.first.pitch,
                },
                second: Seen {
                    sheet: frames.second.sheet,
                    raw: frames.second.raw,
                    pitch: frames.second.pitch,
                },
            },
            motion: self.motion,
            algo: self.algo,
            far: self.far,
        })
    }
}

// What is carried along a row: the count, and the columns of the last pixel's motion.
#[derive(Clone, Copy)]
pub struct Run {
    pub count: usize,
    pub carried: Carried,
}

// The pixels of a row from a column to another, and the grid's rows around it.
#[derive(Clone, Copy)]
struct Piece {
    y: usize,
    down: Taps,
    from: usize,
    to: usize,
}

impl<L: Lent> Job<'_, '_, L> {
    ghost use Rattle.layer_lent.specs.Lent.{Inside};
    ghost use Rattle.layer_cell.specs.Cells.{CellEnd};
    ghost use Rattle.lift_rows.specs.Rows.{RowAsks, RowsAsk};
    ghost use Rattle.render_rows.specs.Jobs.{distance_in, change_in, only, PieceAsks, Holding, PieceHolds, PieceNear, PieceDone, RowIn, RowsIn};

    // Which frame is preferred.
    fn choice(&self) -> i32
        ensures { result ≡ self.now.algo }
    {
        self.algo
    }

    // What is done to a pixel that moves by these steps.
    fn change(&self, steps: Steps, distance: i16, spot: Spot) -> Option<u8>
        requires inside { Inside self.now.frames.first.sheet.plan spot.x spot.y }
        requires distance { distance ≡ distance_in self.now spot.x spot.y }
        ensures { result ≡ change_in self.now steps spot.x spot.y }
    {
        let span = self.frames.first.sheet.plan.span;
        if render_choice::reached(layer_cell::gap(distance), span, steps) {
            let near = layer_cell::near(distance);
            let algo = self.choice();
            Some(self.frames.composed(steps, near, algo, spot))
        } else {
            None
        }
    }

    // One pixel, as a piece of its row.
    fn pixel(&self, output: &mut [u8], run: Run, distance: i16, down: Taps, spot: Spot) -> Run
        requires room { PieceAsks self.now output.old (only down spot) run.count }
        requires holds { PieceHolds self.now (only down spot) run }
        requires near { PieceNear self.now (only down spot) distance }
        ensures { PieceDone self.now (only down spot) run.count output.old output.new result }
    {
        let shape = self.frames.first.sheet.plan.shape;
        let carried = self.motion.carry(down, run.carried, spot.x);
        let steps = render_choice::timed(shape.time, motion::steps_of(carried));
        let change = self.change(steps, distance, spot);
        let k = plane::place(spot.y, shape.output_pitch, spot.x);
        let count = plane::stamp(output, k, change, run.count);
        Run { count, carried }
    }

    // The pixels of a piece, with one stored distance.
    fn run(&self, output: &mut [u8], start: Run, distance: i16, piece: Piece) -> Run
        requires room { PieceAsks self.now output.old piece start.count }
        requires holds { PieceHolds self.now piece start }
        requires near { PieceNear self.now piece distance }
        ensures { PieceDone self.now piece start.count output.old output.new result }
    {
        let mut run = start;
        for x in piece.from..piece.to {
            let spot = Spot { x, y: piece.y };
            run = self.pixel(output, run, distance, piece.down, spot);
        }
        run
    }

    // The pixels of a piece in one cell. A far cell is passed over, and no step is reckoned.
    fn cell(&self, output: &mut [u8], start: Run, piece: Piece) -> Run
        requires room { PieceAsks self.now output.old piece start.count }
        requires holds { PieceHolds self.now piece start }
        requires cell { CellEnd piece.from self.now.frames.first.sheet.plan.side self.now.frames.first.sheet.plan.across piece.to }
        ensures { PieceDone self.now piece start.count output.old output.new result }
    {
        let sheet = self.frames.first.sheet;
        let distance = layer_cell::distance(sheet.plan, sheet.layer, piece.from, piece.y);
        if render_choice::within(layer_cell::gap(distance), self.far) {
            self.run(output, start, distance, piece)
        } else {
            start
        }
    }

    // The cells of a row, one after the other.
    fn cells(&self, output: &mut [u8], down: Taps, start: Run, y: usize) -> usize
        requires room { RowAsks self.now.frames.first.sheet.plan output.old y start.count }
        requires holds { Holding self.now y down start }
        ensures { RowIn self.now y start.count output.old output.new result }
    {
        let plan = self.frames.first.sheet.plan;
        let mut run = start;
        for x in (0..plan.across).step_by(plan.side) {
            let piece = Piece {
                y,
                down,
                from: x,
                to: layer_cell::cell_end(x, plan.side, plan.across),
            };
            run = self.cell(output, run, piece);
        }
        run.count
    }

    // One row: the grid's rows around it are found once.
    fn row(&self, output: &mut [u8], count: usize, y: usize) -> usize
        requires { RowAsks self.now.frames.first.sheet.plan output.old y count }
        ensures { RowIn self.now y count output.old output.new result }
    {
        let motion = self.motion;
        let down = motion.lattice.row_taps(y);
        let across = motion.lattice.column_taps(0);
        let carried = motion.around(down, across);
        let start = Run { count, carried };
        self.cells(output, down, start, y)
    }

    // All rows.
    pub fn rows(&self, output: &mut [u8]) -> usize
        requires { RowsAsk self.now.frames.first.sheet.plan output.old }
        ensures { RowsIn self.now output.old output.new result }
    {
        let mut count = 0;
        for y in 0..self.frames.first.sheet.plan.down {
            count = self.row(output, count, y);
        }
        count
    }
}
