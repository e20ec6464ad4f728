// Motion between two frames: the entries of its grid around a pixel, and how far the pixel moves.
#![tactic(auto)]

ghost use Rattle.std.specs.Prelude.{◌≡◌, ◌<◌, ◌≤◌, nat_abs};
ghost use Rattle.rules.specs.Literals.{1·0};
ghost use Rattle.rules.specs.Float.{signed, float, ◌⊗◌, ◌⊘◌};
ghost use Rattle.rules.specs.Motion.{taps as taps_of, row_taps, column_taps};
ghost use Rattle.sample.specs.Points.{Held, Within};
ghost use Rattle.motion.specs.Moves.{motion_of, laid_out, place_of, Covers, Laid, Moves, Rows, entry_of, column_at, columns_of, Holds, Carries, mixed_steps};

use rules::{Steps, Taps};

// What a motion's fields are laid out by: a grid of blocks, its origin, and steps in pel parts of a
// pixel.
#[derive(Clone, Copy)]
pub struct Grid {
    pub width: usize,
    pub height: usize,
    pub block_width: i32,
    pub block_height: i32,
    pub origin_x: i32,
    pub origin_y: i32,
    pub pel: i32,
}

// Where a plane's pixels lie in a grid: the grid, and the plane's ratio.
#[derive(Clone, Copy)]
pub struct Lattice {
    pub grid: Grid,
    pub ratio: usize,
    pub ghost laid: { Laid grid ratio },
}

// The motion between two frames, as it moves a plane: its four fields, and where the plane's pixels lie in them.
#[derive(Clone, Copy)]
pub struct Motion<'m> {
    pub fields: [&'m [u16]; 4],
    pub lattice: Lattice,
    pub ghost moves: { Moves fields lattice.grid lattice.ratio },
}

// The columns of the four fields around a pixel, and the share of the right ones. A block's pixels
// share them, so that a row's loop carries them along.
#[derive(Clone, Copy)]
pub struct Carried {
    pub first: usize,
    pub share: f32,
    pub left: Steps,
    pub right: Steps,
}

// A motion number as a float.
pub fn of_int(number: i32) -> f32
    requires { nat_abs number ≤ 4096 }
    ensures { result ≡ signed number }
{
    number as f32
}

// The two entries of a side around a place, which is held to the entries' middles.
#[tactic(auto, unfolding(rules::specs::Motion::taps))]
pub fn taps(place: f32, size: usize) -> Taps
    requires some { 1 ≤ size }
    requires few { size ≤ 4096 }
    ensures { Within (taps_of place size) size result }
{
    let point = sample::held(place - 0.5, size);
    sample::between(point, size)
}

// One pixel of the plane in a field's steps.
fn scale(ratio: usize, pel: i32) -> f32
    requires few { ratio ≤ 4 }
    requires parts { nat_abs pel ≤ 4096 }
    ensures { result ≡ 1·0 ⊘ (float ratio ⊗ signed pel) }
{
    1.0 / (float::of_size(ratio) * of_int(pel))
}

// A number of a field as a float.
fn entry(field: &[u16], width: usize, height: usize, x: usize, y: usize) -> f32
    requires covers { Covers (width, height) field.now }
    requires wide { width ≤ 4096 }
    requires tall { height ≤ 4096 }
    requires across { x < width }
    requires down { y < height }
    ensures { result ≡ entry_of width field.now x y }
{
    let k = plane::place(y, width, x);
    field[k] as f32
}

// A column of a field, between two rows.
#[tactic(auto, unfolding(crate::specs::Moves::column_at))]
fn column(field: &[u16], width: usize, height: usize, scale: f32, down: Taps, x: usize) -> f32
    requires covers { Covers (width, height) field.now }
    requires wide { width ≤ 4096 }
    requires tall { height ≤ 4096 }
    requires across { x < width }
    requires rows { Rows height down }
    ensures { result ≡ column_at width scale field.now down x }
{
    let above = entry(field, width, height, x, down.first);
    let below = entry(field, width, height, x, down.second);
    (float::mix(above, below, down.share) - 1024.0) * scale
}

impl Lattice {
    // The two rows of the grid around a pixel row.
    #[tactic(auto, unfolding(rules::specs::Motion::row_taps))]
    pub fn row_taps(self, y: usize) -> Taps
        requires { y ≤ 4096 }
        ensures { Within (row_taps (laid_out self.grid) self.ratio y) self.grid.height result }
    {
        let grid = self.grid;
        let at = float::of_size(y * self.ratio) - of_int(grid.origin_y);
        taps(at / of_int(grid.block_height), grid.height)
    }

    // A pixel column's place in the grid, held to the entries' middles.
    // Kept: (d) a column up to 4096 is asked here and below: a caller has it from its plane's width, and a value for
    // each column would say no more.
    pub fn column_place(self, x: usize) -> f32
        requires { x ≤ 4096 }
        ensures { Held (place_of (laid_out self.grid) self.ratio x) self.grid.width result }
    {
        let grid = self.grid;
        let at = float::of_size(x) * float::of_size(self.ratio) - of_int(grid.origin_x);
        sample::held(at / of_int(grid.block_width) - 0.5, grid.width)
    }

    // The two columns of the grid around a pixel column.
    #[tactic(auto, unfolding(rules::specs::Motion::column_taps, rules::specs::Motion::taps))]
    pub fn column_taps(self, x: usize) -> Taps
        requires { x ≤ 4096 }
        ensures { Within (column_taps (laid_out self.grid) self.ratio x) self.grid.width result }
    {
        sample::between(self.column_place(x), self.grid.width)
    }
}

impl Motion<'_> {
    // The column of each field: the first frame takes the backward ones.
    // Kept: (d) that the rows lie in the grid is asked here and below, as of an index: they are found once for a row,
    // and a value for them would borrow the grid besides.
    #[inline(always)]
    #[tactic(auto, unfolding(crate::specs::Moves::column_at, crate::specs::Moves::columns_of, rules::specs::Motion::column))]
    fn columns(self, down: Taps, x: usize) -> Steps
        requires rows { Rows self.lattice.grid.height down }
        requires within { x < self.lattice.grid.width }
        ensures { let lattice = self.entry.lattice in
            result ≡ columns_of (motion_of self.entry.fields lattice.grid) lattice.ratio down x }
    {
        let [forward_x, forward_y, backward_x, backward_y] = self.fields;
        let Lattice { grid, ratio } = self.lattice;
        let scale = scale(ratio, grid.pel);
        Steps {
            fx: column(backward_x, grid.width, grid.height, scale, down, x),
            fy: column(backward_y, grid.width, grid.height, scale, down, x),
            bx: column(forward_x, grid.width, grid.height, scale, down, x),
            by: column(forward_y, grid.width, grid.height, scale, down, x),
        }
    }

    // The columns around a pixel, read anew.
    #[inline(always)]
    pub fn around(self, down: Taps, across: Taps) -> Carried
        requires rows { Rows self.lattice.grid.height down }
        requires within { across.first < self.lattice.grid.width }
        ensures { let lattice = self.entry.lattice in
            Carries (motion_of self.entry.fields lattice.grid) lattice.ratio down across result }
    {
        let after = plane::after(across.first, self.lattice.grid.width);
        Carried {
            first: across.first,
            share: across.share,
            left: self.columns(down, across.first),
            right: self.columns(down, after),
        }
    }

    // The columns around a pixel between two: those of the pixel before it, where they are the same.
    pub fn carry_to(self, down: Taps, previous: Carried, across: Taps) -> Carried
        requires rows { Rows self.lattice.grid.height down }
        requires holds { Holds (motion_of self.fields self.lattice.grid) self.lattice.ratio down previous }
        requires within { across.first < self.lattice.grid.width }
        ensures { let lattice = self.entry.lattice in
            Carries (motion_of self.entry.fields lattice.grid) lattice.ratio down across result }
    {
        if across.first == previous.first {
            return Carried {
                share: across.share,
                ..previous
            };
        }
        self.around(down, across)
    }

    // The same of pixel column x.
    #[tactic(auto, using(crate::proofs::Fields::same_columns))]
    pub fn carry(self, down: Taps, previous: Carried, x: usize) -> Carried
        requires rows { Rows self.lattice.grid.height down }
        requires holds { Holds (motion_of self.fields self.lattice.grid) self.lattice.ratio down previous }
        requires near { x ≤ 4096 }
        ensures { let lattice = self.entry.lattice in
            let m = motion_of self.entry.fields lattice.grid in
            Carries m lattice.ratio down (column_taps m lattice.ratio x) result }
    {
        self.carry_to(down, previous, self.lattice.column_taps(x))
    }
}

// How far a pixel moves: its columns, mixed.
pub fn steps_of(carried: Carried) -> Steps
    ensures { result ≡ mixed_steps carried }
{
    let Carried {
        left,
        right,
        share,
        ..
    } = carried;
    Steps {
        fx: float::mix(left.fx, right.fx, share),
        fy: float::mix(left.fy, right.fy, share),
        bx: float::mix(left.bx, right.bx, share),
        by: float::mix(left.by, right.by, share),
    }
}
