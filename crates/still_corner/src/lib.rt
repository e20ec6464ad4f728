// Which pixels have a full corner: the second pass of mask, in the bytes of the first. A byte's lowest bit stays, and
// the answer becomes the bit above it.
#![tactic(auto)]

ghost use Rattle.std.specs.Prelude.{◌≡◌, Bool, ◌&&◌, ℕ, ◌+◌, ◌-◌, ◌*◌, ◌%◌, ◌≤◌, ◌<◌, eqb};
ghost use Rattle.still_pass.specs.Pass.{PlaneIn};
ghost use Rattle.still_corner.specs.Corner.{is_odd, column_of, mark_of, Holds, RowMarked, RowsMarked, ColumnIn};

// The pixels of a column in three rows: whether each is the same.
#[derive(Clone, Copy)]
pub struct Column {
    pub above: bool,
    pub here: bool,
    pub below: bool,
}

// The lowest bit.
fn odd(b: u8) -> bool
    ensures { result ≡ eqb (b % 2) 1 }
{
    b % 2 == 1
}

// Column x of the rows above, y and below.
fn column_at(still: &[u8], width: usize, x: usize, above: usize, y: usize, below: usize) -> Column
    requires { ColumnIn still.now width x above y below }
    ensures { result ≡ column_of (is_odd still.now width) x above y below }
{
    let a = odd(still[plane::place(above, width, x)]);
    let b = odd(still[plane::place(y, width, x)]);
    let c = odd(still[plane::place(below, width, x)]);
    Column {
        above: a,
        here: b,
        below: c,
    }
}

// Four pixels that meet at a corner.
fn full(a: bool, b: bool, c: bool, d: bool) -> bool
    ensures { result ≡ (a && b && c && d) }
{
    a & b & c & d
}

// The two bits of a pixel, by its column and those beside it.
#[tactic(auto, unfolding(crate::specs::Corner::mark_of))]
fn mark(left: Column, mid: Column, right: Column) -> u8
    ensures { result ≡ mark_of left mid right }
{
    let a = full(left.above, mid.above, left.here, mid.here);
    let b = full(mid.above, right.above, mid.here, right.here);
    let c = full(left.here, mid.here, left.below, mid.below);
    let d = full(mid.here, right.here, mid.below, right.below);
    let still = a | b | c | d;
    u8::from(mid.here) + 2 * u8::from(still)
}

// One row. A column goes from right to middle to left, so that each is read once.
fn mark_row(still: &mut [u8], width: usize, height: usize, y: usize)
    requires room { PlaneIn still.old width (width, height) }
    requires some { 1 ≤ width }
    requires row { y < height }
    ensures { (same : ℕ → ℕ → Bool) → Holds same (width, height) still.old → RowMarked same (width, height) y width still.old still.new }
{
    let above = y.saturating_sub(1);
    let below = plane::after(y, height);
    let last = width - 1;
    let mut mid = column_at(still, width, 0, above, y, below);
    let mut left = mid;
    for x in 0..last {
        let right = column_at(still, width, x + 1, above, y, below);
        let k = plane::place(y, width, x);
        still[k] = mark(left, mid, right);
        left = mid;
        mid = right;
    }
    let k = plane::place(y, width, last);
    still[k] = mark(left, mid, mid);
}

// The rows, one after the other.
// Kept: (d) a for with one call. A walk that passes share would take the call as a closure, and of what a closure
// borrows and changes nothing is known after the walk; a trait with an impl for each pass would be longer than its
// loop.
pub fn mark_rows(still: &mut [u8], width: usize, height: usize)
    requires room { PlaneIn still.old width (width, height) }
    requires some { 1 ≤ width }
    ensures { (same : ℕ → ℕ → Bool) → Holds same (width, height) still.old → RowsMarked same (width, height) height still.old still.new }
{
    for y in 0..height {
        mark_row(still, width, height, y);
    }
}
