// The near cells of a row that touch, as stretches of its pixels.
ghost use Rattle.std.specs.Prelude.{◌≡◌, ◌-◌, ◌<◌, ◌≤◌, ⊤, MatchOption};
ghost use Rattle.std.specs.Iterator.{at_most};
ghost use Rattle.layer_lent.specs.Lent.{lay};
ghost use Rattle.layer_lookup.specs.Side.{IsSide};
ghost use Rattle.layer_cell.specs.Cells.{CellInside};
ghost use Rattle.lift_rows.specs.Stretches.{near_cell, cells_of, column, First, Part, Near, Far, Goes};

use layer_lent::{Lent, Plan, Sheet};
use lift_pixel::Over;
use std::alloc::AllocError;

// The pixels of a row from a column to another, all in near cells of a sheet.
pub struct Stretch<W: Over> {
    pub over: W,
    pub y: usize,
    pub from: usize,
    pub to: usize,
    pub ghost part: { Part (W.plan over) y from to },
    pub ghost near: { Near (lay (W.plan over).shape (W.held over)) (W.plan over).shape.plane y from to },
}

impl<W: Over> Copy for Stretch<W> {}

impl<W: Over> Clone for Stretch<W> {
    ghost is_clone = { λ a b. b ≡ a };

    ghost is_infallible = { λ _. ⊤ };

    fn clone(&self) -> Result<Self, AllocError> {
        Ok(*self)
    }
}

// The stretches of a row from left to right: those that begin at this column of cells or after it.
#[derive(Drop)]
pub struct Stretches<W: Over> {
    pub over: W,
    pub y: usize,
    pub cell: usize,
    pub ghost above: { y < (W.plan over).down },
}

impl<W: Over> Stretches<W> {
    // All of a row.
    pub fn of(over: W, y: usize) -> Self
        requires { y < (W.plan over).down }
        ensures over { result.over ≡ over }
        ensures y { result.y ≡ y }
        ensures cell { result.cell ≡ 0 }
    {
        Stretches { over, y, cell: 0 }
    }
}

// How many columns of cells a row has.
fn cells(plan: Plan) -> usize
    requires side { IsSide plan.side }
    requires some { 1 ≤ plan.across }
    requires few { plan.across ≤ 4096 }
    ensures { result ≡ cells_of plan }
{
    layer_lookup::cell_of(plan.across - 1, plan.side) + 1
}

// Whether a cell is near.
fn nearby<L: Lent>(sheet: Sheet<L>, x: usize, row: usize) -> bool
    requires { CellInside sheet.plan x row }
    ensures { result ≡ near_cell (lay sheet.plan.shape (L.held sheet.layer)) x row }
{
    layer_cell::near(layer_cell::number(sheet.plan, sheet.layer, x, row))
}

// The first column of cells, from one on, whose cell in this row of cells is near, or is far.
// Kept: (d) `near` is what each cell is compared with, and no step hangs on it; two functions would differ in a `!`.
fn seek<L: Lent>(sheet: Sheet<L>, row: usize, from: usize, near: bool) -> Option<usize>
    requires { row < sheet.plan.rows }
    ensures { First (lay sheet.plan.shape (L.held sheet.layer)) row near from (cells_of sheet.plan) result }
{
    (from..cells(sheet.plan)).find(|x| nearby(sheet, *x, row) == near)
}

impl<W: Over> Iterator for Stretches<W> {
    type Item = Stretch<W>;

    ghost next_gives = { λ s r t. (t.over ≡ s.over) × (t.y ≡ s.y) × MatchOption r
        (Far (lay (W.plan s.over).shape (W.held s.over)) (W.plan s.over).shape.plane s.y (column (W.plan s.over) s.cell) (W.plan s.over).across)
        (λ x. (x.over ≡ s.over) × (x.y ≡ s.y) × Goes (W.plan s.over) (W.held s.over) s.y s.cell x.from x.to t.cell) };

    ghost remaining = { λ s. at_most ((W.plan s.over).across - s.cell) };

    fn next(&mut self) -> Option<Stretch<W>> {
        let sheet = self.over.sheet();
        let plan = sheet.plan;
        let row = layer_lookup::cell_of(self.y, plan.side);
        let first = seek(sheet, row, self.cell, true)?;
        let end = seek(sheet, row, first + 1, false).unwrap_or(cells(plan));
        self.cell = end;
        Some(Stretch {
            over: self.over,
            y: self.y,
            from: plane::place(first, plan.side, 0),
            to: layer_cell::cell_end(plane::place(end - 1, plan.side, 0), plan.side, plan.across),
        })
    }
}
