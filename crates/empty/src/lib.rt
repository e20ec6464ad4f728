// Empty: whether no cell of a layer is marked.
#![tactic(auto)]

ghost use Rattle.std.specs.Prelude.{◌≡◌, ◌≤◌, not, eqb};
ghost use Rattle.rules.specs.Reading.{empty_answer};
ghost use Rattle.rules.specs.Refusals.{replied};
ghost use Rattle.layer_lent.specs.Lent.{lay};
ghost use Rattle.layer_cell.specs.Cells.{CellInside};
ghost use Rattle.empty.specs.Marks.{row_unmarked, rows_unmarked, InRow, InRows};

use layer_lent::{Lent, Shape, Sheet};
use rules::Refusal;

// The least of a row's numbers, each read as a number without a sign, and of those before a column: it is 0 where one
// of them is. The row is gone through to its end, in a loop without a branch.
#[tactic(auto, unfolding(rules::specs::Forms::turns, rules::specs::Forms::all), using(crate::proofs::Rows::least_more))]
fn least<L: Lent>(sheet: Sheet<L>, y: usize, width: usize, from: usize, before: u16) -> u16
    requires row { InRow sheet.plan y width }
    requires ahead { from ≤ width }
    requires before { not (eqb before 0) ≡ row_unmarked (lay sheet.plan.shape (L.held sheet.layer)) y from }
    ensures { not (eqb result 0) ≡ row_unmarked (lay sheet.plan.shape (L.held sheet.layer)) y width }
{
    let mut least = before;
    for x in from..width {
        least = least.min(layer_cell::number(sheet.plan, sheet.layer, x, y).cast_unsigned());
    }
    least
}

// None of a row is 0. The loop is too wide for a short row, whose first eight are compiled to a straight line.
#[tactic(auto, unfolding(rules::specs::Forms::turns, rules::specs::Forms::all))]
fn row_unmarked<L: Lent>(sheet: Sheet<L>, y: usize, width: usize) -> bool
    requires { InRow sheet.plan y width }
    ensures { result ≡ row_unmarked (lay sheet.plan.shape (L.held sheet.layer)) y width }
{
    if (8..16).contains(&width) {
        let eight = least(sheet, y, 8, 0, u16::MAX);
        return least(sheet, y, width, 8, eight) != 0;
    }
    least(sheet, y, width, 0, u16::MAX) != 0
}

// None of the first rows has a 0. The first row with one is the last one read.
#[tactic(auto, unfolding(rules::specs::Forms::turns, rules::specs::Forms::all))]
fn rows_unmarked<L: Lent>(sheet: Sheet<L>, width: usize, height: usize) -> bool
    requires { InRows sheet.plan width height }
    ensures { result ≡ rows_unmarked (lay sheet.plan.shape (L.held sheet.layer)) width height }
{
    for y in 0..height {
        if !row_unmarked(sheet, y, width) {
            return false;
        }
    }
    true
}

// The yes or no, or a refusal: the contract is the equation for both. The shape's plane is not looked at.
pub fn empty<L: Lent>(shape: Shape, layer: L) -> Result<bool, Refusal>
    ensures { replied result ≡ empty_answer (lay shape (L.held layer)) }
{
    let mut luma = shape;
    luma.plane = 0;
    layer_refuse::empty_refusal(luma, layer)?;
    let plan = layer_lent::planned(luma);
    let width = table::cells(luma.width);
    let height = table::cells(luma.height);
    Ok(rows_unmarked(Sheet { layer, plan }, width, height))
}
