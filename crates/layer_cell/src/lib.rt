// The cells of a layer: their stored numbers, and a pixel's distance.
#![tactic(auto)]

ghost use Rattle.std.specs.Prelude.{◌≡◌, ◌+◌, ◌*◌, ◌/◌, ◌<◌, ◌≤◌, min};
ghost use Rattle.rules.specs.Literals.{0·0, 8·0};
ghost use Rattle.rules.specs.Float.{◌⊗◌, ◌⊖◌, ◌≼◌, signed};
ghost use Rattle.rules.specs.Reading.{cell as cell_of, distance as distance_of};
ghost use Rattle.layer_lookup.specs.Side.{IsSide};
ghost use Rattle.layer_lent.specs.Lent.{lay, ChromaLong, Planned, Inside};
ghost use Rattle.layer_cell.specs.Cells.{CellEnd, CellInside};

use layer_lent::{Lent, Plan};

// The end of column k's cell, or of the plane.
pub fn cell_end(k: usize, side: usize, size: usize) -> usize
    requires side { IsSide side }
    requires inside { k < size }
    requires small { size ≤ 4096 }
    ensures ends { result ≡ min (k / side * side + side) size }
    ensures same { CellEnd k side size result }
{
    plane::place(layer_lookup::cell_of(k, side), side, side).min(size)
}

// The number of the cell in this column and row: the one reader of a stored cell. Of a layer's slices it asks for the one
// that it reads.
pub fn number<L: Lent>(plan: Plan, layer: L, x: usize, y: usize) -> i16
    requires planned { Planned plan }
    requires long { ChromaLong plan (L.held layer 2) }
    requires inside { CellInside plan x y }
    ensures { result ≡ cell_of (lay plan.shape (L.held layer)) x y }
{
    let k = plane::place(plan.rows + y, plan.shape.chroma_pitch, x);
    layer.entry(2, k)
}

// The distance stored for a pixel.
// Kept: (d) `Inside` is asked of each reader of a pixel, as an index is of each reader of a slice. A pixel as a value
// with it as a ghost field would carry the plan, or borrow the sheet, for each pixel.
pub fn distance<L: Lent>(plan: Plan, layer: L, x: usize, y: usize) -> i16
    requires planned { Planned plan }
    requires long { ChromaLong plan (L.held layer 2) }
    requires inside { Inside plan x y }
    ensures { result ≡ distance_of (lay plan.shape (L.held layer)) plan.shape.plane x y }
{
    let column = layer_lookup::cell_of(x, plan.side);
    let row = layer_lookup::cell_of(y, plan.side);
    number(plan, layer, column, row)
}

// The gap of a stored distance.
pub fn gap(distance: i16) -> f32
    ensures { result ≡ signed distance ⊗ 8·0 ⊖ 8·0 }
{
    distance as f32 * 8.0 - 8.0
}

// A stored distance whose gap is at most 0.
#[tactic(auto, using(crate::proofs::Ends::gap_test))]
pub fn near(distance: i16) -> bool
    ensures { result ≡ (signed distance ⊗ 8·0 ⊖ 8·0 ≼ 0·0) }
{
    distance <= 1
}
