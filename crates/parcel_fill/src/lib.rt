// Slices of a layer, filled from the payloads of a parcel.
#![tactic(auto)]

ghost use Rattle.std.specs.Prelude.{◌≡◌, ◌++◌, ◌+◌, ◌*◌, ◌/◌, ◌≤◌, length};
ghost use Rattle.rules.specs.Host.{numbers};
ghost use Rattle.table.specs.Put.{Put};
ghost use Rattle.parcel_fill.specs.Fills.{zeros, mark_row, mark_rows, RowFits, MarksFit};

// The numbers of a payload, from a place of the output on.
pub fn fill(output: &mut [i16], at: usize, payload: &[u8])
    requires { at + length payload.now / 2 ≤ length output.old }
    ensures { Put output.old at (numbers payload.now) output.new }
{
    for k in 0..payload.len() / 2 {
        output[at + k] = i16::from_le_bytes([payload[k * 2], payload[k * 2 + 1]]);
    }
}

// So many zeros: the library's `fill`, with the contract by which parts of a slice are joined.
#[tactic(auto, using(crate::proofs::Rows::cleared))]
pub fn clear(output: &mut [i16], at: usize, count: usize)
    requires { at + count ≤ length output.old }
    ensures { Put output.old at (zeros count) output.new }
{
    let end = at + count;
    output[at..end].fill(0);
}

// The size of a layer, and its chroma planes' columns and rows, in which its cells are laid.
#[derive(Clone, Copy)]
pub struct Marks {
    pub width: usize,
    pub height: usize,
    pub across: usize,
    pub rows: usize,
}

// A row of a chroma plane with the cells that stand in it, and 0 elsewhere.
#[tactic(auto, using(crate::proofs::Rows::row_put, crate::proofs::Rows::row_below, table::proofs::Put::put_as))]
fn fill_row(output: &mut [i16], at: usize, payload: &[u8], marks: Marks, y: usize)
    requires { RowFits output.old at payload.now marks y }
    ensures { Put output.old at (mark_row payload.now marks y) output.new }
{
    let wide = table::cells(marks.width);
    let across = marks.across;
    if y < table::cells(marks.height) {
        let from = 2 * (y * wide);
        let end = from + 2 * wide;
        fill(output, at, &payload[from..end]);
        clear(output, at + wide, across - wide);
    } else {
        clear(output, at, across);
    }
}

// All rows.
pub fn fill_rows(output: &mut [i16], at: usize, payload: &[u8], marks: Marks)
    requires { MarksFit output.old at payload.now marks }
    ensures { Put output.old at (mark_rows payload.now marks marks.rows) output.new }
{
    let across = marks.across;
    for y in 0..marks.rows {
        fill_row(output, at + y * across, payload, marks, y);
    }
}
