// The cell lookup: the one place where a pixel's column or row becomes its cell's. It is to "hold no division or
// remainder": tools/undivided fails where one stands in it.
#![tactic(auto)]

ghost use Rattle.std.specs.Prelude.{◌≡◌, ◌/◌};
ghost use Rattle.layer_lookup.specs.Side.{IsSide};

// The column or row of cells that column or row k lies in. A side is 2, 4 or 8, a power of two, so the quotient is a
// shift.
// Kept: (d) a side is a number: where a cell ends it is multiplied by, and an enum of the three would be made of a
// ratio only to be turned back into their number there.
pub fn cell_of(k: usize, side: usize) -> usize
    requires { IsSide side }
    ensures { result ≡ k / side }
{
    match side {
        8 => k >> 3,
        4 => k >> 2,
        _ => k >> 1,
    }
}
