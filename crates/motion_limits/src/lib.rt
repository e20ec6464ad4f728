// The tests of motion numbers and of the lengths of motion fields.
#![tactic(auto)]

ghost use Rattle.std.specs.Prelude.{◌≡◌};
ghost use Rattle.rules.specs.Domain.{spans as spans_of, is_pel, motion_numbers, motion_lengths};
ghost use Rattle.rules.specs.Refusals.{Table, first_fitting, motion_rows, number_or};
ghost use Rattle.motion.specs.Moves.{motion_of, laid_out};

use motion::Grid;
use rules::Refusal;

// From lo to hi.
// Kept: (d) the body is the library's `contains`; the name is that of the rules' definition, which four rows below use.
pub fn spans(lo: i32, hi: i32, n: i32) -> bool
    ensures { result ≡ spans_of lo hi n }
{
    (lo..=hi).contains(&n)
}

// 1, 2 or 4.
fn pelled(pel: i32) -> bool
    ensures { result ≡ is_pel pel }
{
    matches!(pel, 1 | 2 | 4)
}

// The numbers of a motion.
pub fn motion_numbers(grid: Grid) -> bool
    ensures { result ≡ motion_numbers (laid_out grid) }
{
    plane::sizes(grid.width, grid.height)
        & spans(1, 128, grid.block_width)
        & spans(1, 128, grid.block_height)
        & spans(-4096, 4096, grid.origin_x)
        & spans(-4096, 4096, grid.origin_y)
        & pelled(grid.pel)
}

// The lengths of its fields.
pub fn motion_lengths(fields: [&[u16]; 4], grid: Grid) -> bool
    ensures { result ≡ motion_lengths (motion_of fields.entry grid) }
{
    fields.iter().all(|field| plane::is_product(field.len(), grid.width, grid.height))
}

// The tests of a motion, in the order of the table.
#[tactic(auto, unfolding(rules::specs::Refusals::first_fitting))]
pub fn motion_refusal(fields: [&[u16]; 4], grid: Grid) -> Result<(), Refusal>
    ensures { (rows : Table) → first_fitting (motion_rows (motion_of fields.entry grid) rows) ≡ number_or result (first_fitting rows) }
{
    plane::ensure(motion_lengths(fields, grid), Refusal::Length)?;
    plane::ensure(motion_numbers(grid), Refusal::Movement)
}
