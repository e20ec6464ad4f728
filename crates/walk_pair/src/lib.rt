// A pair that a walk is handed: the tests, and stats on the part of the pair's chunk.
#![tactic(auto)]

ghost use Rattle.std.specs.Prelude.{◌≡◌, [], ◌∷◌};
ghost use Rattle.rules.specs.Forms.{absent};
ghost use Rattle.rules.specs.Refusals.{◌unless◌, first_fitting, numbered, pair_rows};
ghost use Rattle.rules.specs.Walk.{is_turn};
ghost use Rattle.calls.specs.Lent.{slots_of};
ghost use Rattle.told.specs.Told.{PairTold};
ghost use Rattle.stats_refuse.specs.Call.{call_by};
ghost use Rattle.walk_state.specs.Counts.{are_long, told_by};
ghost use Rattle.walk_pair.specs.Call.{chunk_numbers, handed_by};

use rules::{Refusal, Walk};
use stats_refuse::{Numbers, Pair};

// The numbers of stats, for the part of a pair's chunk.
fn of_chunk(walk: Walk) -> Numbers
    ensures { result ≡ chunk_numbers walk }
{
    Numbers {
        pairs: walk.added % 12,
        width: walk.width,
        height: walk.height,
        ratio: walk.ratio,
    }
}

// The tests of a call, in the order of the table, by the lengths of the sums.
#[tactic(auto, unfolding(rules::specs::Refusals::first_fitting))]
fn tested(lengths: [[usize; 3]; 3], walk: Walk, pair: Pair, number: usize) -> Result<(), Refusal>
    ensures { numbered result ≡ first_fitting (pair_rows (call_by absent pair.entry (chunk_numbers walk)) (are_long lengths walk)
        ((12 unless is_turn walk number) ∷ [])) }
{
    let sums = walk_state::slotted(lengths, walk);
    stats_refuse::pair_refusal(sums, pair, of_chunk(walk))?;
    plane::ensure(walk_state::turn(walk, number), Refusal::Turn)
}

// Takes the pair of this number, or refuses: the contract is the equation for both. `chroma12` are the sums of plane 2
// in slot 1.
// Kept: (a) nine slices, each lent apart, as the C interface gives them.
pub fn pair(
    luma0: &mut [f32],
    chroma01: &mut [f32],
    chroma02: &mut [f32],
    luma1: &mut [f32],
    chroma11: &mut [f32],
    chroma12: &mut [f32],
    luma2: &mut [f32],
    chroma21: &mut [f32],
    chroma22: &mut [f32],
    walk: Walk,
    pair: Pair,
    number: usize,
) -> Result<Walk, Refusal>
    ensures { PairTold (handed_by walk
        (slots_of luma0.old chroma01.old chroma02.old luma1.old chroma11.old chroma12.old
        luma2.old chroma21.old chroma22.old)
        pair.entry number)
        (slots_of luma0.new chroma01.new chroma02.new luma1.new chroma11.new chroma12.new
        luma2.new chroma21.new chroma22.new)
        (told_by result walk) }
{
    let lengths = [
        [luma0.len(), chroma01.len(), chroma02.len()],
        [luma1.len(), chroma11.len(), chroma12.len()],
        [luma2.len(), chroma21.len(), chroma22.len()],
    ];
    tested(lengths, walk, pair, number)?;
    let numbers = of_chunk(walk);
    match walk_state::slot_of(walk.added) {
        0 => stats::added(luma0, chroma01, chroma02, pair, numbers),
        1 => stats::added(luma1, chroma11, chroma12, pair, numbers),
        _ => stats::added(luma2, chroma21, chroma22, pair, numbers),
    }
    Ok(walk_state::after(walk, 1, 0))
}
