// Where a walk stands: how many layers are due or were, whether one is due, whether it is a pair's turn; and the start.
#![tactic(auto)]

ghost use Rattle.std.specs.Prelude.{◌≡◌, ◌&&◌, true, ◌∷◌, ◌+◌, ◌%◌, ◌≤◌};
ghost use Rattle.rules.specs.Refusals.{◌unless◌, Table, first_fitting, number_or, size_rows};
ghost use Rattle.rules.specs.Walk.{chunks as chunks_of, chunk_of, pairs_in, is_left, is_due, is_turn, walk_size, started, moved, walk_start_answer, walk_due};
ghost use Rattle.walk_state.specs.Counts.{Counts, Room, counts_of, is_long, are_long, told_by};

use rules::{Refusal, Walk, Walked};

// How many chunks a clip has.
pub fn chunks(pairs: usize) -> usize
    ensures { result ≡ chunks_of pairs }
{
    pairs.div_ceil(12)
}

// How many layers of a clip are due or were, once so many pairs were added.
pub fn ready(pairs: usize, added: usize) -> usize
    requires { added ≤ pairs }
    ensures { Counts pairs added result }
{
    if added == pairs {
        return chunks(pairs);
    }
    (added / 12).saturating_sub(1)
}

// Whether accepted calls can leave a walk so.
pub fn left(walk: Walk) -> bool
    ensures { result ≡ is_left walk }
{
    let Walk {
        pairs,
        added,
        taken,
        ..
    } = walk;
    if pairs < added {
        return false;
    }
    let most = ready(pairs, added);
    if added == 0 {
        return taken <= most;
    }
    let least = ready(pairs, added - 1);
    (taken <= most) & (least <= taken)
}

// Whether they can, and a layer is due.
pub fn due(walk: Walk) -> bool
    ensures { result ≡ (is_left walk && is_due walk) }
{
    left(walk) && walk.taken < ready(walk.pairs, walk.added)
}

// Whether it is the turn of the pair with this number.
pub fn turn(walk: Walk, number: usize) -> bool
    ensures { result ≡ is_turn walk number }
{
    if !left(walk) {
        return false;
    }
    let none = ready(walk.pairs, walk.added) <= walk.taken;
    (number == walk.added) & (walk.added < walk.pairs) & none
}

// How many of the first `added` pairs are chunk c's. No product wraps.
pub fn counted(added: usize, c: usize) -> usize
    ensures { result ≡ pairs_in added c }
{
    added.saturating_sub(c.saturating_mul(12)).min(12)
}

// The pairs of the parts that a due layer is fitted from: of the previous part, the own and the next, 0 where there is
// none.
pub fn counts(walk: Walk) -> [usize; 3]
    requires { (is_left walk && is_due walk) ≡ true }
    ensures { result ≡ counts_of walk }
{
    let added = walk.added;
    let taken = walk.taken;
    let own = counted(added, taken);
    let next = counted(added, taken + 1);
    let previous = if taken == 0 { 0 } else { 12 };
    [previous, own, next]
}

// The slot that the chunk of the pair with this number lies in.
pub fn slot_of(number: usize) -> usize
    ensures { result ≡ chunk_of number % 3 }
{
    number / 12 % 3
}

// The lengths of a slot's slices: luma's, and those of planes 1 and 2.
fn summed(lengths: [usize; 3], walk: Walk) -> bool
    ensures { result ≡ is_long lengths walk }
{
    plane::exact_planes(
        lengths[0],
        lengths[1],
        lengths[2],
        6,
        walk.width,
        walk.height,
        walk.ratio,
    )
}

// The lengths of the nine slices of a walk's sums, slot by slot.
pub fn slotted(lengths: [[usize; 3]; 3], walk: Walk) -> bool
    ensures { result ≡ are_long lengths walk }
{
    summed(lengths[0], walk) & summed(lengths[1], walk) & summed(lengths[2], walk)
}

// The tests of a walk's sizes and ratio, and of the slices of the sums.
#[tactic(auto, unfolding(rules::specs::Refusals::first_fitting))]
pub fn tested(lengths: [[usize; 3]; 3], walk: Walk) -> Result<(), Refusal>
    ensures { (rows : Table) → first_fitting (size_rows (walk_size walk) walk.ratio ((4 unless are_long lengths walk) ∷ rows)) ≡ number_or result (first_fitting rows) }
{
    let Walk {
        width,
        height,
        ratio,
        ..
    } = walk;
    let sizes = plane::sizes(width, height);
    plane::ensure(sizes, Refusal::Size)?;
    plane::ensure(plane::ratioed(ratio, width, height), Refusal::Ratio)?;
    plane::ensure(slotted(lengths, walk), Refusal::Length)
}

// What a call of a walk answers, as it passes to C: the new walk, or by a refusal the old one.
pub fn told(done: Result<Walk, Refusal>, old: Walk) -> Walked
    ensures { result ≡ told_by done old }
{
    match done {
        Ok(walk) => Walked { word: 0, walk },
        Err(refusal) => Walked {
            word: u64::from(refusal),
            walk: old,
        },
    }
}

// A walk with so many pairs added and so many layers taken besides.
pub fn after(walk: Walk, pairs: usize, layers: usize) -> Walk
    requires { Room walk pairs layers }
    ensures { result ≡ moved walk (walk.added + pairs) (walk.taken + layers) }
{
    Walk {
        added: walk.added + pairs,
        taken: walk.taken + layers,
        ..walk
    }
}

// The start of a walk, or a refusal: the contract is the equation for both.
#[tactic(auto, unfolding(rules::specs::Walk::walk_start_refusal, rules::specs::Refusals::first_fitting))]
pub fn start(width: usize, height: usize, ratio: usize, pairs: usize) -> Result<Walk, Refusal>
    ensures { told_by result (started (0, 0) 0 0) ≡ walk_start_answer (width, height) ratio pairs }
{
    plane::ensure(plane::sizes(width, height), Refusal::Size)?;
    plane::ensure(plane::ratioed(ratio, width, height), Refusal::Ratio)?;
    Ok(Walk {
        width,
        height,
        ratio,
        pairs,
        added: 0,
        taken: 0,
    })
}

// Whether a layer is due: no of a walk that no calls leave.
pub fn asked(walk: Walk) -> bool
    ensures { result ≡ walk_due walk }
{
    let sizes = plane::sizes(walk.width, walk.height);
    let ratio = plane::ratioed(walk.ratio, walk.width, walk.height);
    sizes & ratio & due(walk)
}
