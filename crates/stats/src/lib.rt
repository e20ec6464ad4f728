// Stats: one pair of frames added to the sums.
#![tactic(auto)]

ghost use Rattle.std.specs.Prelude.{◌≡◌, ◌*◌, ◌/◌, length};
ghost use Rattle.rules.specs.Forms.{shrunk};
ghost use Rattle.rules.specs.Stats.{added as added_of};
ghost use Rattle.rules.specs.Refusals.{stats_refusal};
ghost use Rattle.sample.specs.Points.{plane_by, PlaneFits};
ghost use Rattle.motion.specs.Moves.{motion_of};
ghost use Rattle.stats_refuse.specs.Call.{stats_by};
ghost use Rattle.stats.specs.Answered.{Added, StatsAnswered};

use motion::{Lattice, Motion};
use rules::Refusal;
use sample::View;
use stats_gather::Task;
use stats_refuse::{Numbers, Pair};

// Adds one chroma plane of a pair.
fn add_chroma(sums: &mut [f32], first: View, second: View, motion: Motion, numbers: Numbers)
    requires first { PlaneFits first.bytes.now first.pitch (numbers.width / numbers.ratio) (numbers.height / numbers.ratio) }
    requires second { PlaneFits second.bytes.now second.pitch (numbers.width / numbers.ratio) (numbers.height / numbers.ratio) }
    requires long { length sums.old ≡ 2 * ((numbers.width / numbers.ratio) * (numbers.height / numbers.ratio)) }
    ensures { let m = motion.entry in
        sums.new ≡ added_of numbers.pairs 2 sums.old (plane_by first.entry) (plane_by second.entry)
        (motion_of m.fields m.lattice.grid) (shrunk (numbers.width, numbers.height) numbers.ratio) m.lattice.ratio }
{
    let task = Task::<2> {
        pairs: numbers.pairs,
        first,
        second,
        width: plane::divided(numbers.width, numbers.ratio),
        height: plane::divided(numbers.height, numbers.ratio),
        motion,
    };
    task.gather(sums);
}

// Adds a pair that is not refused.
#[tactic(auto, unfolding(rules::specs::Stats::stats_sums), using(crate::proofs::Runs::runs))]
pub fn added(
    luma: &mut [f32],
    chroma1: &mut [f32],
    chroma2: &mut [f32],
    pair: Pair,
    numbers: Numbers,
)
    requires { stats_refusal (stats_by luma.old chroma1.old chroma2.old pair numbers) ≡ 0 }
    ensures { Added (stats_by luma.old chroma1.old chroma2.old pair.entry numbers)
        luma.new chroma1.new chroma2.new }
{
    let Pair {
        first,
        second,
        fields,
        grid,
    } = pair;
    let Numbers {
        pairs,
        width,
        height,
        ratio,
    } = numbers;
    let lattice = Lattice { grid, ratio: 1 };
    let task = Task::<6> {
        pairs,
        first: first.luma,
        second: second.luma,
        width,
        height,
        motion: Motion { fields, lattice },
    };
    task.gather(luma);
    let lattice = Lattice { grid, ratio };
    let motion = Motion { fields, lattice };
    add_chroma(chroma1, first.chroma1, second.chroma1, motion, numbers);
    add_chroma(chroma2, first.chroma2, second.chroma2, motion, numbers);
}

// Adds a pair, or refuses: the contract is the equation for both.
// Kept: (a) a refusal is handed on by name, and not by a `?`: the wrong program that answers it 0 changes that answer
// alone, and is refused for it.
pub fn stats(
    luma: &mut [f32],
    chroma1: &mut [f32],
    chroma2: &mut [f32],
    pair: Pair,
    numbers: Numbers,
) -> Result<(), Refusal>
    ensures { StatsAnswered (stats_by luma.old chroma1.old chroma2.old pair.entry numbers)
        luma.new chroma1.new chroma2.new result }
{
    match stats_refuse::stats_refusal(luma, chroma1, chroma2, pair, numbers) {
        Ok(()) => {
            added(luma, chroma1, chroma2, pair, numbers);
            Ok(())
        }
        Err(refusal) => Err(refusal),
    }
}
