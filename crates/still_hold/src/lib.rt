// Hold: a plane's bytes weighed with the bytes that are kept, by a mask.
#![tactic(auto)]

ghost use Rattle.std.specs.Prelude.{◌≡◌};
ghost use Rattle.rules.specs.Refusals.{hold_refusal, numbered};
ghost use Rattle.rules.specs.Still.{hold_leaves};
ghost use Rattle.calls.specs.Lent.{plane_of, mask_of, hold_call};
ghost use Rattle.still_pass.specs.Pass.{Passed};

use rules::Refusal;
use still_cells::Numbers;
use still_pixel::Hold;
use still_rows::Job;

// The tests of hold, in the order of the table.
#[tactic(auto, unfolding(rules::specs::Refusals::hold_refusal, rules::specs::Refusals::first_fitting, rules::specs::Forms::each))]
fn tested(output: &[u8], held: &[u8], mask: &[u8], numbers: Numbers) -> Result<(), Refusal>
    ensures { numbered result
        ≡ hold_refusal (
        hold_call (plane_of output.now numbers.output_pitch) (plane_of held.now numbers.pitch) numbers.width numbers.height
        (mask_of mask.now numbers.mask_width)) }
{
    let width = numbers.width;
    let height = numbers.height;
    plane::ensure(plane::sizes(width, height), Refusal::Size)?;
    plane::ensure(still_cells::stepped(mask, numbers), Refusal::Ratio)?;
    let pitches = plane::pitched(numbers.output_pitch, width)
        & plane::pitched(numbers.pitch, width);
    plane::ensure(pitches, Refusal::Pitch)?;
    let lengths = plane::planed(output.len(), numbers.output_pitch, width, height)
        & plane::planed(held.len(), numbers.pitch, width, height);
    plane::ensure(lengths, Refusal::Length)
}

// Holds, or refuses: the contract is the equation for both.
pub fn hold(output: &mut [u8], held: &[u8], mask: &[u8], numbers: Numbers) -> Result<(), Refusal>
    ensures { let c =
        hold_call (plane_of output.old numbers.output_pitch) (plane_of held.now numbers.pitch) numbers.width numbers.height
        (mask_of mask.now numbers.mask_width) in
        Passed (hold_refusal c) (hold_leaves c) output.new result }
{
    tested(output, held, mask, numbers)?;
    let job = Job {
        work: Hold { held },
        mask,
        numbers,
        steps: still_cells::steps_of(mask, numbers),
    };
    still_steps::pass(output, job);
    Ok(())
}
