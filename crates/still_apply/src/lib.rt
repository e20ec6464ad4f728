// Apply: two frames mixed where a mask says that the picture is still.
#![tactic(auto)]

ghost use Rattle.std.specs.Prelude.{◌≡◌};
ghost use Rattle.rules.specs.Refusals.{apply_refusal, numbered};
ghost use Rattle.rules.specs.Still.{apply_leaves};
ghost use Rattle.calls.specs.Lent.{plane_of, mask_of, frames_of, apply_call};
ghost use Rattle.still_pass.specs.Pass.{Passed};

use rules::Refusal;
use still_cells::Numbers;
use still_pixel::Apply;
use still_rows::Job;

// The tests of apply, in the order of the table.
#[tactic(auto, unfolding(rules::specs::Refusals::apply_refusal, rules::specs::Refusals::first_fitting, rules::specs::Forms::each))]
fn tested(output: &[u8], frames: &Apply, mask: &[u8], numbers: Numbers) -> Result<(), Refusal>
    ensures { numbered result
        ≡ apply_refusal (
        apply_call (plane_of output.now numbers.output_pitch)
        (frames_of (plane_of frames.now.first.now numbers.pitch) (plane_of frames.now.second.now numbers.pitch) frames.now.time) numbers.width numbers.height
        (mask_of mask.now numbers.mask_width)) }
{
    let width = numbers.width;
    let height = numbers.height;
    plane::ensure(plane::sizes(width, height), Refusal::Size)?;
    plane::ensure(still_cells::stepped(mask, numbers), Refusal::Ratio)?;
    let pitches = plane::pitched(numbers.output_pitch, width)
        & plane::pitched(numbers.pitch, width);
    plane::ensure(pitches, Refusal::Pitch)?;
    let lengths = plane::planed(output.len(), numbers.output_pitch, width, height)
        & plane::planed(frames.first.len(), numbers.pitch, width, height)
        & plane::planed(frames.second.len(), numbers.pitch, width, height);
    plane::ensure(lengths, Refusal::Length)?;
    plane::ensure(plane::timed(frames.time), Refusal::Setting)
}

// Applies, or refuses: the contract is the equation for both.
pub fn apply(
    output: &mut [u8],
    frames: &Apply,
    mask: &[u8],
    numbers: Numbers,
) -> Result<(), Refusal>
    ensures { let c =
        apply_call (plane_of output.old numbers.output_pitch)
        (frames_of (plane_of frames.now.first.now numbers.pitch) (plane_of frames.now.second.now numbers.pitch) frames.now.time) numbers.width numbers.height
        (mask_of mask.now numbers.mask_width) in
        Passed (apply_refusal c) (apply_leaves c) output.new result }
{
    tested(output, frames, mask, numbers)?;
    let job = Job {
        work: *frames,
        mask,
        numbers,
        steps: still_cells::steps_of(mask, numbers),
    };
    still_steps::pass(output, job);
    Ok(())
}
