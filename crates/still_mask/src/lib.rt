// Mask: 1 where the picture is still, 0 elsewhere. The bytes that it fills carry the passes, so it needs no others.
#![tactic(auto)]

ghost use Rattle.std.specs.Prelude.{◌≡◌, ◌/◌, slice_index, EachIndex};
ghost use Rattle.rules.specs.Calls.{Settings as Given};
ghost use Rattle.rules.specs.Refusals.{mask_refusal, numbered};
ghost use Rattle.rules.specs.Still.{mask_leaves};
ghost use Rattle.calls.specs.Lent.{plane_of, mask_call};
ghost use Rattle.still_pass.specs.Pass.{Passed};
ghost use Rattle.still_same.specs.Same.{settled};

use rules::Refusal;
use still_same::{Frames, Settings};

// The bit above the lowest, of bytes of two bits.
// Kept: (d) a for over iter_mut is the library's own walk; of what a chain over iter_mut changes nothing is known after
// it.
fn halve(still: &mut [u8])
    ensures { EachIndex still.new (λ k. slice_index still.new k ≡ slice_index still.old k / 2) }
{
    for b in still.iter_mut() {
        *b /= 2;
    }
}

// The tests of mask, in the order of the table, whatever the settings.
#[tactic(auto, unfolding(rules::specs::Refusals::mask_refusal, rules::specs::Refusals::first_fitting, rules::specs::Forms::each))]
fn tested(
    still: &[u8],
    first: &[u8],
    second: &[u8],
    pitch: usize,
    width: usize,
    height: usize,
) -> Result<(), Refusal>
    ensures { (s : Given) → numbered result ≡ mask_refusal (mask_call (plane_of first.now pitch) (plane_of second.now pitch) width height s still.now) }
{
    plane::ensure(plane::sizes(width, height), Refusal::Size)?;
    plane::ensure(plane::pitched(pitch, width), Refusal::Pitch)?;
    let lengths = plane::planed(first.len(), pitch, width, height)
        & plane::planed(second.len(), pitch, width, height);
    plane::ensure(lengths, Refusal::Length)?;
    let filled = plane::is_product(still.len(), width, height);
    plane::ensure(filled, Refusal::Length)
}

// Masks, or refuses: the contract is the equation for both.
pub fn mask(
    still: &mut [u8],
    first: &[u8],
    second: &[u8],
    pitch: usize,
    width: usize,
    height: usize,
    settings: Settings,
) -> Result<(), Refusal>
    ensures { let c = mask_call (plane_of first.now pitch) (plane_of second.now pitch) width height (settled settings) still.old in
        Passed (mask_refusal c) (mask_leaves c) still.new result }
{
    tested(still, first, second, pitch, width, height)?;
    let frames = Frames {
        first,
        second,
        pitch,
        width,
        height,
    };
    still_same::same_rows(still, frames, settings);
    still_corner::mark_rows(still, width, height);
    halve(still);
    Ok(())
}
