// Assembly: models and a cover as the numbers of a layer.
#![tactic(auto)]

ghost use Rattle.std.specs.Prelude.{◌≡◌};
ghost use Rattle.rules.specs.Refusals.{numbered, assemble_refusal};
ghost use Rattle.calls.specs.Lent.{fit_of, assemble_call};
ghost use Rattle.assemble.specs.Call.{sizes_of, AssembleAnswered};

use assemble_offsets::Sizes;
use rules::Refusal;

// Chroma's width and height with luma's.
// Kept: (d) the definition of sizes_of, by which the proofs of both calls go, makes sizes of any numbers. With what
// makes them right as a ghost field of Sizes, it and this function would be handed the proof, in place of Formed in two
// contracts.
pub fn sizes_of(width: usize, height: usize, ratio: usize) -> Sizes
    ensures { result ≡ sizes_of width height ratio }
{
    Sizes {
        width,
        height,
        ratio,
        chroma_width: plane::divided(width, ratio),
        chroma_height: plane::divided(height, ratio),
    }
}

// The tests of assemble, in the order of the table.
#[tactic(auto, unfolding(rules::specs::Refusals::assemble_refusal, rules::specs::Refusals::first_fitting))]
fn tested(
    luma: &[i16],
    chroma1: &[i16],
    chroma2: &[i16],
    width: usize,
    height: usize,
    ratio: usize,
    models: &[f32],
    cover: &[u8],
) -> Result<(), Refusal>
    ensures { numbered result ≡ assemble_refusal
        (assemble_call width height ratio models.now cover.now (fit_of luma.now chroma1.now chroma2.now)) }
{
    plane::ensure(plane::sizes(width, height), Refusal::Size)?;
    plane::ensure(plane::ratioed(ratio, width, height), Refusal::Ratio)?;
    let modelled = plane::exact(models.len(), 4, width, height);
    plane::ensure(modelled, Refusal::Length)?;
    let covered = table::exact_cover(cover.len(), width, height);
    plane::ensure(covered, Refusal::Length)?;
    let room = plane::exact_planes(
        luma.len(),
        chroma1.len(),
        chroma2.len(),
        2,
        width,
        height,
        ratio,
    );
    plane::ensure(room, Refusal::Length)
}

// Assembles, or refuses: the contract is the equation for both.
pub fn assemble(
    luma: &mut [i16],
    chroma1: &mut [i16],
    chroma2: &mut [i16],
    width: usize,
    height: usize,
    ratio: usize,
    models: &[f32],
    cover: &[u8],
) -> Result<(), Refusal>
    ensures { AssembleAnswered
        (assemble_call width height ratio models.now cover.now (fit_of luma.old chroma1.old chroma2.old))
        luma.new chroma1.new chroma2.new result }
{
    tested(luma, chroma1, chroma2, width, height, ratio, models, cover)?;
    let sizes = sizes_of(width, height, ratio);
    assemble_store::store(luma, chroma1, chroma2, sizes, models, cover);
    Ok(())
}
