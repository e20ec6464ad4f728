// A layer that is taken from a walk: the tests, and fit on the parts of its chunk and of the chunks beside it. The nine
// slices `sums` are luma's and those of planes 1 and 2 of slot 0, of slot 1 and of slot 2.
#![tactic(auto)]

ghost use Rattle.std.specs.Prelude.{◌≡◌, [], ◌∷◌, ◌&&◌};
ghost use Rattle.rules.specs.Forms.{Parts};
ghost use Rattle.rules.specs.Refusals.{◌unless◌, first_fitting, numbered, work_rows};
ghost use Rattle.rules.specs.Walk.{is_left, is_due};
ghost use Rattle.calls.specs.Lent.{fit_of};
ghost use Rattle.told.specs.Told.{LayerTold};
ghost use Rattle.fit_refuse.specs.Call.{fit_with};
ghost use Rattle.walk_state.specs.Counts.{told_by};
ghost use Rattle.walk_layer.specs.Call.{numbers_of, lengths_by, order_by, taken_by};

use fit_refuse::Numbers;
use fit_trial::Settings;
use rules::{Refusal, Walk};

// The numbers of fit, of parts of so many pairs.
fn of_chunk(walk: Walk, pairs: [usize; 3], settings: Settings) -> Numbers
    ensures { result ≡ numbers_of walk pairs settings }
{
    Numbers {
        width: walk.width,
        height: walk.height,
        ratio: walk.ratio,
        pairs,
        settings,
    }
}

// The tests behind those of the sums: of the work slices, the outputs and the settings, and whether a layer is due.
fn rest(
    models: &[f32],
    kept: &[u8],
    cover: &[u8],
    luma: &[i16],
    chroma1: &[i16],
    chroma2: &[i16],
    walk: Walk,
    settings: Settings,
) -> Result<(), Refusal>
    ensures { (parts : Parts)
        → numbered result ≡ first_fitting (work_rows (fit_with parts (numbers_of walk (0 ∷ 0 ∷ 0 ∷ []) settings) models.now kept.now cover.now
        (fit_of luma.now chroma1.now chroma2.now)) ((12 unless is_left walk && is_due walk) ∷ [])) }
{
    let numbers = of_chunk(walk, [0, 0, 0], settings);
    fit_refuse::works(models, kept, cover, luma, chroma1, chroma2, numbers)?;
    plane::ensure(walk_state::due(walk), Refusal::Turn)
}

// The lengths of the sums, slot by slot.
fn lengths_of(sums: [&[f32]; 9]) -> [[usize; 3]; 3]
    ensures { result ≡ lengths_by sums.entry }
{
    [
        [sums[0].len(), sums[1].len(), sums[2].len()],
        [sums[3].len(), sums[4].len(), sums[5].len()],
        [sums[6].len(), sums[7].len(), sums[8].len()],
    ]
}

// The sums in the order of the parts, where the own part lies in this slot of 0, 1 and 2.
// Kept: (a) nine slices in one array, as fit is lent the sums of its parts.
fn ordered<'s>(sums: [&'s [f32]; 9], slot: usize) -> [&'s [f32]; 9]
    ensures { result ≡ order_by sums.entry slot }
{
    match slot {
        0 => [
            sums[6], sums[7], sums[8], sums[0], sums[1], sums[2], sums[3], sums[4], sums[5],
        ],
        1 => sums,
        _ => [
            sums[3], sums[4], sums[5], sums[6], sums[7], sums[8], sums[0], sums[1], sums[2],
        ],
    }
}

// Takes a layer, or refuses: the contract is the equation for both.
pub fn layer(
    models: &mut [f32],
    kept: &mut [u8],
    cover: &mut [u8],
    luma: &mut [i16],
    chroma1: &mut [i16],
    chroma2: &mut [i16],
    walk: Walk,
    sums: [&[f32]; 9],
    settings: Settings,
) -> Result<Walk, Refusal>
    ensures { LayerTold (taken_by walk sums.entry settings models.old kept.old cover.old
        (fit_of luma.old chroma1.old chroma2.old))
        models.new kept.new cover.new (fit_of luma.new chroma1.new chroma2.new) (told_by result walk) }
{
    walk_state::tested(lengths_of(sums), walk)?;
    rest(models, kept, cover, luma, chroma1, chroma2, walk, settings)?;
    let numbers = of_chunk(walk, walk_state::counts(walk), settings);
    let order = ordered(sums, walk.taken % 3);
    fit::made(models, kept, cover, luma, chroma1, chroma2, order, numbers);
    Ok(walk_state::after(walk, 0, 1))
}
