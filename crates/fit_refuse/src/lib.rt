// The tests of fit: straight lines, row by row. The nine slices `sums` are luma's and those of planes 1 and 2 of the
// previous part, of the own and of the next; `pairs` are the pairs of these parts.
#![tactic(auto)]

ghost use Rattle.std.specs.Prelude.{◌≡◌};
ghost use Rattle.rules.specs.Forms.{Parts};
ghost use Rattle.rules.specs.Domain.{are_sums};
ghost use Rattle.rules.specs.Refusals.{Table, numbered, number_or, first_fitting, is_neighbour, work_rows, fit_refusal};
ghost use Rattle.calls.specs.Lent.{part_of, fit_of};
ghost use Rattle.fit_refuse.specs.Call.{fit_with, fit_by, count_rows};

use fit_trial::Settings;
use rules::Refusal;

// The numbers of a call: luma's size, the ratio, the pairs of the three parts, and what is looked for.
#[derive(Clone, Copy)]
pub struct Numbers {
    pub width: usize,
    pub height: usize,
    pub ratio: usize,
    pub pairs: [usize; 3],
    pub settings: Settings,
}

// The sums of a part.
fn summed(
    luma: &[f32],
    chroma1: &[f32],
    chroma2: &[f32],
    width: usize,
    height: usize,
    ratio: usize,
) -> bool
    ensures { result ≡ are_sums (part_of luma.now chroma1.now chroma2.now 0) (width, height) ratio }
{
    plane::exact_planes(
        luma.len(),
        chroma1.len(),
        chroma2.len(),
        6,
        width,
        height,
        ratio,
    )
}

// Those of a neighbour, which are not looked at where it is absent.
fn neighbour(
    luma: &[f32],
    chroma1: &[f32],
    chroma2: &[f32],
    pairs: usize,
    width: usize,
    height: usize,
    ratio: usize,
) -> bool
    ensures { result ≡ is_neighbour (part_of luma.now chroma1.now chroma2.now pairs) (width, height) ratio }
{
    pairs == 0 || summed(luma, chroma1, chroma2, width, height, ratio)
}

// The last rows of the table: pairs above 12, and an own part without any.
#[tactic(auto, unfolding(rules::specs::Refusals::first_fitting))]
fn counted(pairs: [usize; 3]) -> Result<(), Refusal>
    ensures { numbered result ≡ first_fitting (count_rows pairs) }
{
    plane::ensure(pairs[0] <= 12, Refusal::Pairs)?;
    plane::ensure((1..=12).contains(&pairs[1]), Refusal::Pairs)?;
    plane::ensure(pairs[2] <= 12, Refusal::Pairs)
}

// The rows of work slices and outputs of a wrong length, and of settings outside their ranges.
#[tactic(auto, unfolding(rules::specs::Refusals::first_fitting))]
pub fn works(
    models: &[f32],
    kept: &[u8],
    cover: &[u8],
    luma: &[i16],
    chroma1: &[i16],
    chroma2: &[i16],
    numbers: Numbers,
) -> Result<(), Refusal>
    ensures { (parts : Parts) (rows : Table)
        → first_fitting (work_rows (fit_with parts numbers models.now kept.now cover.now
        (fit_of luma.now chroma1.now chroma2.now)) rows)
        ≡ number_or result (first_fitting rows) }
{
    let width = numbers.width;
    let height = numbers.height;
    let settings = numbers.settings;
    let modelled = plane::exact(models.len(), 4, width, height);
    plane::ensure(modelled, Refusal::Length)?;
    let flagged = plane::is_product(kept.len(), width, height);
    plane::ensure(flagged, Refusal::Length)?;
    let covered = table::exact_cover(cover.len(), width, height);
    plane::ensure(covered, Refusal::Length)?;
    let room = plane::exact_planes(
        luma.len(),
        chroma1.len(),
        chroma2.len(),
        2,
        width,
        height,
        numbers.ratio,
    );
    plane::ensure(room, Refusal::Length)?;
    plane::ensure(plane::within(settings.limit, 0.5, 255.0), Refusal::Setting)?;
    let evident = plane::within(settings.evidence, 0.0, 65536.0);
    plane::ensure(evident, Refusal::Setting)
}

// The tests of fit, in the order of the table.
// Kept: (a) nine slices in the order of the exported call, as the contracts of the evidence name them.
#[tactic(auto, unfolding(rules::specs::Refusals::fit_refusal, rules::specs::Refusals::first_fitting))]
pub fn tested(
    models: &[f32],
    kept: &[u8],
    cover: &[u8],
    luma: &[i16],
    chroma1: &[i16],
    chroma2: &[i16],
    sums: [&[f32]; 9],
    numbers: Numbers,
) -> Result<(), Refusal>
    ensures { numbered result
        ≡ fit_refusal (fit_by sums.entry numbers models.now kept.now cover.now
        (fit_of luma.now chroma1.now chroma2.now)) }
{
    let width = numbers.width;
    let height = numbers.height;
    let ratio = numbers.ratio;
    let pairs = numbers.pairs;
    plane::ensure(plane::sizes(width, height), Refusal::Size)?;
    plane::ensure(plane::ratioed(ratio, width, height), Refusal::Ratio)?;
    let previous = neighbour(sums[0], sums[1], sums[2], pairs[0], width, height, ratio);
    plane::ensure(previous, Refusal::Length)?;
    let own = summed(sums[3], sums[4], sums[5], width, height, ratio);
    plane::ensure(own, Refusal::Length)?;
    let next = neighbour(sums[6], sums[7], sums[8], pairs[2], width, height, ratio);
    plane::ensure(next, Refusal::Length)?;
    works(models, kept, cover, luma, chroma1, chroma2, numbers)?;
    counted(pairs)
}
