// The refusals of stats.
#![tactic(auto)]

ghost use Rattle.std.specs.Prelude.{◌≡◌};
ghost use Rattle.std.specs.List.{list_all};
ghost use Rattle.rules.specs.Domain.{is_pitch, is_plane};
ghost use Rattle.rules.specs.Forms.{absent};
ghost use Rattle.rules.specs.Refusals.{Table, first_fitting, pair_rows, stats_refusal, number_or, numbered};
ghost use Rattle.sample.specs.Points.{plane_by};
ghost use Rattle.stats_refuse.specs.Call.{call_by, stats_by};

use motion::Grid;
use rules::Refusal;
use sample::View;

// The three planes of a frame.
#[derive(Clone, Copy)]
pub struct Frame<'f> {
    pub luma: View<'f>,
    pub chroma1: View<'f>,
    pub chroma2: View<'f>,
}

// Two frames, and the motion between them: its four fields, and what they are laid out by.
#[derive(Clone, Copy)]
pub struct Pair<'f, 'm> {
    pub first: Frame<'f>,
    pub second: Frame<'f>,
    pub fields: [&'m [u16]; 4],
    pub grid: Grid,
}

// The numbers of a call: the pairs before, luma's size and the ratio.
#[derive(Clone, Copy)]
pub struct Numbers {
    pub pairs: usize,
    pub width: usize,
    pub height: usize,
    pub ratio: usize,
}

// The pitches of byte planes.
fn pitched(views: &[View], width: usize) -> bool
    ensures { result ≡ list_all (λ v. is_pitch v.pitch width) views.now }
{
    views.iter().all(|view| plane::pitched(view.pitch, width))
}

// And their lengths.
fn planed(views: &[View], width: usize, height: usize) -> bool
    ensures { result ≡ list_all (λ v. is_plane (plane_by v) (width, height)) views.now }
{
    views.iter().all(|view| plane::planed(view.bytes.len(), view.pitch, width, height))
}

// The tests of a pair, in the order of the table: its planes, whether the sums are right, and its motion.
#[tactic(auto, unfolding(rules::specs::Refusals::first_fitting, rules::specs::Forms::each))]
pub fn pair_refusal(sums: bool, pair: Pair, numbers: Numbers) -> Result<(), Refusal>
    ensures { (rows : Table)
        → first_fitting (pair_rows (call_by absent pair.entry numbers) sums rows)
        ≡ number_or result (first_fitting rows) }
{
    let Numbers {
        width,
        height,
        ratio,
        ..
    } = numbers;
    let Pair { first, second, .. } = pair;
    let lumas = [first.luma, second.luma];
    let chromas = [first.chroma1, first.chroma2, second.chroma1, second.chroma2];
    let across = plane::divided(width, ratio);
    let down = plane::divided(height, ratio);
    plane::ensure(plane::sizes(width, height), Refusal::Size)?;
    plane::ensure(plane::ratioed(ratio, width, height), Refusal::Ratio)?;
    plane::ensure(pitched(&lumas, width), Refusal::Pitch)?;
    plane::ensure(pitched(&chromas, across), Refusal::Pitch)?;
    plane::ensure(planed(&lumas, width, height), Refusal::Length)?;
    plane::ensure(planed(&chromas, across, down), Refusal::Length)?;
    plane::ensure(sums, Refusal::Length)?;
    motion_limits::motion_refusal(pair.fields, pair.grid)
}

// The tests of a call, in the order of the table.
#[tactic(auto, unfolding(rules::specs::Refusals::stats_refusal, rules::specs::Refusals::first_fitting))]
pub fn stats_refusal(
    luma: &[f32],
    chroma1: &[f32],
    chroma2: &[f32],
    pair: Pair,
    numbers: Numbers,
) -> Result<(), Refusal>
    ensures { numbered result ≡ stats_refusal (stats_by luma.now chroma1.now chroma2.now pair.entry numbers) }
{
    let sums = plane::exact_planes(
        luma.len(),
        chroma1.len(),
        chroma2.len(),
        6,
        numbers.width,
        numbers.height,
        numbers.ratio,
    );
    pair_refusal(sums, pair, numbers)?;
    plane::ensure(numbers.pairs <= 11, Refusal::Pairs)
}
