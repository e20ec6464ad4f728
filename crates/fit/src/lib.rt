// Fit: the window, keeping, distances and assembly, one after the other. The nine slices `sums` are luma's and those of
// planes 1 and 2 of the previous part, of the own and of the next; `pairs` are the pairs of these parts.
#![tactic(auto)]

ghost use Rattle.std.specs.Prelude.{◌≡◌};
ghost use Rattle.rules.specs.Refusals.{fit_refusal};
ghost use Rattle.rules.specs.Fit.{fit_leaves};
ghost use Rattle.calls.specs.Lent.{fit_of};
ghost use Rattle.assemble_store.specs.Entries.{Stored};
ghost use Rattle.fit_refuse.specs.Call.{parts_by, fit_by};
ghost use Rattle.fit.specs.Call.{Asks, Modelled, FitAnswered};

use assemble_offsets::Sizes;
use fit_refuse::Numbers;
use fit_rough::Search;
use fit_total::Plane;
use fit_trial::Settings;
use fit_window::Lent;
use rules::Refusal;

// The models and the cover: searched, kept, and with distances.
// Kept: (a) nine slices in the order of the exported call, as the contracts of the evidence name them.
fn fitted(
    models: &mut [f32],
    kept: &mut [u8],
    cover: &mut [u8],
    sums: [&[f32]; 9],
    sizes: Sizes,
    pairs: [usize; 3],
    settings: Settings,
)
    requires { Asks (parts_by sums pairs) sizes models.old kept.old cover.old }
    ensures { Modelled (parts_by sums.entry pairs) sizes settings models.new cover.new }
{
    let lent = Lent {
        luma: Plane {
            previous: sums[0],
            own: sums[3],
            next: sums[6],
        },
        chroma1: Plane {
            previous: sums[1],
            own: sums[4],
            next: sums[7],
        },
        chroma2: Plane {
            previous: sums[2],
            own: sums[5],
            next: sums[8],
        },
        counts: fit_total::counts_of(pairs[0], pairs[1], pairs[2]),
    };
    let squared = Settings {
        limit: settings.limit * settings.limit,
        ..settings
    };
    let search = Search {
        lent,
        sizes,
        settings: squared,
    };
    search.rows(models, kept);
    fit_keep::keep(models, kept, cover, sizes.width, sizes.height);
    // some cell lies along each side: the distances are not refused
    let _ = distances::distances(cover, table::cells(sizes.width));
}

// Fits what is not refused.
// Kept: (a) nine slices in the order of the exported call, as the contracts of the evidence name them.
pub fn made(
    models: &mut [f32],
    kept: &mut [u8],
    cover: &mut [u8],
    luma: &mut [i16],
    chroma1: &mut [i16],
    chroma2: &mut [i16],
    sums: [&[f32]; 9],
    numbers: Numbers,
)
    requires { fit_refusal (fit_by sums numbers models.old kept.old cover.old (fit_of luma.old chroma1.old chroma2.old)) ≡ 0 }
    ensures { Stored (fit_leaves (fit_by sums.entry numbers models.old kept.old cover.old
        (fit_of luma.old chroma1.old chroma2.old)))
        luma.new chroma1.new chroma2.new }
{
    let sizes = assemble::sizes_of(numbers.width, numbers.height, numbers.ratio);
    let pairs = numbers.pairs;
    fitted(models, kept, cover, sums, sizes, pairs, numbers.settings);
    assemble_store::store(luma, chroma1, chroma2, sizes, models, cover);
}

// Fits, or refuses: the contract is the equation for both.
// Kept: (a) nine slices in the order of the exported call, as the contracts of the evidence name them.
pub fn fit(
    models: &mut [f32],
    kept: &mut [u8],
    cover: &mut [u8],
    luma: &mut [i16],
    chroma1: &mut [i16],
    chroma2: &mut [i16],
    sums: [&[f32]; 9],
    numbers: Numbers,
) -> Result<(), Refusal>
    ensures { FitAnswered (fit_by sums.entry numbers models.old kept.old cover.old
        (fit_of luma.old chroma1.old chroma2.old))
        models.new kept.new cover.new luma.new chroma1.new chroma2.new result }
{
    fit_refuse::tested(models, kept, cover, luma, chroma1, chroma2, sums, numbers)?;
    made(models, kept, cover, luma, chroma1, chroma2, sums, numbers);
    Ok(())
}
