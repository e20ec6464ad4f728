// What is found of a pixel's sums in three parts: the strict pick, and what it falls back to.
#![tactic(auto)]

ghost use Rattle.std.specs.Prelude.{◌≡◌, ◌||◌, []};
ghost use Rattle.rules.specs.Window.{count, strictly_set, window as window_of};
ghost use Rattle.calls.specs.Lent.{listed};
ghost use Rattle.fit_total.specs.Around.{around};
ghost use Rattle.fit_total.specs.Counted.{luma_part};
ghost use Rattle.fit_search.specs.Second.{second_of};

use fit_total::Window;
use fit_trial::Settings;
use rules::{Found, Sums};

// Whether a part's own strict model is set.
fn strictly_set(sums: Sums, pairs: usize, samples: f32, limit: f32) -> bool
    requires { samples ≡ count (luma_part [] pairs) }
    ensures { result ≡ strictly_set 0 limit (luma_part (listed sums) pairs) }
{
    pairs != 0 && fit_model::set(fit_model::model(sums, samples, limit, true))
}

// Whether that of a neighbour is.
fn near(window: &Window, limit: f32) -> bool
    ensures { result
        ≡ (strictly_set 0 limit (luma_part (listed window.now.previous) window.now.counts.now.previous) || strictly_set 0 limit (luma_part (listed window.now.next) window.now.counts.now.next)) }
{
    let counts = window.counts;
    strictly_set(window.previous, counts.previous, counts.before, limit)
        || strictly_set(window.next, counts.next, counts.after, limit)
}

// The plain pick, where a neighbour is strictly set.
#[tactic(auto, unfolding(crate::specs::Second::second_of))]
fn second(window: &Window, settings: Settings) -> Found
    ensures { result ≡ second_of (around window.now) settings.limit settings.evidence }
{
    if near(window, settings.limit) {
        let plain = Settings {
            strict: false,
            ..settings
        };
        fit_trial::pick(window, plain)
    } else {
        Found::Nothing
    }
}

// What is found, the strict pick first where it is asked for.
#[tactic(auto, unfolding(rules::specs::Window::window, crate::specs::Second::second_of))]
pub fn search(window: &Window, settings: Settings) -> Found
    ensures { result ≡ window_of (around window.now) 0 settings.limit settings.evidence settings.strict }
{
    let found = fit_trial::pick(window, settings);
    match found {
        Found::Nothing if settings.strict => second(window, settings),
        _ => found,
    }
}
