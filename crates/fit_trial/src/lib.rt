// The three trials at a luma pixel, and what is picked of them, from its sums in the previous, own and next part.
#![tactic(auto)]

ghost use Rattle.std.specs.Prelude.{◌≡◌};
ghost use Rattle.rules.specs.Model.{spread as spread_of, same as same_of, left as left_of, trust as trust_of};
ghost use Rattle.rules.specs.Window.{count, total, totals, better as better_of, found as found_of, pick as pick_of};
ghost use Rattle.fit_total.specs.Around.{around};
ghost use Rattle.fit_trial.specs.Judged.{Modelled, all_plain, judged_of, best_of};

use fit_total::Window;
use rules::{Best, Found, Model, Spread, Trial};

// What is looked for: the limit (`fit` is lent it, and squares it for the window and the trials), the
// evidence figure, and whether strict models go first.
#[derive(Clone, Copy)]
pub struct Settings {
    pub limit: f32,
    pub evidence: f32,
    pub strict: bool,
}

// The models of the three trials.
// Kept: (d) three fields by the names of the trials; an array of three would name them by numbers, and each place that
// reads a trial's model would have to make a number of the trial.
#[derive(Clone, Copy)]
pub struct Trials {
    pub all: Model,
    pub earlier: Model,
    pub later: Model,
}

// Means, variances and covariance of a trial.
#[tactic(auto, unfolding(rules::specs::Window::total))]
fn spread(window: &Window, trial: Trial) -> Spread
    ensures { result ≡ spread_of (totals (around window.now) trial 0) (total (around window.now) trial count) }
{
    fit_model::spread(window.totals(trial), window.counts.samples(trial))
}

// How far a trial's line is trusted.
fn trust(spread: Spread, line: Model, settings: Settings) -> f32
    ensures { result ≡ trust_of (same_of spread) (left_of spread line.gain) settings.limit settings.strict }
{
    fit_model::trust(
        fit_model::same(spread),
        fit_model::left(spread, line.gain),
        settings.limit,
        settings.strict,
    )
}

// `model` for each trial, step by step side by side.
// Kept: (b) three calls of `model`, one for each trial, are not drawn in: fit of 64 by 64 pixels with an evidence
// figure of 0 takes twice the time so.
#[tactic(auto, unfolding(rules::specs::Model::model, rules::specs::Window::tried))]
fn models(window: &Window, settings: Settings) -> Trials
    ensures { Modelled (around window.now) settings.limit settings.strict result }
{
    let all = spread(window, Trial::All);
    let earlier = spread(window, Trial::PreviousOwn);
    let later = spread(window, Trial::OwnNext);
    let all_line = fit_model::line(all);
    let earlier_line = fit_model::line(earlier);
    let later_line = fit_model::line(later);
    let all_trust = trust(all, all_line, settings);
    let earlier_trust = trust(earlier, earlier_line, settings);
    let later_trust = trust(later, later_line, settings);
    Trials {
        all: fit_model::blend(all_line, all_trust),
        earlier: fit_model::blend(earlier_line, earlier_trust),
        later: fit_model::blend(later_line, later_trust),
    }
}

// Whether all are (1, 0): then so is the best, and nothing is found.
fn all_plain(trials: Trials) -> bool
    ensures { result ≡ all_plain trials }
{
    fit_model::plain(trials.all) & fit_model::plain(trials.earlier) & fit_model::plain(trials.later)
}

// A trial with its model's error on the own part.
#[tactic(auto, unfolding(crate::specs::Judged::judged_of, rules::specs::Window::total))]
fn judged(window: &Window, model: Model, trial: Trial) -> Best
    ensures { result ≡ judged_of (around window.now) model trial }
{
    let own = window.own;
    let added = window.counts.added(trial);
    Best {
        model,
        error: fit_model::error(own, window.counts.here, model),
        trial,
        seen: added.total(window.previous.apart, own.apart, window.next.apart),
    }
}

// The better of two trials.
#[tactic(auto, unfolding(rules::specs::Window::better))]
fn better(best: Best, later: Best) -> Best
    ensures { result ≡ better_of best later }
{
    if later.error * 1.15 + 2.0 < best.error {
        later
    } else {
        best
    }
}

// The best of the three, in order.
#[tactic(auto, unfolding(crate::specs::Judged::best_of))]
fn best(window: &Window, trials: Trials) -> Best
    ensures { result ≡ best_of (around window.now) trials }
{
    let all = judged(window, trials.all, Trial::All);
    let earlier = judged(window, trials.earlier, Trial::PreviousOwn);
    let later = judged(window, trials.later, Trial::OwnNext);
    better(better(all, earlier), later)
}

// The best trial, if it is found.
#[tactic(auto, unfolding(rules::specs::Window::found))]
fn found(same: f32, evidence: f32, best: Best) -> Found
    ensures { result ≡ found_of same evidence best }
{
    let near = best.error < 1.7 * same + 4.0;
    let shown = evidence <= best.seen;
    if near & !fit_model::plain(best.model) & shown {
        Found::At(best.model, best.trial)
    } else {
        Found::Nothing
    }
}

// The Rust's `pick`.
pub fn pick(window: &Window, settings: Settings) -> Found
    ensures { result ≡ pick_of (around window.now) 0 settings.limit settings.evidence settings.strict }
{
    let trials = models(window, settings);
    if all_plain(trials) {
        return Found::Nothing;
    }
    let own = window.own;
    let same = (own.ii - 2.0 * own.pi + own.pp) / window.counts.here;
    found(same, settings.evidence, best(window, trials))
}
