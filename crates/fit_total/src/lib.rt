// Totals over the three parts of a window: what their pixels share, and what a trial adds up.
#![tactic(auto)]

ghost use Rattle.std.specs.Prelude.{◌≡◌, ◌&&◌, not, cond, ℕ, [], ◌+◌, ◌≤◌, eqb, length, get_or};
ghost use Rattle.std.specs.Float.{nan};
ghost use Rattle.rules.specs.Window.{count, present, plus as plus_of, has_previous, has_next, total};
ghost use Rattle.rules.specs.Literals.{0·0};
ghost use Rattle.calls.specs.Lent.{listed};
ghost use Rattle.fit_total.specs.Counted.{luma_part, parts_by, totals_of, Counted};

use rules::{Sums, Trial};

// What the pixels of a call share.
#[derive(Clone, Copy)]
pub struct Counts {
    // the pairs of each part, 0 for an absent neighbour
    pub previous: usize,
    pub own: usize,
    pub next: usize,
    // their samples
    pub before: f32,
    pub here: f32,
    pub after: f32,
    // the samples of each trial
    pub all: f32,
    pub earlier: f32,
    pub later: f32,
    pub ghost counted: { Counted previous own next before here after all earlier later },
}

// Which neighbours are added to the own part.
#[derive(Clone, Copy)]
pub struct Added {
    pub before: bool,
    pub after: bool,
}

// The sums of a pixel in the previous, own and next part, and the counts of these, which all pixels share.
#[derive(Clone, Copy)]
pub struct Window<'w> {
    pub previous: Sums,
    pub own: Sums,
    pub next: Sums,
    pub counts: &'w Counts,
}

// A plane's sums in the previous, own and next part.
#[derive(Clone, Copy)]
pub struct Plane<'p> {
    pub previous: &'p [f32],
    pub own: &'p [f32],
    pub next: &'p [f32],
}

// An entry of a part's slice. That of an absent part is not read.
fn entry(entries: &[f32], k: usize, pairs: usize) -> f32
    requires { 1 ≤ pairs → k + 1 ≤ length entries.now }
    ensures { result ≡ cond (not (eqb pairs 0)) (get_or entries.now k nan) 0·0 }
{
    if pairs != 0 { entries[k] } else { 0.0 }
}

// A total with one number more, or passed over.
fn plus(adds: bool, total: f32, term: f32) -> f32
    ensures { result ≡ plus_of adds total term }
{
    if adds { total + term } else { total }
}

impl Added {
    ghost use Rattle.fit_total.specs.Around.{total_of};

    // A total in part order from 0.0, the neighbours' terms added or passed over.
    pub fn total(self, previous: f32, own: f32, next: f32) -> f32
        ensures { result ≡ total_of self.before self.after previous own next }
    {
        plus(self.after, plus(self.before, 0.0, previous) + own, next)
    }
}

// Whether a trial adds the previous part, if there is one.
pub fn adds_previous(trial: Trial, pairs: usize) -> bool
    ensures { result ≡ (has_previous trial && present (luma_part [] pairs)) }
{
    match trial {
        Trial::All => pairs != 0,
        Trial::PreviousOwn => pairs != 0,
        Trial::OwnNext => false,
    }
}

// And the next.
pub fn adds_next(trial: Trial, pairs: usize) -> bool
    ensures { result ≡ (has_next trial && present (luma_part [] pairs)) }
{
    match trial {
        Trial::All => pairs != 0,
        Trial::PreviousOwn => false,
        Trial::OwnNext => pairs != 0,
    }
}

// Which neighbours a trial adds, of parts of so many pairs.
fn neighbours(previous: usize, next: usize, trial: Trial) -> Added
    ensures before { result.before ≡ (has_previous trial && not (eqb previous 0)) }
    ensures after { result.after ≡ (has_next trial && not (eqb next 0)) }
{
    Added {
        before: adds_previous(trial, previous),
        after: adds_next(trial, next),
    }
}

// The six totals of a trial, of a pixel's sums in three parts. The neighbours have `before` and `after` pairs.
#[inline(always)]
#[tactic(auto, unfolding(rules::specs::Window::total))]
pub fn totals(
    previous: Sums,
    own: Sums,
    next: Sums,
    before: usize,
    after: usize,
    trial: Trial,
) -> Sums
    ensures { (here : ℕ)
        → result ≡ totals_of (parts_by (listed previous) (listed own) (listed next) before here after) trial 0 }
{
    let added = neighbours(before, after, trial);
    Sums {
        p: added.total(previous.p, own.p, next.p),
        i: added.total(previous.i, own.i, next.i),
        pp: added.total(previous.pp, own.pp, next.pp),
        pi: added.total(previous.pi, own.pi, next.pi),
        ii: added.total(previous.ii, own.ii, next.ii),
        apart: added.total(previous.apart, own.apart, next.apart),
    }
}

// A trial's total of entry k of a plane's slices. The neighbours have `before` and `after` pairs.
#[inline(always)]
#[tactic(auto, unfolding(rules::specs::Window::total))]
pub fn total_at(plane: Plane, before: usize, after: usize, trial: Trial, k: usize) -> f32
    requires before { 1 ≤ before → k + 1 ≤ length plane.previous.now }
    requires inside { k + 1 ≤ length plane.own.now }
    requires after { 1 ≤ after → k + 1 ≤ length plane.next.now }
    ensures { (here : ℕ) → let lent = plane.entry in
        result ≡ total (parts_by lent.previous.now lent.own.now lent.next.now before here after) trial (λ p. get_or p.luma k nan) }
{
    let previous = entry(plane.previous, k, before);
    let next = entry(plane.next, k, after);
    neighbours(before, after, trial).total(previous, plane.own[k], next)
}

// The counts of parts of so many pairs.
#[tactic(auto, unfolding(rules::specs::Window::total))]
pub fn counts_of(previous: usize, own: usize, next: usize) -> Counts
    requires before { previous ≤ 12 }
    requires here { own ≤ 12 }
    requires after { next ≤ 12 }
    ensures before { result.previous ≡ previous }
    ensures here { result.own ≡ own }
    ensures after { result.next ≡ next }
{
    let before = float::of_size(previous * 2);
    let here = float::of_size(own * 2);
    let after = float::of_size(next * 2);
    Counts {
        previous,
        own,
        next,
        before,
        here,
        after,
        all: neighbours(previous, next, Trial::All).total(before, here, after),
        earlier: neighbours(previous, next, Trial::PreviousOwn).total(before, here, after),
        later: neighbours(previous, next, Trial::OwnNext).total(before, here, after),
    }
}

impl Counts {
    ghost use Rattle.fit_total.specs.Around.{luma_parts, plane_parts, added_of};
    ghost use Rattle.fit_total.specs.Alike.{Alike};

    // Which neighbours a trial adds, of those that are there.
    pub fn added(&self, trial: Trial) -> Added
        ensures { result ≡ added_of self.now trial }
    {
        neighbours(self.previous, self.next, trial)
    }

    // The samples of a trial.
    pub fn samples(&self, trial: Trial) -> f32
        ensures { result ≡ total (luma_parts [] [] [] self.now) trial count }
    {
        match trial {
            Trial::All => self.all,
            Trial::PreviousOwn => self.earlier,
            Trial::OwnNext => self.later,
        }
    }

    // A trial's total of entry k of a plane's slices.
    pub fn total_at(&self, plane: Plane, trial: Trial, k: usize) -> f32
        requires alike { Alike self.now plane }
        requires inside { k + 1 ≤ length plane.own.now }
        ensures { result ≡ total (plane_parts plane.entry self.now) trial (λ p. get_or p.luma k nan) }
    {
        total_at(plane, self.previous, self.next, trial, k)
    }
}

impl Window<'_> {
    ghost use Rattle.fit_total.specs.Around.{around};

    // The six totals of a trial.
    pub fn totals(&self, trial: Trial) -> Sums
        ensures { result ≡ totals_of (around self.now) trial 0 }
    {
        let counts = self.counts;
        totals(
            self.previous,
            self.own,
            self.next,
            counts.previous,
            counts.next,
            trial,
        )
    }
}
