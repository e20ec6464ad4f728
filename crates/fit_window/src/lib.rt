// What is found at a luma pixel of three lent parts, and the chroma offsets there.
#![tactic(auto)]

ghost use Rattle.std.specs.Prelude.{◌≡◌, ◌+◌, ◌*◌, ◌≤◌, length};
ghost use Rattle.rules.specs.Window.{window as window_of, chroma_offset};
ghost use Rattle.fit_total.specs.Around.{plane_parts};
ghost use Rattle.fit_total.specs.Alike.{Long, Alike};
ghost use Rattle.fit_window.specs.Read.{sums_at, sums_of, shown_of, offsets_of};

use fit_total::{Counts, Plane};
use fit_trial::Settings;
use rules::{Found, Sums, Trial};

// Three parts as they are lent: their sums, plane by plane, and their counts.
#[derive(Clone, Copy)]
pub struct Lent<'l> {
    pub luma: Plane<'l>,
    pub chroma1: Plane<'l>,
    pub chroma2: Plane<'l>,
    pub counts: Counts,
    pub ghost luma_alike: { Alike counts luma },
    pub ghost chroma1_alike: { Alike counts chroma1 },
    pub ghost chroma2_alike: { Alike counts chroma2 },
    pub ghost as_long: { length chroma1.own.now ≤ length chroma2.own.now },
}

// The offsets of planes 1 and 2.
#[derive(Clone, Copy)]
pub struct Offsets {
    pub first: f32,
    pub second: f32,
}

// A part's six sums at a pixel.
fn sums_at(sums: &[f32], at: usize) -> Sums
    requires { at * 6 + 6 ≤ length sums.now }
    ensures { result ≡ sums_at sums.now at }
{
    let k = at * 6;
    Sums {
        p: sums[k],
        i: sums[k + 1],
        pp: sums[k + 2],
        pi: sums[k + 3],
        ii: sums[k + 4],
        apart: sums[k + 5],
    }
}

// Those of a neighbour.
fn sums_of(sums: &[f32], at: usize, pairs: usize) -> Sums
    requires { Long pairs sums.now (at * 6 + 6) }
    ensures { result ≡ sums_of pairs sums.now at }
{
    if pairs != 0 {
        sums_at(sums, at)
    } else {
        Sums::default()
    }
}

// A trial's offset of one chroma plane at chroma pixel `at`.
#[tactic(auto, unfolding(rules::specs::Window::chroma_offset, rules::specs::Window::total))]
fn chroma_offset(counts: Counts, plane: Plane, trial: Trial, gain: f32, at: usize) -> f32
    requires alike { Alike counts plane }
    requires inside { at * 2 + 2 ≤ length plane.own.now }
    ensures { result ≡ chroma_offset (plane_parts plane.entry counts) trial gain (λ p. p.luma) at }
{
    let k = at * 2;
    let first = counts.total_at(plane, trial, k);
    let second = counts.total_at(plane, trial, k + 1);
    (second - gain * first) / counts.samples(trial)
}

impl Lent<'_> {
    ghost use Rattle.fit_window.specs.Lent.{parts_lent};

    // Whether a trial reaches the evidence figure: where none does, nothing is found.
    #[tactic(auto, unfolding(crate::specs::Read::shown_of, rules::specs::Window::total))]
    fn shown(&self, at: usize, evidence: f32) -> bool
        requires { at * 6 + 6 ≤ length self.now.luma.own.now }
        ensures { result ≡ shown_of (parts_lent self.now) at evidence }
    {
        let k = at * 6 + 5;
        evidence <= self.counts.total_at(self.luma, Trial::All, k)
            || evidence <= self.counts.total_at(self.luma, Trial::PreviousOwn, k)
            || evidence <= self.counts.total_at(self.luma, Trial::OwnNext, k)
    }

    // What is found at luma pixel `at`. The limit is squared already.
    pub fn window(&self, at: usize, settings: Settings) -> Found
        requires { at * 6 + 6 ≤ length self.now.luma.own.now }
        ensures { result ≡ window_of (parts_lent self.now) at settings.limit settings.evidence settings.strict }
    {
        if !self.shown(at, settings.evidence) {
            return Found::Nothing;
        }
        let counts = &self.counts;
        let sums = fit_total::Window {
            previous: sums_of(self.luma.previous, at, counts.previous),
            own: sums_at(self.luma.own, at),
            next: sums_of(self.luma.next, at, counts.next),
            counts,
        };
        fit_search::search(&sums, settings)
    }

    // A trial's offsets at chroma pixel `at`.
    #[tactic(auto, unfolding(rules::specs::Window::chroma_offset, rules::specs::Window::total))]
    pub fn offsets_of(&self, trial: Trial, gain: f32, at: usize) -> Offsets
        requires { at * 2 + 2 ≤ length self.now.chroma1.own.now }
        ensures { result ≡ offsets_of (parts_lent self.now) trial gain at }
    {
        Offsets {
            first: chroma_offset(self.counts, self.chroma1, trial, gain, at),
            second: chroma_offset(self.counts, self.chroma2, trial, gain, at),
        }
    }
}
