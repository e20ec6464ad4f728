// The calls that the list has cases of.
use crate::case::{Case, Rooms};
use crate::cases::*;
use crate::check::Check;

// A call; its number in the list is its place here.
// Kept: (a) four lists of the calls: no macro of the language writes an enum, and the gate refuses impls by macros of
// the repository's own.
#[derive(Clone, Copy)]
pub enum Call {
    Distances,
    Mask,
    Apply,
    Hold,
    Peel,
    Unpeel,
    PeelNumbers,
    UnpeelNumbers,
    Empty,
    Stats,
    Assemble,
    Fit,
    Render,
}

impl Call {
    // All of them, in the order of their numbers.
    pub const ALL: [Call; 13] = [
        Call::Distances,
        Call::Mask,
        Call::Apply,
        Call::Hold,
        Call::Peel,
        Call::Unpeel,
        Call::PeelNumbers,
        Call::UnpeelNumbers,
        Call::Empty,
        Call::Stats,
        Call::Assemble,
        Call::Fit,
        Call::Render,
    ];

    pub fn name(self) -> &'static str {
        match self {
            Call::Distances => "distances",
            Call::Mask => "mask",
            Call::Apply => "apply",
            Call::Hold => "hold",
            Call::Peel => "peel",
            Call::Unpeel => "unpeel",
            Call::PeelNumbers => "peel_numbers",
            Call::UnpeelNumbers => "unpeel_numbers",
            Call::Empty => "empty",
            Call::Stats => "stats",
            Call::Assemble => "assemble",
            Call::Fit => "fit",
            Call::Render => "render",
        }
    }

    // Runs a case of it.
    pub fn run<'a>(self, case: Case<'a>, rooms: &mut Rooms) -> Check<'a> {
        match self {
            Call::Distances => of_distances::run(case, rooms),
            Call::Mask => of_mask::run(case, rooms),
            Call::Apply => of_apply::run(case, rooms),
            Call::Hold => of_hold::run(case, rooms),
            Call::Peel => of_peel::run(case, rooms),
            Call::Unpeel => of_unpeel::run(case, rooms),
            Call::PeelNumbers => of_peel_numbers::run(case, rooms),
            Call::UnpeelNumbers => of_unpeel_numbers::run(case, rooms),
            Call::Empty => of_empty::run(case, rooms),
            Call::Stats => of_stats::run(case, rooms),
            Call::Assemble => of_assemble::run(case, rooms),
            Call::Fit => of_fit::run(case, rooms),
            Call::Render => of_render::run(case, rooms),
        }
    }
}
