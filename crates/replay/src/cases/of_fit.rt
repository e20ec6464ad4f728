// The cases of fit.
use crate::case::{Case, Rooms};
use crate::check::Check;

// Runs one and compares what it answers and leaves.
pub fn run<'a>(case: Case<'a>, rooms: &mut Rooms) -> Check<'a> {
    load!(case, rooms.previous, 0 => previous_luma, 1 => previous_chroma1, 2 => previous_chroma2);
    load!(case, rooms.own, 3 => own_luma, 4 => own_chroma1, 5 => own_chroma2);
    load!(case, rooms.next, 6 => next_luma, 7 => next_chroma1, 8 => next_chroma2);
    let models = case.load(9, &mut rooms.models);
    load!(case, rooms.bytes, 10 => kept, 11 => cover);
    load!(case, rooms.numbers, 12 => luma, 13 => chroma1, 14 => chroma2);
    let ours = host::safeteal_fit(
        previous_luma,
        previous_chroma1,
        previous_chroma2,
        case.size(0),
        own_luma,
        own_chroma1,
        own_chroma2,
        case.size(1),
        next_luma,
        next_chroma1,
        next_chroma2,
        case.size(2),
        case.size(3),
        case.size(4),
        case.float(5),
        case.float(6),
        case.flag(7),
        case.size(8),
        models,
        kept,
        cover,
        luma,
        chroma1,
        chroma2,
    );
    let check = Check::answer(case, 15, ours);
    let work = check.slice(models).slice(kept).slice(cover);
    check
        .unless_free(work, ours)
        .slice(luma)
        .slice(chroma1)
        .slice(chroma2)
}
