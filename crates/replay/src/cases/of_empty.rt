// The cases of empty.
use crate::case::{Case, Rooms};
use crate::check::Check;

// Runs one and compares what it answers and leaves.
pub fn run<'a>(case: Case<'a>, rooms: &mut Rooms) -> Check<'a> {
    load!(case, rooms.numbers, 0 => luma, 1 => chroma1, 2 => chroma2);
    let ours = host::safeteal_empty(
        luma,
        chroma1,
        chroma2,
        case.size(0),
        case.size(1),
        case.size(2),
        case.size(3),
        case.size(4),
    );
    Check::answer(case, 3, ours)
}
