// The cases of assemble.
use crate::case::{Case, Rooms};
use crate::check::Check;

// Runs one and compares what it answers and leaves.
pub fn run<'a>(case: Case<'a>, rooms: &mut Rooms) -> Check<'a> {
    let models = case.load(0, &mut rooms.models);
    load!(case, rooms.numbers, 2 => luma, 3 => chroma1, 4 => chroma2);
    let ours = host::safeteal_assemble(
        case.size(0),
        case.size(1),
        case.size(2),
        models,
        case.bytes(1),
        luma,
        chroma1,
        chroma2,
    );
    Check::answer(case, 5, ours)
        .slice(luma)
        .slice(chroma1)
        .slice(chroma2)
}
