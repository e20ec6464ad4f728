// The cases of mask.
use crate::case::{Case, Rooms};
use crate::check::Check;

// Runs one and compares what it answers and leaves.
pub fn run<'a>(case: Case<'a>, rooms: &mut Rooms) -> Check<'a> {
    load!(case, rooms.bytes, 2 => still);
    let ours = host::safeteal_mask(
        case.bytes(0),
        case.bytes(1),
        case.size(0),
        case.size(1),
        case.size(2),
        case.float(3),
        case.float(4),
        case.float(5),
        still,
    );
    Check::answer(case, 3, ours).slice(still)
}
