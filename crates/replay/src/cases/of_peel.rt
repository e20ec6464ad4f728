// The cases of peel.
use crate::case::{Case, Rooms};
use crate::check::Check;

// Runs one and compares what it answers and leaves.
pub fn run<'a>(case: Case<'a>, rooms: &mut Rooms) -> Check<'a> {
    load!(case, rooms.bytes, 3 => output);
    let ours = host::safeteal_peel(
        case.bytes(0),
        case.bytes(1),
        case.bytes(2),
        case.size(0),
        case.size(1),
        case.size(2),
        case.size(3),
        case.size(4),
        case.size(5),
        output,
        case.size(6),
        case.bytes(4),
        case.size(7),
    );
    Check::answer(case, 5, ours).slice(output)
}
