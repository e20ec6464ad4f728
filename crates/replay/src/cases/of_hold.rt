// The cases of hold.
use crate::case::{Case, Rooms};
use crate::check::Check;

// Runs one and compares what it answers and leaves.
pub fn run<'a>(case: Case<'a>, rooms: &mut Rooms) -> Check<'a> {
    load!(case, rooms.bytes, 0 => output);
    let ours = host::safeteal_hold(
        output,
        case.size(0),
        case.bytes(1),
        case.size(1),
        case.size(2),
        case.size(3),
        case.bytes(2),
        case.size(4),
    );
    Check::answer(case, 3, ours).slice(output)
}
