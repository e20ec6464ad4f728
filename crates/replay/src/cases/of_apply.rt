// The cases of apply.
use crate::case::{Case, Rooms};
use crate::check::Check;

// Runs one and compares what it answers and leaves.
pub fn run<'a>(case: Case<'a>, rooms: &mut Rooms) -> Check<'a> {
    load!(case, rooms.bytes, 0 => output);
    let ours = host::safeteal_apply(
        output,
        case.size(0),
        case.bytes(1),
        case.bytes(2),
        case.size(1),
        case.size(2),
        case.size(3),
        case.bytes(3),
        case.size(4),
        case.float(5),
    );
    Check::answer(case, 4, ours).slice(output)
}
