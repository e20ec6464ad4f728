// The cases of render.
use crate::case::{Case, Rooms};
use crate::check::Check;

// Runs one and compares what it answers and leaves.
pub fn run<'a>(case: Case<'a>, rooms: &mut Rooms) -> Check<'a> {
    load!(case, rooms.numbers, 0 => luma, 1 => chroma1, 2 => chroma2);
    load!(case, rooms.bytes, 3 => output);
    load!(case, rooms.motion, 6 => forward_x, 7 => forward_y, 8 => backward_x, 9 => backward_y);
    let ours = host::safeteal_render(
        luma,
        chroma1,
        chroma2,
        case.size(0),
        case.size(1),
        case.size(2),
        case.size(3),
        case.size(4),
        case.size(5),
        output,
        case.size(6),
        case.bytes(4),
        case.size(7),
        case.bytes(5),
        case.size(8),
        case.float(9),
        forward_x,
        forward_y,
        backward_x,
        backward_y,
        case.size(10),
        case.size(11),
        case.int(12),
        case.int(13),
        case.int(14),
        case.int(15),
        case.int(16),
        case.int(17),
    );
    Check::answer(case, 10, ours).slice(output)
}
