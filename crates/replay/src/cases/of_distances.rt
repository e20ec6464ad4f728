// The cases of distances.
use crate::case::{Case, Rooms};
use crate::check::Check;

// Runs one and compares what it answers and leaves.
pub fn run<'a>(case: Case<'a>, rooms: &mut Rooms) -> Check<'a> {
    load!(case, rooms.bytes, 0 => cells);
    let ours = host::safeteal_distances(cells, case.size(0));
    Check::answer(case, 1, ours).slice(cells)
}
