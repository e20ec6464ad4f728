// Slices of a case that a call may write or that hold other numbers than bytes, each copied into a room of its own.
macro_rules! load {
    ($case:ident, $rooms:expr, $($k:literal => $name:ident),*) => {
        let ($($name,)* ..) = &mut $rooms;
        $(let $name = $case.load($k, $name);)*
    };
}

pub mod of_apply;
pub mod of_assemble;
pub mod of_distances;
pub mod of_empty;
pub mod of_fit;
pub mod of_hold;
pub mod of_mask;
pub mod of_peel;
pub mod of_peel_numbers;
pub mod of_render;
pub mod of_stats;
pub mod of_unpeel;
pub mod of_unpeel_numbers;
