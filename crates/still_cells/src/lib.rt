// The mask cells of a pixel: the steps from pixels to cells, and the sum of a pixel's cells.
#![tactic(auto)]

ghost use Rattle.std.specs.Prelude.{◌≡◌, ℕ, ◌&&◌, ◌+◌, ◌*◌, ◌/◌, ◌≤◌, leb};
ghost use Rattle.rules.specs.Domain.{are_steps};
ghost use Rattle.calls.specs.Lent.{mask_of};
ghost use Rattle.still_cells.specs.Cells.{sum_of, steps_of, PixelCells};

// The numbers of a call of hold or apply: the plane's width and height, the pitch of what is read and that of the
// output, and the mask's width.
#[derive(Clone, Copy)]
pub struct Numbers {
    pub width: usize,
    pub height: usize,
    pub pitch: usize,
    pub output_pitch: usize,
    pub mask_width: usize,
}

// How many mask cells a pixel has across and down. What is a constant of these is compiled apart: a row of a pixel's
// cells is then summed without a loop.
pub trait Cells: Copy {
    ghost across: { Self → ℕ };

    ghost down: { Self → ℕ };

    // Whether a pixel that stays is passed over. Where it isn't, as where both are constants, a row is a loop without a
    // branch.
    const SKIPS: bool;

    fn across(self) -> usize
        ensures { result ≡ across self };

    fn down(self) -> usize
        ensures { result ≡ down self };
}

// Any numbers.
#[derive(Clone, Copy)]
pub struct Steps {
    pub across: usize,
    pub down: usize,
}

impl Cells for Steps {
    ghost across = { λ s. s.across };

    ghost down = { λ s. s.down };

    const SKIPS: bool = true;

    fn across(self) -> usize {
        self.across
    }

    fn down(self) -> usize {
        self.down
    }
}

// A constant across, and any number down.
#[derive(Clone, Copy)]
pub struct Rows<const ACROSS: usize> {
    pub down: usize,
}

impl<const ACROSS: usize> Cells for Rows<ACROSS> {
    ghost across = { λ _. ACROSS };

    ghost down = { λ s. s.down };

    const SKIPS: bool = true;

    fn across(self) -> usize {
        ACROSS
    }

    fn down(self) -> usize {
        self.down
    }
}

// Both constants.
#[derive(Clone, Copy)]
pub struct Fixed<const ACROSS: usize, const DOWN: usize>;

impl<const ACROSS: usize, const DOWN: usize> Cells for Fixed<ACROSS, DOWN> {
    ghost across = { λ _. ACROSS };

    ghost down = { λ _. DOWN };

    const SKIPS: bool = false;

    fn across(self) -> usize {
        ACROSS
    }

    fn down(self) -> usize {
        DOWN
    }
}

// A whole step of 1 to 8.
fn whole_step(exact: bool, step: usize) -> bool
    ensures { result ≡ (exact && leb 1 step && leb step 8) }
{
    exact & (1..=8).contains(&step)
}

// How many cells a pixel has down. The product of the two sides, which may not fit, is not made.
fn step_down(cells: usize, across: usize, height: usize) -> usize
    ensures { result ≡ cells / (across * height) }
{
    plane::divided(plane::divided(cells, across), height)
}

// A mask with a whole step each way.
pub fn stepped(mask: &[u8], numbers: Numbers) -> bool
    ensures { result ≡ are_steps (mask_of mask.now numbers.mask_width) (numbers.width, numbers.height) }
{
    let cells = mask.len();
    let across = plane::divided(numbers.mask_width, numbers.width);
    let rows = plane::divided(cells, numbers.mask_width);
    let exact = cells.is_multiple_of(numbers.mask_width) & rows.is_multiple_of(numbers.height);
    let down = step_down(cells, numbers.mask_width, numbers.height);
    whole_step(numbers.mask_width.is_multiple_of(numbers.width), across) & whole_step(exact, down)
}

// Its steps.
pub fn steps_of(mask: &[u8], numbers: Numbers) -> Steps
    ensures { result ≡ steps_of mask.now numbers }
{
    let across = plane::divided(numbers.mask_width, numbers.width);
    let down = step_down(mask.len(), numbers.mask_width, numbers.height);
    Steps { across, down }
}

// How many cells a pixel has.
pub fn cell_count<C: Cells>(steps: C) -> u32
    requires narrow { C.across steps ≤ 8 }
    requires low { C.down steps ≤ 8 }
    ensures { result ≡ C.across steps * C.down steps }
{
    (steps.across() * steps.down()) as u32
}

// "the byte sum" of a pixel.
pub fn byte_sum<C: Cells>(mask: &[u8], width: usize, steps: C, x: usize, y: usize) -> u32
    requires { PixelCells mask.now width (C.across steps) (C.down steps) x y }
    ensures sum { result ≡ sum_of mask.now width (C.across steps) (C.down steps) x y (C.down steps) }
    ensures few { result ≤ 255 * (C.across steps * C.down steps) }
{
    let across = steps.across();
    let down = steps.down();
    let mut n = 0;
    for dy in 0..down {
        let row = plane::place(y, down, dy);
        let first = plane::place(row, width, x * across);
        n += still_run::run(&mask[first..first + across]);
    }
    n
}
