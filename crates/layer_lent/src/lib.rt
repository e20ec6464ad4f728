// A layer that is lent as numbers or as little-endian bytes: one body reads both. And a layer with its plan, as one
// value.
#![tactic(auto)]

ghost use Rattle.std.specs.Prelude.{◌≡◌, ◌<◌, ⊤, List, ℕ, ℤ, pos, length, get_or};
ghost use Rattle.rules.specs.Host.{numbers};
ghost use Rattle.plane.specs.Slices.{slice};
ghost use Rattle.layer_lent.specs.Lent.{plan_of, Sound};
ghost use Rattle.sample.specs.Points.{PlaneFits};

use std::alloc::AllocError;

// What a layer is lent with besides its slices, the plane that is worked on, and the numbers of the byte planes over
// it.
#[derive(Clone, Copy)]
pub struct Shape {
    pub luma_pitch: usize,
    pub chroma_pitch: usize,
    pub width: usize,
    pub height: usize,
    pub ratio: usize,
    pub plane: usize,
    // Of the output, and of the frames; 0 where there is none.
    pub output_pitch: usize,
    pub first_pitch: usize,
    pub second_pitch: usize,
    // Between the frames.
    pub time: f32,
}

// A shape, and what follows from it.
#[derive(Clone, Copy)]
pub struct Plan {
    pub shape: Shape,
    // Luma pixels per pixel of the plane, each way.
    pub span: usize,
    // The plane's width and height.
    pub across: usize,
    pub down: usize,
    // The rows of the chroma planes.
    pub rows: usize,
    // The side of a cell in pixels of the plane.
    pub side: usize,
}

// Number k of a slice.
fn at(numbers: &[i16], k: usize) -> i16
    requires { k < length numbers.now }
    ensures { result ≡ get_or numbers.now k (pos 0) }
{
    numbers[k]
}

// Number k of a slice of little-endian bytes.
#[tactic(auto, using(crate::proofs::Numbers::numbers_length))]
fn number(bytes: &[u8], k: usize) -> i16
    requires { k < length (numbers bytes.now) }
    ensures { result ≡ get_or (numbers bytes.now) k (pos 0) }
{
    i16::from_le_bytes([bytes[k * 2], bytes[k * 2 + 1]])
}

// How many numbers such a slice has.
#[tactic(auto, using(crate::proofs::Numbers::numbers_length))]
fn count(bytes: &[u8]) -> usize
    ensures { result ≡ length (numbers bytes.now) }
{
    bytes.len() / 2
}

// The three slices of a layer, luma's and those of planes 1 and 2, in the form that they are lent in.
pub trait Lent: Copy {
    // the numbers of each
    ghost held: { Self → ℕ → List ℤ };

    // Number k of a slice.
    fn entry(self, slice: usize, k: usize) -> i16
        requires slice { slice < 3 }
        requires inside { k < length (held self slice) }
        ensures { result ≡ get_or (held self slice) k (pos 0) };

    // How many numbers a slice has.
    fn size(self, slice: usize) -> usize
        requires { slice < 3 }
        ensures { result ≡ length (held self slice) };
}

// Lent as numbers.
impl<'a> Lent for [&'a [i16]; 3] {
    ghost held = { slice };

    fn entry(self, slice: usize, k: usize) -> i16 {
        at(self[slice], k)
    }

    fn size(self, slice: usize) -> usize {
        self[slice].len()
    }
}

// Lent as little-endian bytes, two for each number.
impl<'a> Lent for [&'a [u8]; 3] {
    ghost held = { λ bytes k. numbers (slice bytes k) };

    fn entry(self, slice: usize, k: usize) -> i16 {
        number(self[slice], k)
    }

    fn size(self, slice: usize) -> usize {
        count(self[slice])
    }
}

// A layer's shape with what follows from it: the plane's ratio and size, the chroma rows, a cell's side. The divisions
// are made here, once a call.
pub fn planned(shape: Shape) -> Plan
    ensures { result ≡ plan_of shape }
{
    let span = plane::plane_ratio(shape.ratio, shape.plane);
    Plan {
        shape,
        span,
        across: plane::divided(shape.width, span),
        down: plane::divided(shape.height, span),
        rows: plane::divided(shape.height, shape.ratio),
        side: plane::divided(8, span),
    }
}

// A layer with its plan, neither of them refused.
pub struct Sheet<L: Lent> {
    pub layer: L,
    pub plan: Plan,
    pub ghost sound: { Sound plan (L.held layer) },
}

impl<L: Lent> Copy for Sheet<L> {}

impl<L: Lent> Clone for Sheet<L> {
    ghost is_clone = { λ a b. b ≡ a };

    ghost is_infallible = { λ _. ⊤ };

    fn clone(&self) -> Result<Self, AllocError> {
        Ok(*self)
    }
}

// A sheet, and a byte plane over the plane that is worked on.
pub struct Seen<'r, L: Lent> {
    pub sheet: Sheet<L>,
    pub raw: &'r [u8],
    pub pitch: usize,
    pub ghost lies: { PlaneFits raw.now pitch sheet.plan.across sheet.plan.down },
}

impl<L: Lent> Copy for Seen<'_, L> {}

impl<L: Lent> Clone for Seen<'_, L> {
    ghost is_clone = { λ a b. (b.sheet ≡ a.sheet) × (b.raw.now ≡ a.raw.now) × (b.pitch ≡ a.pitch) };

    ghost is_infallible = { λ _. ⊤ };

    fn clone(&self) -> Result<Self, AllocError> {
        Ok(Seen {
            sheet: self.sheet,
            raw: self.raw,
            pitch: self.pitch,
        })
    }
}
