// A number as the stored list has it, in little-endian bytes. host/compare/src/check/stored.rs says how the list is
// laid out.

// The list from a place on; nothing of it where the place is behind its end.
pub fn rest(list: &[u8], at: usize) -> &[u8] {
    list.get(at..).unwrap_or(&[])
}

// As many bytes from a place as are asked for; what is read past the list's end is 0.
fn taken<const N: usize>(list: &[u8], at: usize) -> [u8; N] {
    let rest = rest(list, at);
    match rest.get(..N).map(<[u8; N]>::try_from) {
        Some(Ok(bytes)) => bytes,
        _ => padded(rest),
    }
}

// The last bytes of the list, fewer than are asked for, and 0 behind them. A copy of so many bytes as there are is a
// call of memcpy, which each number of the list would pay for.
fn padded<const N: usize>(rest: &[u8]) -> [u8; N] {
    let mut bytes = [0; N];
    let n = rest.len().min(N);
    bytes[..n].copy_from_slice(&rest[..n]);
    bytes
}

// What a slice of the list may have as its elements.
// Kept: (a) six impls differ in their type and its bytes alone: the gate refuses impls by macros of the repository's
// own, and std has no trait of the numbers' `from_le_bytes` that one generic impl could stand on.
pub trait Stored: Copy + Drop + PartialEq {
    // Bytes of one.
    const WIDTH: usize;

    // The one that stands at a place.
    fn read(list: &[u8], at: usize) -> Self;

    // The number k of a run of them, counted from 0.
    fn nth(run: &[u8], k: usize) -> Self {
        Self::read(run, k.saturating_mul(Self::WIDTH))
    }

    // Whether it is right.
    fn same(self, right: Self) -> bool {
        self == right
    }
}

impl Stored for u8 {
    const WIDTH: usize = 1;

    fn read(list: &[u8], at: usize) -> u8 {
        u8::from_le_bytes(taken(list, at))
    }
}

impl Stored for i16 {
    const WIDTH: usize = 2;

    fn read(list: &[u8], at: usize) -> i16 {
        i16::from_le_bytes(taken(list, at))
    }
}

impl Stored for u16 {
    const WIDTH: usize = 2;

    fn read(list: &[u8], at: usize) -> u16 {
        u16::from_le_bytes(taken(list, at))
    }
}

impl Stored for i32 {
    const WIDTH: usize = 4;

    fn read(list: &[u8], at: usize) -> i32 {
        i32::from_le_bytes(taken(list, at))
    }
}

impl Stored for u32 {
    const WIDTH: usize = 4;

    fn read(list: &[u8], at: usize) -> u32 {
        u32::from_le_bytes(taken(list, at))
    }
}

impl Stored for u64 {
    const WIDTH: usize = 8;

    fn read(list: &[u8], at: usize) -> u64 {
        u64::from_le_bytes(taken(list, at))
    }
}

impl Stored for f32 {
    const WIDTH: usize = 4;

    // A NaN's bits give a NaN.
    fn read(list: &[u8], at: usize) -> f32 {
        let bits = u32::read(list, at);
        if bits % 0x8000_0000 > 0x7f80_0000 {
            return f32::NAN;
        }
        f32::from_bits(bits)
    }

    // Right by its bits.
    fn same(self, right: f32) -> bool {
        bits(self) == bits(right)
    }
}

// The bits of a float; of any NaN those of one.
fn bits(x: f32) -> u32 {
    if x.is_nan() {
        return 0x7fc0_0000;
    }
    f32::to_bits(x)
}
