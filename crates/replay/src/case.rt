// A case of the stored list: what its call takes. Its numbers and its slices are counted from 0.
use crate::stored::{Stored, rest};

// Elements that a slice has room for.
pub const ROOM: usize = 2048;

// Room for a slice of each plane.
pub type Planes<S> = ([S; ROOM], [S; ROOM], [S; ROOM]);

// Room for the slices that are copied, for as many of a type as a call takes. All cases share it, since clearing it for
// each would make the program a fifth slower. What a case left in it no other sees: a slice is lent as far as it was
// loaded.
#[derive(Drop)]
pub struct Rooms {
    pub bytes: ([u8; ROOM], [u8; ROOM]),
    pub numbers: Planes<i16>,
    pub previous: Planes<f32>,
    pub own: Planes<f32>,
    pub next: Planes<f32>,
    pub models: [f32; ROOM],
    pub motion: ([u16; ROOM], [u16; ROOM], [u16; ROOM], [u16; ROOM]),
}

impl Rooms {
    // Cleared.
    pub fn new() -> Rooms {
        Rooms {
            bytes: ([0; ROOM], [0; ROOM]),
            numbers: planes(0),
            previous: planes(0.0),
            own: planes(0.0),
            next: planes(0.0),
            models: [0.0; ROOM],
            motion: ([0; ROOM], [0; ROOM], [0; ROOM], [0; ROOM]),
        }
    }
}

// The planes' rooms, filled with one value.
fn planes<S: Copy>(value: S) -> Planes<S> {
    ([value; ROOM], [value; ROOM], [value; ROOM])
}

// The list, and the place of a case in it. A place may be past the list's end.
#[derive(Clone, Copy)]
pub struct Case<'a> {
    pub list: &'a [u8],
    pub at: usize,
}

impl<'a> Case<'a> {
    // What stands at a place.
    fn read<S: Stored>(self, at: usize) -> S {
        S::read(self.list, at)
    }

    // The number of its call.
    pub fn call(self) -> u32 {
        self.read(self.at)
    }

    // The place of the number k, or of what comes after the last one.
    fn argument(self, k: usize) -> usize {
        self.at
            .saturating_add(k.saturating_mul(8))
            .saturating_add(8)
    }

    // The number k.
    pub fn size(self, k: usize) -> usize {
        self.read::<u64>(self.argument(k)) as usize
    }

    // The same as a signed number.
    pub fn int(self, k: usize) -> i32 {
        self.read(self.argument(k))
    }

    // As a float.
    pub fn float(self, k: usize) -> f32 {
        self.read(self.argument(k))
    }

    // As a yes or no.
    pub fn flag(self, k: usize) -> bool {
        self.read::<u8>(self.argument(k)) != 0
    }

    // How many slices it takes.
    pub fn slices(self) -> usize {
        self.read::<u32>(self.counted()) as usize
    }

    // Where that is said.
    fn counted(self) -> usize {
        self.argument(self.read::<u32>(self.at.saturating_add(4)) as usize)
    }

    // How many elements the slice at a place has, and how many bytes each; nothing where there is no room for them.
    fn shape(self, at: usize) -> Option<(usize, usize)> {
        let width = self.read::<u32>(at) as usize;
        let n = self.read::<u32>(at.saturating_add(4)) as usize;
        (matches!(width, 1 | 2 | 4) && n <= ROOM).then_some((n, width))
    }

    // Where the slice k stands; after the last one, where the right answer stands.
    pub fn slice(self, k: usize) -> Option<usize> {
        let mut at = self.counted().saturating_add(4);
        for _ in 0..k {
            let (n, width) = self.shape(at)?;
            at = at.saturating_add(8).saturating_add(n.saturating_mul(width));
        }
        Some(at)
    }

    // How many elements the slice k has, how many bytes each, and where they begin.
    fn elements(self, k: usize) -> Option<(usize, usize, usize)> {
        let at = self.slice(k)?;
        let (n, width) = self.shape(at)?;
        Some((n, width, at.saturating_add(8)))
    }

    // The bytes of the slice k, however many each of its elements has.
    pub fn bytes(self, k: usize) -> &'a [u8] {
        let (n, width, first) = self.elements(k).unwrap_or((0, 0, 0));
        self.list
            .get(first..first.saturating_add(n.saturating_mul(width)))
            .unwrap_or(&[])
    }

    // The slice k, copied into an array; nothing of it where its elements are of another width.
    pub fn load<'r, S: Stored>(self, k: usize, room: &'r mut [S]) -> &'r mut [S] {
        let (n, width, first) = self.elements(k).unwrap_or((0, 0, 0));
        let n = if width == S::WIDTH { n } else { 0 };
        let n = n.min(room.len());
        let rest = rest(self.list, first);
        let lent = &mut room[..n];
        for (k, number) in lent.iter_mut().enumerate() {
            *number = S::nth(rest, k);
        }
        lent
    }
}
