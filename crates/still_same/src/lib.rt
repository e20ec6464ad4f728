// Which pixels of two planes are the same: the first pass of mask.
#![tactic(auto)]

ghost use Rattle.std.specs.Prelude.{◌≡◌, cond, ◌+◌, ◌-◌, ◌*◌, ◌≤◌, ◌<◌, length};
ghost use Rattle.rules.specs.Still.{is_same};
ghost use Rattle.calls.specs.Lent.{plane_of};
ghost use Rattle.still_pass.specs.Pass.{PlaneIn};
ghost use Rattle.still_pass.specs.Table.{RowStored, RowsStored};
ghost use Rattle.still_same.specs.Same.{detail_by, detail_at, settled, same_by, same_plane};

// How far two pixels may differ and be the same: a limit of change, and, where the detail is stronger than an edge, a
// tolerance of its strength.
#[derive(Clone, Copy)]
pub struct Settings {
    pub limit: f32,
    pub edge: f32,
    pub tolerance: f32,
}

// Two planes of one pitch and one size, whose pixels lie within their bytes.
#[derive(Clone, Copy)]
pub struct Frames<'a> {
    pub first: &'a [u8],
    pub second: &'a [u8],
    pub pitch: usize,
    pub width: usize,
    pub height: usize,
    pub ghost some: { 1 ≤ width },
    pub ghost narrow: { width ≤ 4096 },
    pub ghost low: { height ≤ 4096 },
    pub ghost apart: { pitch ≤ 65536 },
    pub ghost first_inside: { (height - 1) * pitch + width ≤ length first.now },
    pub ghost second_inside: { (height - 1) * pitch + width ≤ length second.now },
}

// How far a byte stands out from the mean of four.
#[tactic(auto, unfolding(crate::specs::Same::detail_by))]
fn detail(here: u8, right: u8, below: u8, corner: u8) -> f32
    ensures { result ≡ detail_by here right below corner }
{
    let sum = u16::from(here) + u16::from(right) + u16::from(below) + u16::from(corner);
    (f32::from(here) - f32::from(sum) / 4.0) / 255.0
}

// A pixel's detail in one of the planes, with the columns x and right, and the rows y and below.
fn detail_at(bytes: &[u8], frames: Frames, x: usize, right: usize, y: usize, below: usize) -> f32
    requires inside { (frames.height - 1) * frames.pitch + frames.width ≤ length bytes.now }
    requires column { x < frames.width }
    requires beside { right < frames.width }
    requires row { y < frames.height }
    requires under { below < frames.height }
    ensures { result ≡ detail_at (plane_of bytes.now frames.entry.pitch) x right y below }
{
    let a = bytes[plane::place(y, frames.pitch, x)];
    let b = bytes[plane::place(y, frames.pitch, right)];
    let c = bytes[plane::place(below, frames.pitch, x)];
    let d = bytes[plane::place(below, frames.pitch, right)];
    detail(a, b, c, d)
}

// Whether two bytes and their details are the same, as far as the settings ask.
#[tactic(auto, unfolding(rules::specs::Still::is_same))]
fn is_same(change: f32, a: f32, b: f32, settings: Settings) -> bool
    ensures { result ≡ is_same change a b (settled settings) }
{
    let strength = float::max(float::abs(a), float::abs(b));
    let near = float::abs(a - b) <= settings.tolerance * strength;
    (change <= settings.limit) | ((strength > settings.edge) & near)
}

// 1 where a pixel of the two planes is the same, with the columns x and right, and the rows y and below.
#[tactic(auto, unfolding(crate::specs::Same::same_by))]
fn same_at(frames: Frames, settings: Settings, x: usize, right: usize, y: usize, below: usize) -> u8
    requires column { x < frames.width }
    requires beside { right < frames.width }
    requires row { y < frames.height }
    requires under { below < frames.height }
    ensures { let f = frames.entry in result ≡ cond (same_by (plane_of f.first.now f.pitch) (plane_of f.second.now f.pitch) (settled settings) x right y below) 1 0 }
{
    let k = plane::place(y, frames.pitch, x);
    let apart = frames.first[k].abs_diff(frames.second[k]);
    let change = f32::from(apart) / 255.0;
    let a = detail_at(frames.first, frames, x, right, y, below);
    let b = detail_at(frames.second, frames, x, right, y, below);
    u8::from(is_same(change, a, b, settings))
}

// One row. The last column is its own right neighbour.
#[tactic(auto, using(still_pass::proofs::Pass::row_none, still_pass::proofs::Tables::entry_more, crate::proofs::Rows::same_here))]
fn same_row(still: &mut [u8], frames: Frames, settings: Settings, y: usize)
    requires room { PlaneIn still.old frames.width (frames.width, frames.height) }
    requires row { y < frames.height }
    ensures { let f = frames.entry in RowStored f.width (same_plane f.first.now f.second.now f.pitch f.width f.height settings) y f.width still.old still.new }
{
    let below = plane::after(y, frames.height);
    let last = frames.width - 1;
    for x in 0..last {
        let k = plane::place(y, frames.width, x);
        still[k] = same_at(frames, settings, x, x + 1, y, below);
    }
    let k = plane::place(y, frames.width, last);
    still[k] = same_at(frames, settings, last, last, y, below);
}

// The rows, one after the other.
// Kept: (d) a for with one call. A walk that passes share would take the call as a closure, and of what a closure
// borrows and changes nothing is known after the walk; a trait with an impl for each pass would be longer than its
// loop.
#[tactic(auto, using(still_pass::proofs::Pass::rows_none))]
pub fn same_rows(still: &mut [u8], frames: Frames, settings: Settings)
    requires { PlaneIn still.old frames.width (frames.width, frames.height) }
    ensures { let f = frames.entry in RowsStored f.width (same_plane f.first.now f.second.now f.pitch f.width f.height settings) f.height still.old still.new }
{
    for y in 0..frames.height {
        same_row(still, frames, settings, y);
    }
}
