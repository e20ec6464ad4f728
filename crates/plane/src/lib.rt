// Byte planes: the tests of sizes, ratios, pitches, lengths and times, choices without a branch, and one pixel of a
// pass.
#![tactic(auto)]

ghost use Rattle.std.specs.Prelude.{◌≡◌, ◌&&◌, ◌||◌, not, cond, ◌+◌, ◌-◌, ◌*◌, ◌/◌, ◌%◌, ◌<◌, ◌≤◌, ◌^◌, min, leb, eqb, length, true, false, MatchResult};
ghost use Rattle.rules.specs.Float.{within as within_of};
ghost use Rattle.rules.specs.Domain.{is_size, are_sizes, is_ratio, is_pitch, is_time};
ghost use Rattle.plane.specs.Done.{Stamped};

use rules::Refusal;

// One pixel of a pass: where a rule gives a byte, it stands at place k of the output, and is counted.
pub fn stamp(output: &mut [u8], k: usize, byte: Option<u8>, count: usize) -> usize
    requires place { k < length output.old }
    requires few { count < 2 ^ 63 }
    ensures { Stamped output.old k byte count output.new result }
{
    let Some(byte) = byte else {
        return count;
    };
    output[k] = byte;
    count + 1
}

// A width or a height.
pub fn sized(n: usize) -> bool
    ensures { result ≡ is_size n }
{
    (1..=4096).contains(&n)
}

// A width and a height.
// Kept: (d) they are no value of their own: calls are lent them among their numbers (a Shape, a Grid, the Numbers of
// hold and apply), and the values made of those say in ghost fields what holds of them beside pitch, ratio and lengths.
// A Size in each would be named on the way to every number, and the same would have to be said beside it.
pub fn sizes(width: usize, height: usize) -> bool
    ensures { result ≡ are_sizes (width, height) }
{
    sized(width) & sized(height)
}

// A pitch that rows of this width can have.
pub fn pitched(pitch: usize, width: usize) -> bool
    ensures { result ≡ is_pitch pitch width }
{
    (width..=65536).contains(&pitch)
}

// From lo to hi.
pub fn within(x: f32, lo: f32, hi: f32) -> bool
    ensures { result ≡ within_of x lo hi }
{
    (lo..=hi).contains(&x)
}

// A time from 0 to 1.
pub fn timed(time: f32) -> bool
    ensures { result ≡ is_time time }
{
    within(time, 0.0, 1.0)
}

// The column or row after k, the last repeated.
// Kept: (d) that k lies below the size is asked, as of the index of a slice: an index as a value would carry its size.
pub fn after(k: usize, size: usize) -> usize
    requires { k < size }
    ensures is { result ≡ min (k + 1) (size - 1) }
    ensures inside { result < size }
{
    (k + 1).min(size - 1)
}

// A row of a table of refusals: the call is refused unless all is right.
pub fn ensure(right: bool, refusal: Refusal) -> Result<(), Refusal>
    ensures { MatchResult result (λ _. right ≡ true) (λ e. (right ≡ false) × (e ≡ refusal)) }
{
    if right { Ok(()) } else { Err(refusal) }
}

// The quotient, 0 for a divisor 0.
// Kept: (b) n.checked_div(by).unwrap_or(0) takes 3.9 ns, and this 2.3 at ratios 1 and 2: a constant spares the
// processor's division.
pub fn divided(n: usize, by: usize) -> usize
    ensures { result ≡ n / by }
{
    match by {
        0 => 0,
        1 => n,
        2 => n / 2,
        4 => n / 4,
        _ => n / by,
    }
}

// A ratio of these sizes.
pub fn ratioed(ratio: usize, width: usize, height: usize) -> bool
    ensures { result ≡ is_ratio ratio (width, height) }
{
    match ratio {
        1 => true,
        2 => width.is_multiple_of(2) && height.is_multiple_of(2),
        4 => width.is_multiple_of(4) && height.is_multiple_of(4),
        _ => false,
    }
}

// A slice of this length has so many rows a pitch apart and `more` entries after them.
pub fn holds(size: usize, rows: usize, pitch: usize, more: usize) -> bool
    ensures { result ≡ leb (rows * pitch + more) size }
{
    rows as u128 * pitch as u128 + more as u128 <= size as u128
}

// A byte plane's length.
pub fn planed(size: usize, pitch: usize, width: usize, height: usize) -> bool
    ensures { result ≡ leb ((height - 1) * pitch + width) size }
{
    holds(size, height.saturating_sub(1), pitch, width)
}

// The length of a slice of a layer: two numbers for each entry of its rows.
pub fn layered(size: usize, pitch: usize, rows: usize) -> bool
    ensures { result ≡ leb (2 * (pitch * rows)) size }
{
    holds(size / 2, rows, pitch, 0)
}

// n is this product.
pub fn is_product(n: usize, a: usize, b: usize) -> bool
    ensures { result ≡ eqb n (a * b) }
{
    n as u128 == a as u128 * b as u128
}

// A slice of this length has exactly so many entries for each place of so many rows.
pub fn exact(size: usize, many: usize, width: usize, height: usize) -> bool
    ensures { result ≡ eqb size (many * (width * height)) }
{
    match size.checked_div(many) {
        None => size == 0,
        Some(each) => size.is_multiple_of(many) & is_product(each, width, height),
    }
}

// Three slices of these lengths have so many entries per luma pixel, and two per chroma pixel.
pub fn exact_planes(
    luma: usize,
    chroma1: usize,
    chroma2: usize,
    many: usize,
    width: usize,
    height: usize,
    ratio: usize,
) -> bool
    ensures { result ≡ (eqb luma (many * (width * height)) && eqb chroma1 (2 * (width / ratio * (height / ratio))) && eqb chroma2 (2 * (width / ratio * (height / ratio)))) }
{
    let across = divided(width, ratio);
    let down = divided(height, ratio);
    exact(luma, many, width, height)
        & exact(chroma1, 2, across, down)
        & exact(chroma2, 2, across, down)
}

// The ratio of a plane of a layer.
pub fn plane_ratio(ratio: usize, plane: usize) -> usize
    ensures { result ≡ cond (eqb plane 0) 1 ratio }
{
    if plane == 0 { 1 } else { ratio }
}

// The place of an entry: of rows a pitch apart, this row and column.
pub fn place(row: usize, pitch: usize, col: usize) -> usize
    requires row { row ≤ 65536 }
    requires pitch { pitch ≤ 65536 }
    requires col { col ≤ 65536 }
    ensures { result ≡ row * pitch + col }
{
    row * pitch + col
}
