// The totals of chroma offsets: each summed whole, and held once.
#![tactic(auto)]

ghost use Rattle.std.specs.Prelude.{◌≡◌, ◌+◌, ◌*◌, ◌<◌, length};
ghost use Rattle.rules.specs.Assembly.{stored_offset, stored_total, model_slice, chroma_total};
ghost use Rattle.assemble_offsets.specs.Sizes.{Formed, ModelsLong, term_of, row_total, RowFits, Block};

use rules::Offset;

// Luma's width and height, the ratio, and chroma's width and height.
#[derive(Clone, Copy)]
pub struct Sizes {
    pub width: usize,
    pub height: usize,
    pub ratio: usize,
    pub chroma_width: usize,
    pub chroma_height: usize,
}

// An offset as it is stored.
pub fn stored_offset(value: f32) -> Offset
    ensures { result ≡ stored_offset value }
{
    Offset(float::fixed(value, 64.0))
}

// What luma pixel `at` adds to a total of plane 1 or 2.
fn term(models: &[f32], at: usize, plane: usize, share: f32) -> i32
    requires { at * 4 + (1 + plane) < length models.now }
    ensures { result ≡ term_of models.now plane share at }
{
    let offset = stored_offset(models[at * 4 + (1 + plane)] / share);
    i32::from(offset.0)
}

// A row of a block, added to a total.
fn total_row(
    models: &[f32],
    place: usize,
    ratio: usize,
    plane: usize,
    share: f32,
    total: i32,
) -> i32
    requires { RowFits models.now place ratio plane total }
    ensures { result ≡ row_total models.now plane share place ratio total }
{
    let mut sum = total;
    for dx in 0..ratio {
        sum += term(models, place + dx, plane, share);
    }
    sum
}

// The total of a chroma pixel of plane 1 or 2, summed whole.
fn chroma_total(sizes: Sizes, models: &[f32], plane: usize, x: usize, y: usize) -> i32
    requires formed { Formed sizes }
    requires long { ModelsLong models.now sizes }
    requires block { Block sizes plane x y }
    ensures { result ≡ chroma_total (model_slice models.now (sizes.width * sizes.height)) sizes.width sizes.ratio plane (y * sizes.chroma_width + x) }
{
    let ratio = sizes.ratio;
    let share = float::of_size(ratio * ratio);
    let mut sum = 0;
    for dy in 0..ratio {
        let place = plane::place(
            plane::place(y, ratio, dy),
            sizes.width,
            plane::place(x, ratio, 0),
        );
        sum = total_row(models, place, ratio, plane, share, sum);
    }
    sum
}

// A total as it is stored: held to what an offset holds.
fn held(total: i32) -> Offset
    ensures { result ≡ stored_total total }
{
    Offset(total.clamp(-32768, 32767) as i16)
}

// The offset that is stored of a chroma pixel of plane 1 or 2.
pub fn stored_total(sizes: Sizes, models: &[f32], plane: usize, x: usize, y: usize) -> Offset
    requires formed { Formed sizes }
    requires long { ModelsLong models.now sizes }
    requires block { Block sizes plane x y }
    ensures { result ≡ stored_total (chroma_total (model_slice models.now (sizes.width * sizes.height)) sizes.width sizes.ratio plane (y * sizes.chroma_width + x)) }
{
    held(chroma_total(sizes, models, plane, x, y))
}
