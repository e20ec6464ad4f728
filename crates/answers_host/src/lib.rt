// "Refusal 8 is shown never to occur" (02), held to the exported calls: each function here is such a call, lent
// anything at all, and its contract is that its answer's number is not 8. The theorem is the crate answers'. Numbers
// that belong together are lent as one struct; of a `shape` a call takes what it is lent itself.
// Kept: (a) the claim is held to the exported call itself, by each of the arguments that the C interface names: so
// these stand here again where no other crate's function has the call with its numbers lent so.
#![tactic(auto)]

ghost use Rattle.answers.specs.Never.{NotAnswered};

use evidence_host::Form;
use layer_lent::Shape;
use motion::Grid;
use rules::Sizes;
use stats_refuse::{Numbers, Pair};

// Distances, made of the marks of cells.
pub fn distances(cells: &mut [u8], width: usize) -> u64
    ensures { NotAnswered result }
{
    host::safeteal_distances(cells, width)
}

// The mask of the pixels that stand still between two planes.
pub fn mask(
    still: &mut [u8],
    first: &[u8],
    second: &[u8],
    pitch: usize,
    width: usize,
    height: usize,
    settings: still_same::Settings,
) -> u64
    ensures { NotAnswered result }
{
    let limit = settings.limit;
    let edge = settings.edge;
    let tolerance = settings.tolerance;
    host::safeteal_mask(
        first, second, pitch, width, height, limit, edge, tolerance, still,
    )
}

// Apply: two planes mixed where a mask says that a pixel stands still.
pub fn apply<'f>(
    output: &mut [u8],
    frames: [&'f [u8]; 2],
    still: &[u8],
    numbers: still_cells::Numbers,
    time: f32,
) -> u64
    ensures { NotAnswered result }
{
    host::safeteal_apply(
        output,
        numbers.output_pitch,
        frames[0],
        frames[1],
        numbers.pitch,
        numbers.width,
        numbers.height,
        still,
        numbers.mask_width,
        time,
    )
}

// Hold: the bytes of a held plane weighed into the output by a mask.
pub fn hold(output: &mut [u8], held: &[u8], mask: &[u8], numbers: still_cells::Numbers) -> u64
    ensures { NotAnswered result }
{
    host::safeteal_hold(
        output,
        numbers.output_pitch,
        held,
        numbers.pitch,
        numbers.width,
        numbers.height,
        mask,
        numbers.mask_width,
    )
}

// Stats: one pair of frames added to the sums of a part.
pub fn stats<'f, 'm>(
    luma: &mut [f32],
    chroma1: &mut [f32],
    chroma2: &mut [f32],
    pair: Pair<'f, 'm>,
    numbers: Numbers,
) -> u64
    ensures { NotAnswered result }
{
    let Pair {
        first,
        second,
        fields,
        grid,
    } = pair;
    host::safeteal_stats(
        luma,
        chroma1,
        chroma2,
        numbers.pairs,
        numbers.width,
        numbers.height,
        numbers.ratio,
        first.luma.bytes,
        first.luma.pitch,
        first.chroma1.bytes,
        first.chroma1.pitch,
        first.chroma2.bytes,
        first.chroma2.pitch,
        second.luma.bytes,
        second.luma.pitch,
        second.chroma1.bytes,
        second.chroma1.pitch,
        second.chroma2.bytes,
        second.chroma2.pitch,
        fields[0],
        fields[1],
        fields[2],
        fields[3],
        grid.width,
        grid.height,
        grid.block_width,
        grid.block_height,
        grid.origin_x,
        grid.origin_y,
        grid.pel,
    )
}

// Assemble: models and a cover stored as a layer.
pub fn assemble(
    luma: &mut [i16],
    chroma1: &mut [i16],
    chroma2: &mut [i16],
    width: usize,
    height: usize,
    ratio: usize,
    models: &[f32],
    cover: &[u8],
) -> u64
    ensures { NotAnswered result }
{
    host::safeteal_assemble(width, height, ratio, models, cover, luma, chroma1, chroma2)
}

// A fit: evidence_host::fit is safeteal_fit with its sums and numbers lent so.
pub fn fit<'s>(
    models: &mut [f32],
    kept: &mut [u8],
    cover: &mut [u8],
    luma: &mut [i16],
    chroma1: &mut [i16],
    chroma2: &mut [i16],
    sums: [&'s [f32]; 9],
    numbers: fit_refuse::Numbers,
) -> u64
    ensures { NotAnswered result }
{
    evidence_host::fit(models, kept, cover, luma, chroma1, chroma2, sums, numbers)
}

// Peel of a plane, on a layer in either form: evidence_host::Form has the exported call of each.
pub fn peel<L: Form>(output: &mut [u8], shape: Shape, layer: L, raw: &[u8]) -> u64
    ensures { NotAnswered result }
{
    layer.peel(output, shape, raw)
}

// Unpeel of a plane, so.
pub fn unpeel<'f, L: Form>(output: &mut [u8], shape: Shape, layer: L, frames: [&'f [u8]; 2]) -> u64
    ensures { NotAnswered result }
{
    layer.unpeel(output, shape, frames)
}

// Render of a plane: evidence_host::render is safeteal_render so.
pub fn render<'n, 'f, 'm>(
    output: &mut [u8],
    shape: Shape,
    numbers: [&'n [i16]; 3],
    frames: [&'f [u8]; 2],
    fields: [&'m [u16]; 4],
    grid: Grid,
    algo: i32,
) -> u64
    ensures { NotAnswered result }
{
    evidence_host::render(output, shape, numbers, frames, fields, grid, algo)
}

// Whether no cell of a layer is 0.
pub fn empty<'n>(shape: Shape, numbers: [&'n [i16]; 3]) -> u64
    ensures { NotAnswered result }
{
    host::safeteal_empty(
        numbers[0],
        numbers[1],
        numbers[2],
        shape.luma_pitch,
        shape.chroma_pitch,
        shape.width,
        shape.height,
        shape.ratio,
    )
}

// A layer written as a parcel.
pub fn parcel_write<'n>(parcel: &mut [u8], shape: Shape, numbers: [&'n [i16]; 3]) -> u64
    ensures { NotAnswered result }
{
    host::safeteal_parcel_write(
        numbers[0],
        numbers[1],
        numbers[2],
        shape.luma_pitch,
        shape.chroma_pitch,
        shape.width,
        shape.height,
        shape.ratio,
        parcel,
    )
}

// A parcel read into a layer.
pub fn parcel_read(
    luma: &mut [i16],
    chroma1: &mut [i16],
    chroma2: &mut [i16],
    parcel: &[u8],
) -> Sizes
    ensures { NotAnswered result.word }
{
    host::safeteal_parcel_read(parcel, luma, chroma1, chroma2)
}

// The sizes of the layer in a parcel.
pub fn parcel_sizes(parcel: &[u8]) -> Sizes
    ensures { NotAnswered result.word }
{
    host::safeteal_parcel_sizes(parcel)
}
