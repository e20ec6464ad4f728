// The C interface. Each function is a thin one over the proved call, with the whole equation as its contract: the
// answer, count times 256 plus the number, and every element of every slice that the call may write. The symbols are
// those of `host_c`, a static library: here the functions are for crates that stand on them.
// Kept: (a) the C interface names each call and each of its arguments. So peel and unpeel stand once for each form that
// a layer is lent in, and what several calls take, a layer, frames, motion, stands in each of them.
#![tactic(auto)]

ghost use Rattle.std.specs.Prelude.{◌≡◌};
ghost use Rattle.rules.specs.Forms.{uncounted};
ghost use Rattle.rules.specs.Calls.{DistancesCall};
ghost use Rattle.rules.specs.Refusals.{stats_refusal, distances_refusal, parcel_write_refusal, mask_refusal, apply_refusal, hold_refusal, assemble_refusal, fit_refusal};
ghost use Rattle.rules.specs.Float.{pixel as pixel_of, stored};
ghost use Rattle.rules.specs.Distances.{distances_leaves};
ghost use Rattle.rules.specs.Reading.{empty_answer};
ghost use Rattle.rules.specs.Assembly.{assemble_leaves};
ghost use Rattle.rules.specs.Fit.{fit_leaves};
ghost use Rattle.rules.specs.Peel.{peel_answer, peel_leaves};
ghost use Rattle.rules.specs.Unpeel.{unpeel_answer, unpeel_leaves};
ghost use Rattle.rules.specs.Render.{render_answer, render_leaves};
ghost use Rattle.rules.specs.Stats.{stats_leaves};
ghost use Rattle.rules.specs.Still.{mask_leaves, apply_leaves, hold_leaves};
ghost use Rattle.rules.specs.Host.{numbers, reply_word};
ghost use Rattle.rules.specs.Parcel.{parcel_write_leaves, parcel_sizes_answer};
ghost use Rattle.rules.specs.Walk.{walk_start_answer, walk_due_word};
ghost use Rattle.calls.specs.Lent.{plane_of, mask_of, frames_of, layer_of, motion_by, pair_of, part_of, parts_of, slots_of, fit_of};
ghost use Rattle.calls.specs.Lent.{stats_call, fit_call, assemble_call, peel_call, unpeel_call, render_call};
ghost use Rattle.calls.specs.Lent.{parcel_write_call, walk_pair_call, walk_layer_call, settings_of, mask_call, apply_call, hold_call};
ghost use Rattle.parcel_read.specs.Read.{read_by, ReadTold};
ghost use Rattle.told.specs.Told.{Told, ToldThree, WorkStays, PairTold, LayerTold};

use fit_trial::Settings;
use layer_lent::Shape;
use motion::Grid;
use rules::{Sizes, Walk, Walked};
use sample::View;
use stats_refuse::{Frame, Pair};

// In the complete rows of the given width each cell becomes the least of 255 and of any cell's old byte plus the
// steps to it.
pub fn safeteal_distances(cells: &mut [u8], width: usize) -> u64
    ensures { (let c : DistancesCall = record { cells = cells.old; width = width } in
        Told (uncounted (distances_refusal c)) (distances_leaves c) cells.new result) }
{
    told::told(distances::distances(cells, width))
}

// Marks with 1 the pixels that stand still between two planes, and the others with 0.
pub fn safeteal_mask(
    first: &[u8],
    second: &[u8],
    pitch: usize,
    width: usize,
    height: usize,
    limit: f32,
    edge: f32,
    tolerance: f32,
    still: &mut [u8],
) -> u64
    ensures { let c = mask_call
        (plane_of first.now pitch)
        (plane_of second.now pitch)
        width height
        (settings_of limit edge tolerance)
        still.old in
        Told (uncounted (mask_refusal c)) (mask_leaves c) still.new result }
{
    let settings = still_same::Settings {
        limit,
        edge,
        tolerance,
    };
    told::told(still_mask::mask(still, first, second, pitch, width, height, settings))
}

// Mixes two planes by the time, where a mask says that the pixel stands still.
pub fn safeteal_apply<'f>(
    output: &mut [u8],
    output_pitch: usize,
    first: &'f [u8],
    second: &'f [u8],
    pitch: usize,
    width: usize,
    height: usize,
    still: &[u8],
    still_width: usize,
    time: f32,
) -> u64
    ensures { let c = apply_call
        (plane_of output.old output_pitch)
        (frames_of (plane_of first.now pitch) (plane_of second.now pitch) time)
        width height
        (mask_of still.now still_width) in
        Told (uncounted (apply_refusal c)) (apply_leaves c) output.new result }
{
    let numbers = still_cells::Numbers {
        width,
        height,
        pitch,
        output_pitch,
        mask_width: still_width,
    };
    let frames = still_pixel::Apply {
        first,
        second,
        time,
    };
    told::told(still_apply::apply(output, &frames, still, numbers))
}

// Weighs the bytes of a held plane into the output, by a mask of bytes.
pub fn safeteal_hold(
    output: &mut [u8],
    output_pitch: usize,
    held: &[u8],
    held_pitch: usize,
    width: usize,
    height: usize,
    mask: &[u8],
    mask_width: usize,
) -> u64
    ensures { let c = hold_call
        (plane_of output.old output_pitch)
        (plane_of held.now held_pitch)
        width height
        (mask_of mask.now mask_width) in
        Told (uncounted (hold_refusal c)) (hold_leaves c) output.new result }
{
    let numbers = still_cells::Numbers {
        width,
        height,
        pitch: held_pitch,
        output_pitch,
        mask_width,
    };
    told::told(still_hold::hold(output, held, mask, numbers))
}

// Adds one pair of frames to the sums of a part; with 0 pairs before, these start from 0.0.
pub fn safeteal_stats<'f, 'm>(
    luma: &mut [f32],
    chroma1: &mut [f32],
    chroma2: &mut [f32],
    pairs: usize,
    width: usize,
    height: usize,
    ratio: usize,
    first0: &'f [u8],
    first0_pitch: usize,
    first1: &'f [u8],
    first1_pitch: usize,
    first2: &'f [u8],
    first2_pitch: usize,
    second0: &'f [u8],
    second0_pitch: usize,
    second1: &'f [u8],
    second1_pitch: usize,
    second2: &'f [u8],
    second2_pitch: usize,
    forward_x: &'m [u16],
    forward_y: &'m [u16],
    backward_x: &'m [u16],
    backward_y: &'m [u16],
    grid_width: usize,
    grid_height: usize,
    block_width: i32,
    block_height: i32,
    origin_x: i32,
    origin_y: i32,
    pel: i32,
) -> u64
    ensures { let c = stats_call
        (part_of luma.old chroma1.old chroma2.old pairs)
        width height ratio
        (pair_of
        (plane_of first0.now first0_pitch)
        (plane_of first1.now first1_pitch)
        (plane_of first2.now first2_pitch)
        (plane_of second0.now second0_pitch)
        (plane_of second1.now second1_pitch)
        (plane_of second2.now second2_pitch)
        (motion_by
        forward_x.now forward_y.now backward_x.now backward_y.now
        grid_width grid_height block_width block_height origin_x origin_y pel)) in
        ToldThree (uncounted (stats_refusal c)) (stats_leaves c).luma (stats_leaves c).chroma
        luma.new chroma1.new chroma2.new result }
{
    let grid = Grid {
        width: grid_width,
        height: grid_height,
        block_width,
        block_height,
        origin_x,
        origin_y,
        pel,
    };
    let first = Frame {
        luma: View::new(first0, first0_pitch),
        chroma1: View::new(first1, first1_pitch),
        chroma2: View::new(first2, first2_pitch),
    };
    let second = Frame {
        luma: View::new(second0, second0_pitch),
        chroma1: View::new(second1, second1_pitch),
        chroma2: View::new(second2, second2_pitch),
    };
    let fields = [forward_x, forward_y, backward_x, backward_y];
    let pair = Pair {
        first,
        second,
        fields,
        grid,
    };
    let numbers = stats_refuse::Numbers {
        pairs,
        width,
        height,
        ratio,
    };
    told::told(stats::stats(luma, chroma1, chroma2, pair, numbers))
}

// Stores models and a cover as a layer.
pub fn safeteal_assemble(
    width: usize,
    height: usize,
    ratio: usize,
    models: &[f32],
    cover: &[u8],
    luma: &mut [i16],
    chroma1: &mut [i16],
    chroma2: &mut [i16],
) -> u64
    ensures { let c = assemble_call
        width height ratio
        models.now
        cover.now
        (fit_of luma.old chroma1.old chroma2.old) in
        ToldThree (uncounted (assemble_refusal c)) (assemble_leaves c).luma (assemble_leaves c).chroma
        luma.new chroma1.new chroma2.new result }
{
    told::told(assemble::assemble(luma, chroma1, chroma2, width, height, ratio, models, cover))
}

// Finds the lettering in the sums of a part and of its neighbours, and stores it as a layer. `before`, `pairs` and
// `after` are the pairs of the previous, own and next part. What the work slices (models, kept, cover) hold after
// acceptance is left free: alone of all slices here.
pub fn safeteal_fit<'s>(
    previous: &'s [f32],
    previous1: &'s [f32],
    previous2: &'s [f32],
    before: usize,
    own: &'s [f32],
    own1: &'s [f32],
    own2: &'s [f32],
    pairs: usize,
    next: &'s [f32],
    next1: &'s [f32],
    next2: &'s [f32],
    after: usize,
    width: usize,
    height: usize,
    limit: f32,
    evidence: f32,
    strict: bool,
    ratio: usize,
    models: &mut [f32],
    kept: &mut [u8],
    cover: &mut [u8],
    luma: &mut [i16],
    chroma1: &mut [i16],
    chroma2: &mut [i16],
) -> u64
    ensures { let c = fit_call
        (parts_of
        (part_of previous.now previous1.now previous2.now before)
        (part_of own.now own1.now own2.now pairs)
        (part_of next.now next1.now next2.now after))
        width height ratio
        limit evidence strict
        models.old kept.old cover.old
        (fit_of luma.old chroma1.old chroma2.old) in
        ToldThree (uncounted (fit_refusal c)) (fit_leaves c).luma (fit_leaves c).chroma
        luma.new chroma1.new chroma2.new result
        × WorkStays c models.new kept.new cover.new }
{
    let sums = [
        previous, previous1, previous2, own, own1, own2, next, next1, next2,
    ];
    let settings = Settings {
        limit,
        evidence,
        strict,
    };
    let numbers = fit_refuse::Numbers {
        width,
        height,
        ratio,
        pairs: [before, pairs, after],
        settings,
    };
    told::told(fit::fit(models, kept, cover, luma, chroma1, chroma2, sums, numbers))
}

// Lifts the lettering off a plane. The layer is lent as bytes.
pub fn safeteal_peel<'b>(
    luma: &'b [u8],
    chroma1: &'b [u8],
    chroma2: &'b [u8],
    luma_pitch: usize,
    chroma_pitch: usize,
    width: usize,
    height: usize,
    ratio: usize,
    plane: usize,
    output: &mut [u8],
    output_pitch: usize,
    raw: &[u8],
    raw_pitch: usize,
) -> u64
    ensures { let c = peel_call
        (layer_of
        (numbers luma.now) (numbers chroma1.now) (numbers chroma2.now)
        luma_pitch chroma_pitch width height ratio)
        plane
        (plane_of output.old output_pitch)
        (plane_of raw.now raw_pitch) in
        Told (peel_answer c) (peel_leaves c) output.new result }
{
    let shape = Shape {
        luma_pitch,
        chroma_pitch,
        width,
        height,
        ratio,
        plane,
        output_pitch,
        first_pitch: raw_pitch,
        second_pitch: raw_pitch,
        time: 0.0,
    };
    told::told(view::peel_of(output, shape, [luma, chroma1, chroma2], raw, raw_pitch))
}

// Lays the lettering back onto a plane between two frames. The layer is lent as bytes.
pub fn safeteal_unpeel<'b, 'f>(
    luma: &'b [u8],
    chroma1: &'b [u8],
    chroma2: &'b [u8],
    luma_pitch: usize,
    chroma_pitch: usize,
    width: usize,
    height: usize,
    ratio: usize,
    plane: usize,
    output: &mut [u8],
    output_pitch: usize,
    first: &'f [u8],
    first_pitch: usize,
    second: &'f [u8],
    second_pitch: usize,
    time: f32,
) -> u64
    ensures { let c = unpeel_call
        (layer_of
        (numbers luma.now) (numbers chroma1.now) (numbers chroma2.now)
        luma_pitch chroma_pitch width height ratio)
        plane
        (plane_of output.old output_pitch)
        (frames_of (plane_of first.now first_pitch) (plane_of second.now second_pitch) time) in
        Told (unpeel_answer c) (unpeel_leaves c) output.new result }
{
    let shape = Shape {
        luma_pitch,
        chroma_pitch,
        width,
        height,
        ratio,
        plane,
        output_pitch,
        first_pitch,
        second_pitch,
        time,
    };
    told::told(view::unpeel_of(
        output,
        shape,
        [luma, chroma1, chroma2],
        first,
        first_pitch,
        second,
        second_pitch,
    ))
}

// Peel with the layer lent as numbers.
pub fn safeteal_peel_numbers<'n>(
    luma: &'n [i16],
    chroma1: &'n [i16],
    chroma2: &'n [i16],
    luma_pitch: usize,
    chroma_pitch: usize,
    width: usize,
    height: usize,
    ratio: usize,
    plane: usize,
    output: &mut [u8],
    output_pitch: usize,
    raw: &[u8],
    raw_pitch: usize,
) -> u64
    ensures { let c = peel_call
        (layer_of
        luma.now chroma1.now chroma2.now
        luma_pitch chroma_pitch width height ratio)
        plane
        (plane_of output.old output_pitch)
        (plane_of raw.now raw_pitch) in
        Told (peel_answer c) (peel_leaves c) output.new result }
{
    let shape = Shape {
        luma_pitch,
        chroma_pitch,
        width,
        height,
        ratio,
        plane,
        output_pitch,
        first_pitch: raw_pitch,
        second_pitch: raw_pitch,
        time: 0.0,
    };
    told::told(view::peel_of(output, shape, [luma, chroma1, chroma2], raw, raw_pitch))
}

// Unpeel with the layer lent as numbers.
pub fn safeteal_unpeel_numbers<'n, 'f>(
    luma: &'n [i16],
    chroma1: &'n [i16],
    chroma2: &'n [i16],
    luma_pitch: usize,
    chroma_pitch: usize,
    width: usize,
    height: usize,
    ratio: usize,
    plane: usize,
    output: &mut [u8],
    output_pitch: usize,
    first: &'f [u8],
    first_pitch: usize,
    second: &'f [u8],
    second_pitch: usize,
    time: f32,
) -> u64
    ensures { let c = unpeel_call
        (layer_of
        luma.now chroma1.now chroma2.now
        luma_pitch chroma_pitch width height ratio)
        plane
        (plane_of output.old output_pitch)
        (frames_of (plane_of first.now first_pitch) (plane_of second.now second_pitch) time) in
        Told (unpeel_answer c) (unpeel_leaves c) output.new result }
{
    let shape = Shape {
        luma_pitch,
        chroma_pitch,
        width,
        height,
        ratio,
        plane,
        output_pitch,
        first_pitch,
        second_pitch,
        time,
    };
    told::told(view::unpeel_of(
        output,
        shape,
        [luma, chroma1, chroma2],
        first,
        first_pitch,
        second,
        second_pitch,
    ))
}

// Whether no cell of a layer is 0; the yes stands in the count's place.
pub fn safeteal_empty<'n>(
    luma: &'n [i16],
    chroma1: &'n [i16],
    chroma2: &'n [i16],
    luma_pitch: usize,
    chroma_pitch: usize,
    width: usize,
    height: usize,
    ratio: usize,
) -> u64
    ensures { result ≡ reply_word (empty_answer
        (layer_of
        luma.now chroma1.now chroma2.now
        luma_pitch chroma_pitch width height ratio)) }
{
    let shape = Shape {
        luma_pitch,
        chroma_pitch,
        width,
        height,
        ratio,
        plane: 0,
        output_pitch: 0,
        first_pitch: 0,
        second_pitch: 0,
        time: 0.0,
    };
    told::told(empty::empty(shape, [luma, chroma1, chroma2]))
}

// Makes a plane of the frame in between near the lettering, with the lettering on it.
pub fn safeteal_render<'n, 'f, 'm>(
    luma: &'n [i16],
    chroma1: &'n [i16],
    chroma2: &'n [i16],
    luma_pitch: usize,
    chroma_pitch: usize,
    width: usize,
    height: usize,
    ratio: usize,
    plane: usize,
    output: &mut [u8],
    output_pitch: usize,
    first: &'f [u8],
    first_pitch: usize,
    second: &'f [u8],
    second_pitch: usize,
    time: f32,
    forward_x: &'m [u16],
    forward_y: &'m [u16],
    backward_x: &'m [u16],
    backward_y: &'m [u16],
    grid_width: usize,
    grid_height: usize,
    block_width: i32,
    block_height: i32,
    origin_x: i32,
    origin_y: i32,
    pel: i32,
    algo: i32,
) -> u64
    ensures { let c = render_call
        (layer_of
        luma.now chroma1.now chroma2.now
        luma_pitch chroma_pitch width height ratio)
        plane
        (plane_of output.old output_pitch)
        (frames_of (plane_of first.now first_pitch) (plane_of second.now second_pitch) time)
        (motion_by
        forward_x.now forward_y.now backward_x.now backward_y.now
        grid_width grid_height block_width block_height origin_x origin_y pel)
        algo in
        Told (render_answer c) (render_leaves c) output.new result }
{
    let shape = Shape {
        luma_pitch,
        chroma_pitch,
        width,
        height,
        ratio,
        plane,
        output_pitch,
        first_pitch,
        second_pitch,
        time,
    };
    let grid = Grid {
        width: grid_width,
        height: grid_height,
        block_width,
        block_height,
        origin_x,
        origin_y,
        pel,
    };
    told::told(render::render(
        output,
        shape,
        [luma, chroma1, chroma2],
        first,
        second,
        [forward_x, forward_y, backward_x, backward_y],
        grid,
        algo,
    ))
}

// Writes a layer as a parcel.
pub fn safeteal_parcel_write<'n>(
    luma: &'n [i16],
    chroma1: &'n [i16],
    chroma2: &'n [i16],
    luma_pitch: usize,
    chroma_pitch: usize,
    width: usize,
    height: usize,
    ratio: usize,
    parcel: &mut [u8],
) -> u64
    ensures { let c = parcel_write_call
        (layer_of
        luma.now chroma1.now chroma2.now
        luma_pitch chroma_pitch width height ratio)
        parcel.old in
        Told (uncounted (parcel_write_refusal c)) (parcel_write_leaves c) parcel.new result }
{
    let shape = Shape {
        luma_pitch,
        chroma_pitch,
        width,
        height,
        ratio,
        plane: 0,
        output_pitch: 0,
        first_pitch: 0,
        second_pitch: 0,
        time: 0.0,
    };
    told::told(parcel_write::write(parcel, shape, [luma, chroma1, chroma2]))
}

// Reads a parcel into a layer, and answers the sizes and the ratio of its head.
pub fn safeteal_parcel_read(
    parcel: &[u8],
    luma: &mut [i16],
    chroma1: &mut [i16],
    chroma2: &mut [i16],
) -> Sizes
    ensures { ReadTold
        (read_by parcel.now luma.old chroma1.old chroma2.old)
        luma.new chroma1.new chroma2.new result }
{
    parcel_read::told(parcel_read::read(luma, chroma1, chroma2, parcel))
}

// The sizes and the ratio of a parcel's head.
pub fn safeteal_parcel_sizes(parcel: &[u8]) -> Sizes
    ensures { result ≡ parcel_sizes_answer parcel.now }
{
    parcel_read::told(parcel_read::sizes_of(parcel))
}

// Starts a walk over a clip of that many pairs.
pub fn safeteal_walk_start(width: usize, height: usize, ratio: usize, pairs: usize) -> Walked
    ensures { result ≡ walk_start_answer (width, height) ratio pairs }
{
    let none = Walk {
        width: 0,
        height: 0,
        ratio: 0,
        pairs: 0,
        added: 0,
        taken: 0,
    };
    walk_state::told(walk_state::start(width, height, ratio, pairs), none)
}

// Hands a pair over to a walk: adds it to the sums of its chunk. Of these, `chroma12` are those of plane 2 in slot 1.
pub fn safeteal_walk_pair<'f, 'm>(
    walk: Walk,
    luma0: &mut [f32],
    chroma01: &mut [f32],
    chroma02: &mut [f32],
    luma1: &mut [f32],
    chroma11: &mut [f32],
    chroma12: &mut [f32],
    luma2: &mut [f32],
    chroma21: &mut [f32],
    chroma22: &mut [f32],
    number: usize,
    first0: &'f [u8],
    first0_pitch: usize,
    first1: &'f [u8],
    first1_pitch: usize,
    first2: &'f [u8],
    first2_pitch: usize,
    second0: &'f [u8],
    second0_pitch: usize,
    second1: &'f [u8],
    second1_pitch: usize,
    second2: &'f [u8],
    second2_pitch: usize,
    forward_x: &'m [u16],
    forward_y: &'m [u16],
    backward_x: &'m [u16],
    backward_y: &'m [u16],
    grid_width: usize,
    grid_height: usize,
    block_width: i32,
    block_height: i32,
    origin_x: i32,
    origin_y: i32,
    pel: i32,
) -> Walked
    ensures { let c = walk_pair_call walk
        (slots_of
        luma0.old chroma01.old chroma02.old
        luma1.old chroma11.old chroma12.old
        luma2.old chroma21.old chroma22.old)
        number
        (pair_of
        (plane_of first0.now first0_pitch)
        (plane_of first1.now first1_pitch)
        (plane_of first2.now first2_pitch)
        (plane_of second0.now second0_pitch)
        (plane_of second1.now second1_pitch)
        (plane_of second2.now second2_pitch)
        (motion_by
        forward_x.now forward_y.now backward_x.now backward_y.now
        grid_width grid_height block_width block_height origin_x origin_y pel)) in
        PairTold c
        (slots_of
        luma0.new chroma01.new chroma02.new
        luma1.new chroma11.new chroma12.new
        luma2.new chroma21.new chroma22.new)
        result }
{
    let grid = Grid {
        width: grid_width,
        height: grid_height,
        block_width,
        block_height,
        origin_x,
        origin_y,
        pel,
    };
    let first = Frame {
        luma: View::new(first0, first0_pitch),
        chroma1: View::new(first1, first1_pitch),
        chroma2: View::new(first2, first2_pitch),
    };
    let second = Frame {
        luma: View::new(second0, second0_pitch),
        chroma1: View::new(second1, second1_pitch),
        chroma2: View::new(second2, second2_pitch),
    };
    let fields = [forward_x, forward_y, backward_x, backward_y];
    let pair = Pair {
        first,
        second,
        fields,
        grid,
    };
    let done = walk_pair::pair(
        luma0, chroma01, chroma02, luma1, chroma11, chroma12, luma2, chroma21, chroma22, walk,
        pair, number,
    );
    walk_state::told(done, walk)
}

// Takes the layer of a walk that is due. What the work slices (models, kept, cover) hold after acceptance is left free,
// as in fit.
pub fn safeteal_walk_layer<'s>(
    walk: Walk,
    luma0: &'s [f32],
    chroma01: &'s [f32],
    chroma02: &'s [f32],
    luma1: &'s [f32],
    chroma11: &'s [f32],
    chroma12: &'s [f32],
    luma2: &'s [f32],
    chroma21: &'s [f32],
    chroma22: &'s [f32],
    limit: f32,
    evidence: f32,
    strict: bool,
    models: &mut [f32],
    kept: &mut [u8],
    cover: &mut [u8],
    luma: &mut [i16],
    chroma1: &mut [i16],
    chroma2: &mut [i16],
) -> Walked
    ensures { let c = walk_layer_call walk
        (slots_of
        luma0.now chroma01.now chroma02.now
        luma1.now chroma11.now chroma12.now
        luma2.now chroma21.now chroma22.now)
        limit evidence strict
        models.old kept.old cover.old
        (fit_of luma.old chroma1.old chroma2.old) in
        LayerTold c
        models.new kept.new cover.new
        (fit_of luma.new chroma1.new chroma2.new) result }
{
    let sums = [
        luma0, chroma01, chroma02, luma1, chroma11, chroma12, luma2, chroma21, chroma22,
    ];
    let settings = Settings {
        limit,
        evidence,
        strict,
    };
    let done = walk_layer::layer(
        models, kept, cover, luma, chroma1, chroma2, walk, sums, settings,
    );
    walk_state::told(done, walk)
}

// Whether a layer of a walk is due. The yes stands in the count's place, as in empty.
pub fn safeteal_walk_due(walk: Walk) -> u64
    ensures { result ≡ walk_due_word walk }
{
    told::told(Ok(walk_state::asked(walk)))
}

// The final rounding by itself, for a run over all floats.
pub fn safeteal_pixel(value: f32) -> u64
    ensures { result ≡ pixel_of value }
{
    u64::from(float::pixel(value))
}

// The storing by itself, for a run over all floats and scales.
pub fn safeteal_stored(value: f32, scale: f32) -> i16
    ensures { result ≡ stored value scale }
{
    float::fixed(value, scale)
}
