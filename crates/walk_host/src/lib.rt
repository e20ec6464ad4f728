// The claims of a walk held to the exported calls. Their statements and proofs are the crates walk_whole's and
// evidence_walk's. Each function here is such a call, and its contract says that the walk goes on by it, whatever calls
// came before; of a layer also that it is the one of the clip held together; and that 8 is not answered.
// Kept: (a) a claim is held to the exported call itself, by each of the arguments that the C interface names: so these
// stand here again. A pair is lent as the exported call is lent it.
#![tactic(auto)]

ghost use Rattle.calls.specs.Lent.{plane_of, motion_by, pair_of, slots_of, fit_of};
ghost use Rattle.walk_layer.specs.Call.{slots_by};
ghost use Rattle.walk_host.specs.Held.{Starts, Hands, Takes, asked_by};

use fit_trial::Settings;
use rules::{Walk, Walked};

// A start.
pub fn start(width: usize, height: usize, ratio: usize, pairs: usize) -> Walked
    ensures { Starts (width, height) ratio pairs result }
{
    host::safeteal_walk_start(width, height, ratio, pairs)
}

// A pair.
pub fn pair<'f, 'm>(
    walk: Walk,
    luma0: &mut [f32],
    chroma01: &mut [f32],
    chroma02: &mut [f32],
    luma1: &mut [f32],
    chroma11: &mut [f32],
    chroma12: &mut [f32],
    luma2: &mut [f32],
    chroma21: &mut [f32],
    chroma22: &mut [f32],
    number: usize,
    first0: &'f [u8],
    first0_pitch: usize,
    first1: &'f [u8],
    first1_pitch: usize,
    first2: &'f [u8],
    first2_pitch: usize,
    second0: &'f [u8],
    second0_pitch: usize,
    second1: &'f [u8],
    second1_pitch: usize,
    second2: &'f [u8],
    second2_pitch: usize,
    forward_x: &'m [u16],
    forward_y: &'m [u16],
    backward_x: &'m [u16],
    backward_y: &'m [u16],
    grid_width: usize,
    grid_height: usize,
    block_width: i32,
    block_height: i32,
    origin_x: i32,
    origin_y: i32,
    pel: i32,
) -> Walked
    ensures { Hands walk
        (slots_of
        luma0.old chroma01.old chroma02.old
        luma1.old chroma11.old chroma12.old
        luma2.old chroma21.old chroma22.old)
        number
        (pair_of
        (plane_of first0.now first0_pitch)
        (plane_of first1.now first1_pitch)
        (plane_of first2.now first2_pitch)
        (plane_of second0.now second0_pitch)
        (plane_of second1.now second1_pitch)
        (plane_of second2.now second2_pitch)
        (motion_by
        forward_x.now forward_y.now backward_x.now backward_y.now
        grid_width grid_height block_width block_height origin_x origin_y pel))
        (slots_of
        luma0.new chroma01.new chroma02.new
        luma1.new chroma11.new chroma12.new
        luma2.new chroma21.new chroma22.new)
        result }
{
    host::safeteal_walk_pair(
        walk,
        luma0,
        chroma01,
        chroma02,
        luma1,
        chroma11,
        chroma12,
        luma2,
        chroma21,
        chroma22,
        number,
        first0,
        first0_pitch,
        first1,
        first1_pitch,
        first2,
        first2_pitch,
        second0,
        second0_pitch,
        second1,
        second1_pitch,
        second2,
        second2_pitch,
        forward_x,
        forward_y,
        backward_x,
        backward_y,
        grid_width,
        grid_height,
        block_width,
        block_height,
        origin_x,
        origin_y,
        pel,
    )
}

// A layer.
pub fn layer<'s>(
    models: &mut [f32],
    kept: &mut [u8],
    cover: &mut [u8],
    luma: &mut [i16],
    chroma1: &mut [i16],
    chroma2: &mut [i16],
    walk: Walk,
    sums: [&'s [f32]; 9],
    settings: Settings,
) -> Walked
    ensures { Takes walk (slots_by sums.entry)
        (asked_by settings models.old kept.old cover.old (fit_of luma.old chroma1.old chroma2.old))
        (fit_of luma.new chroma1.new chroma2.new) result }
{
    host::safeteal_walk_layer(
        walk,
        sums[0],
        sums[1],
        sums[2],
        sums[3],
        sums[4],
        sums[5],
        sums[6],
        sums[7],
        sums[8],
        settings.limit,
        settings.evidence,
        settings.strict,
        models,
        kept,
        cover,
        luma,
        chroma1,
        chroma2,
    )
}
