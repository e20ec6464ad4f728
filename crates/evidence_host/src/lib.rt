// Demand 3 held to the exported calls. Its statement and its proof are the crate evidence_calls'; the functions here
// hold the statement's hypotheses to the calls: each is such a call, and its contract is in the statement's words.
// Of a `shape` they take the layer's numbers, the pitches and the time; plane 0 goes by the function.
// Kept: (a) a claim is held to the exported call itself, by each of the arguments that the C interface names: so these
// stand here again, those of peel and unpeel once for each form that a layer is lent in.
#![tactic(auto)]

ghost use Rattle.rules.specs.Peel.{peel_answer, peel_leaves};
ghost use Rattle.rules.specs.Unpeel.{unpeel_answer, unpeel_leaves};
ghost use Rattle.calls.specs.Lent.{plane_of, fit_of, peel_call, unpeel_call};
ghost use Rattle.told.specs.Told.{Told};
ghost use Rattle.layer_lent.specs.Lent.{lay, output_by, frames_by};
ghost use Rattle.plane.specs.Slices.{slice};
ghost use Rattle.motion.specs.Moves.{motion_of};
ghost use Rattle.fit_refuse.specs.Call.{fit_by};
ghost use Rattle.evidence.specs.Evidence.{peel_luma, unpeel_luma, render_plane};
ghost use Rattle.evidence_calls.specs.Calls.{FitTold, LaterTold};

use layer_lent::{Lent, Shape};
use motion::Grid;

// A layer in one of the two forms that it is lent in, with the exported calls of that form: each method is such a call,
// with the call's equation for its contract.
pub trait Form: Lent {
    // Peel of a plane.
    fn peel(self, output: &mut [u8], shape: Shape, raw: &[u8]) -> u64
        ensures { let c = peel_call (lay shape (Self.held self)) shape.plane (output_by shape output.old) (plane_of raw.now shape.first_pitch) in
            Told (peel_answer c) (peel_leaves c) output.new result };

    // Unpeel of a plane.
    fn unpeel<'f>(self, output: &mut [u8], shape: Shape, frames: [&'f [u8]; 2]) -> u64
        ensures { let c = unpeel_call (lay shape (Self.held self)) shape.plane (output_by shape output.old) (frames_by shape frames.entry) in
            Told (unpeel_answer c) (unpeel_leaves c) output.new result };
}

// Lent as numbers.
impl<'n> Form for [&'n [i16]; 3] {
    fn peel(self, output: &mut [u8], shape: Shape, raw: &[u8]) -> u64 {
        let [luma, chroma1, chroma2] = self;
        host::safeteal_peel_numbers(
            luma,
            chroma1,
            chroma2,
            shape.luma_pitch,
            shape.chroma_pitch,
            shape.width,
            shape.height,
            shape.ratio,
            shape.plane,
            output,
            shape.output_pitch,
            raw,
            shape.first_pitch,
        )
    }

    fn unpeel<'f>(self, output: &mut [u8], shape: Shape, frames: [&'f [u8]; 2]) -> u64 {
        let [luma, chroma1, chroma2] = self;
        host::safeteal_unpeel_numbers(
            luma,
            chroma1,
            chroma2,
            shape.luma_pitch,
            shape.chroma_pitch,
            shape.width,
            shape.height,
            shape.ratio,
            shape.plane,
            output,
            shape.output_pitch,
            frames[0],
            shape.first_pitch,
            frames[1],
            shape.second_pitch,
            shape.time,
        )
    }
}

// Lent as little-endian bytes, as the pre-press host lends it.
impl<'b> Form for [&'b [u8]; 3] {
    fn peel(self, output: &mut [u8], shape: Shape, raw: &[u8]) -> u64 {
        let [luma, chroma1, chroma2] = self;
        host::safeteal_peel(
            luma,
            chroma1,
            chroma2,
            shape.luma_pitch,
            shape.chroma_pitch,
            shape.width,
            shape.height,
            shape.ratio,
            shape.plane,
            output,
            shape.output_pitch,
            raw,
            shape.first_pitch,
        )
    }

    fn unpeel<'f>(self, output: &mut [u8], shape: Shape, frames: [&'f [u8]; 2]) -> u64 {
        let [luma, chroma1, chroma2] = self;
        host::safeteal_unpeel(
            luma,
            chroma1,
            chroma2,
            shape.luma_pitch,
            shape.chroma_pitch,
            shape.width,
            shape.height,
            shape.ratio,
            shape.plane,
            output,
            shape.output_pitch,
            frames[0],
            shape.first_pitch,
            frames[1],
            shape.second_pitch,
            shape.time,
        )
    }
}

// A fit.
pub fn fit<'s>(
    models: &mut [f32],
    kept: &mut [u8],
    cover: &mut [u8],
    luma: &mut [i16],
    chroma1: &mut [i16],
    chroma2: &mut [i16],
    sums: [&'s [f32]; 9],
    numbers: fit_refuse::Numbers,
) -> u64
    ensures { FitTold
        (fit_by sums.entry numbers models.old kept.old cover.old
        (fit_of luma.old chroma1.old chroma2.old))
        (fit_of luma.new chroma1.new chroma2.new) result }
{
    let settings = numbers.settings;
    host::safeteal_fit(
        sums[0],
        sums[1],
        sums[2],
        numbers.pairs[0],
        sums[3],
        sums[4],
        sums[5],
        numbers.pairs[1],
        sums[6],
        sums[7],
        sums[8],
        numbers.pairs[2],
        numbers.width,
        numbers.height,
        settings.limit,
        settings.evidence,
        settings.strict,
        numbers.ratio,
        models,
        kept,
        cover,
        luma,
        chroma1,
        chroma2,
    )
}

// The later call: peel of luma, on a layer in either form. Of bytes the layer is that of the numbers that they stand
// for.
pub fn peel<L: Form>(output: &mut [u8], shape: Shape, layer: L, raw: &[u8]) -> u64
    ensures { LaterTold
        (peel_luma (output_by shape output.old) (plane_of raw.now shape.first_pitch))
        (lay shape (L.held layer)) output.new result }
{
    layer.peel(output, Shape { plane: 0, ..shape }, raw)
}

// Unpeel of luma, on a layer in either form.
pub fn unpeel<'f, L: Form>(output: &mut [u8], shape: Shape, layer: L, frames: [&'f [u8]; 2]) -> u64
    ensures { LaterTold
        (unpeel_luma (output_by shape output.old) (frames_by shape frames.entry))
        (lay shape (L.held layer)) output.new result }
{
    layer.unpeel(output, Shape { plane: 0, ..shape }, frames)
}

// Render of any plane.
pub fn render<'n, 'f, 'm>(
    output: &mut [u8],
    shape: Shape,
    numbers: [&'n [i16]; 3],
    frames: [&'f [u8]; 2],
    fields: [&'m [u16]; 4],
    grid: Grid,
    algo: i32,
) -> u64
    ensures { LaterTold
        (render_plane shape.plane (output_by shape output.old) (frames_by shape frames.entry)
        (motion_of fields.entry grid) algo)
        (lay shape (slice numbers.entry)) output.new result }
{
    host::safeteal_render(
        numbers[0],
        numbers[1],
        numbers[2],
        shape.luma_pitch,
        shape.chroma_pitch,
        shape.width,
        shape.height,
        shape.ratio,
        shape.plane,
        output,
        shape.output_pitch,
        frames[0],
        shape.first_pitch,
        frames[1],
        shape.second_pitch,
        shape.time,
        fields[0],
        fields[1],
        fields[2],
        fields[3],
        grid.width,
        grid.height,
        grid.block_width,
        grid.block_height,
        grid.origin_x,
        grid.origin_y,
        grid.pel,
        algo,
    )
}
