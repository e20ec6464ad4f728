// Render: the layer laid on a frame made between two others.
#![tactic(auto)]

ghost use Rattle.std.specs.Prelude.{◌≡◌, [], ◌∷◌, ℤ};
ghost use Rattle.rules.specs.Refusals.{render_refusal, numbered};
ghost use Rattle.render.specs.Call.{render_by, Rendered};

use layer_lent::{Lent, Seen, Shape, Sheet};
use motion::{Grid, Lattice, Motion};
use render_pixel::Frames;
use render_rows::Job;
use rules::Refusal;

// The tests of render, in the order of the table. None looks at `algo`.
fn tested<L: Lent>(
    shape: Shape,
    layer: L,
    output: &[u8],
    frames: [&[u8]; 2],
    fields: [&[u16]; 4],
    grid: Grid,
) -> Result<(), Refusal>
    ensures { (algo : ℤ) → numbered result ≡ render_refusal (render_by shape (L.held layer) output.now frames.entry fields.entry grid algo) }
{
    layer_refuse::frames_rows(shape, layer, output, frames)?;
    motion_limits::motion_refusal(fields, grid)?;
    plane::ensure(plane::timed(shape.time), Refusal::Setting)
}

// Renders, or refuses: the contract is the equation for both. The fields are forward across and down, then backward.
pub fn render<'o, 'f, 'm, L: Lent>(
    output: &'o mut [u8],
    shape: Shape,
    layer: L,
    first: &'f [u8],
    second: &'f [u8],
    fields: [&'m [u16]; 4],
    grid: Grid,
    algo: i32,
) -> Result<usize, Refusal>
    ensures { let frames = first.entry ∷ second.entry ∷ [] in
        Rendered (render_by shape (L.held layer) output.old frames fields.entry grid algo) output.new result }
{
    tested(shape, layer, output, [first, second], fields, grid)?;
    let far = motion_far::far(fields, grid);
    let plan = layer_lent::planned(shape);
    let lattice = Lattice {
        grid,
        ratio: plan.span,
    };
    let motion = Motion { fields, lattice };
    let sheet = Sheet { layer, plan };
    let frames = Frames {
        first: Seen {
            sheet,
            raw: first,
            pitch: shape.first_pitch,
        },
        second: Seen {
            sheet,
            raw: second,
            pitch: shape.second_pitch,
        },
    };
    let job = Job {
        frames,
        motion,
        algo,
        far,
    };
    Ok(job.rows(output))
}
