// Peel and unpeel: the layer taken off, and laid on again. The contract of each is the equation for accepted and
// refused calls.
#![tactic(auto)]

ghost use Rattle.peel.specs.Call.{peel_of, unpeel_of, Peeled, Unpeeled};

use layer_lent::{Lent, Seen, Shape, Sheet};
use lift_straight::Unpeel;
use rules::Refusal;

// Peels a plane. The pitches of the shape's frames are not looked at: those of the byte planes stand beside them.
pub fn peel<L: Lent>(
    output: &mut [u8],
    shape: Shape,
    layer: L,
    raw: &[u8],
    pitch: usize,
) -> Result<usize, Refusal>
    ensures { Peeled (peel_of shape (L.held layer) output.old raw.entry pitch) output.new result }
{
    let mut over = shape;
    over.first_pitch = pitch;
    over.second_pitch = pitch;
    layer_refuse::peel_refusal(over, layer, output, [raw, raw])?;
    let plan = layer_lent::planned(over);
    let sheet = Sheet { layer, plan };
    let seen = Seen { sheet, raw, pitch };
    Ok(lift_rows::rows(output, seen))
}

// Unpeels one. Here too they stand beside the planes.
pub fn unpeel<'o, 'f, L: Lent>(
    output: &'o mut [u8],
    shape: Shape,
    layer: L,
    first: &'f [u8],
    first_pitch: usize,
    second: &'f [u8],
    second_pitch: usize,
) -> Result<usize, Refusal>
    ensures { Unpeeled (unpeel_of shape (L.held layer) output.old first.entry first_pitch second.entry second_pitch) output.new result }
{
    let mut over = shape;
    over.first_pitch = first_pitch;
    over.second_pitch = second_pitch;
    layer_refuse::unpeel_refusal(over, layer, output, [first, second])?;
    let plan = layer_lent::planned(over);
    let sheet = Sheet { layer, plan };
    let work = Unpeel {
        sheet,
        first,
        second,
    };
    Ok(lift_rows::rows(output, work))
}
