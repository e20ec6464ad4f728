// How far a motion reaches.
#![tactic(auto)]

ghost use Rattle.std.specs.Prelude.{◌≡◌, ◌≤◌, max, nat_abs};
ghost use Rattle.rules.specs.Forms.{apart as apart_of};
ghost use Rattle.rules.specs.Render.{farthest as farthest_of, far as far_of};
ghost use Rattle.motion.specs.Moves.{motion_of};

use motion::Grid;

// The largest of a number and of a field's distances from 1024, which stands for no motion.
fn farthest(field: &[u16], least: u16) -> u16
    ensures { result ≡ farthest_of field.now least }
{
    field
        .iter()
        .fold(least, |most, number| most.max(number.abs_diff(1024)))
}

// The largest distance of all four fields, in luma pixels.
#[tactic(auto, unfolding(rules::specs::Render::far))]
pub fn far(fields: [&[u16]; 4], grid: Grid) -> f32
    requires { nat_abs grid.pel ≤ 4096 }
    ensures { result ≡ far_of (motion_of fields.entry grid) }
{
    let forward = farthest(fields[1], farthest(fields[0], 0));
    let all = farthest(fields[3], farthest(fields[2], forward));
    (all as f32) / motion::of_int(grid.pel)
}
