// Tables: slices of which each entry is a function of its place, and their lengths.
#![tactic(auto)]

ghost use Rattle.std.specs.Prelude.{◌≡◌, ◌+◌, ◌*◌, ◌<◌, ◌≤◌, eqb, length, set};
ghost use Rattle.rules.specs.Forms.{cells as cells_of};
ghost use Rattle.table.specs.Models.{model_put};

use rules::Model;

// What a luma pixel is fitted with: its model, and its offset of each chroma plane.
#[derive(Clone, Copy)]
pub struct Fitted {
    pub model: Model,
    pub chroma: (f32, f32),
}

// A pixel for which nothing is found.
pub const UNFITTED: Fitted = Fitted {
    model: Model {
        gain: 1.0,
        offset: 0.0,
    },
    chroma: (0.0, 0.0),
};

// How many cells lie along a side: the whole ones, and one more where these are not all of it.
pub fn cells(size: usize) -> usize
    ensures { result ≡ cells_of size }
{
    // Kept: (a) a rule of the project: one way from a pixel to its cell, which holds no division. div_ceil would be a
    // second one.
    let whole = layer_lookup::cell_of(size, 8);
    if whole * 8 == size { whole } else { whole + 1 }
}

// A cover of this length has a byte for each cell.
pub fn exact_cover(size: usize, width: usize, height: usize) -> bool
    ensures { result ≡ eqb size (cells_of width * cells_of height) }
{
    plane::is_product(size, cells(width), cells(height))
}

// Entry k of the first half of a slice, and of its second.
pub fn put_pair(slice: &mut [i16], half: usize, k: usize, first: i16, second: i16)
    requires { half + k < length slice.old }
    ensures { slice.new ≡ set (set slice.old k first) (half + k) second }
{
    slice[k] = first;
    slice[half + k] = second;
}

// The four floats of luma pixel `at`.
pub fn put_model(models: &mut [f32], at: usize, fitted: Fitted)
    requires { at * 4 + 4 ≤ length models.old }
    ensures { models.new ≡ model_put models.old at fitted.model.gain fitted.model.offset fitted.chroma.0 fitted.chroma.1 }
{
    let k = at * 4;
    models[k] = fitted.model.gain;
    models[k + 1] = fitted.model.offset;
    models[k + 2] = fitted.chroma.0;
    models[k + 3] = fitted.chroma.1;
}
