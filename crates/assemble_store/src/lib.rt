// The numbers of a layer, stored pixel by pixel.
#![tactic(auto)]

ghost use Rattle.std.specs.Prelude.{◌≡◌, cond, ◌&&◌, ◌+◌, ◌*◌, ◌<◌, ◌≤◌, ltb, get_or};
ghost use Rattle.rules.specs.Assembly.{stored_gain, luma_entry, model_slice, assembled};
ghost use Rattle.assemble_offsets.specs.Sizes.{Formed, Block};
ghost use Rattle.table.specs.Filled.{Paired};
ghost use Rattle.assemble_store.specs.Entries.{Covered, LumaFits, RunFits, CoverLong, ChromaLong, models_of, PairPut};
ghost use Rattle.assemble_store.specs.Entries.{points, tail_entry, chroma_entry, PointsStored, Source, Room, RowsStored, Stored};

use assemble_offsets::Sizes;
use rules::Gain;

// A gain as it is stored.
fn stored_gain(value: f32) -> Gain
    ensures { result ≡ stored_gain value }
{
    Gain(float::fixed(value, 4096.0))
}

// The gain and the offset of luma pixel `at`.
fn put_luma(luma: &mut [i16], models: &[f32], pixels: usize, at: usize)
    requires { LumaFits luma.old models.now pixels at }
    ensures { PairPut (luma_entry (model_slice models.now pixels) pixels) pixels at luma.old luma.new }
{
    let gain = stored_gain(models[at * 4]);
    let offset = assemble_offsets::stored_offset(models[at * 4 + 1]);
    table::put_pair(luma, pixels, at, gain.0, offset.0);
}

// Those of the luma pixels from `lo` on, below `hi`.
fn luma_run(luma: &mut [i16], models: &[f32], pixels: usize, lo: usize, hi: usize)
    requires { RunFits luma.old models.now pixels lo hi }
    ensures { Paired (luma_entry (model_slice models.now pixels) pixels) pixels lo hi luma.old luma.new }
{
    for at in lo..hi {
        put_luma(luma, models, pixels, at);
    }
}

// The cell that stands at column x of row y of a chroma plane, 0 where there is none.
fn cell(cover: &[u8], across: usize, down: usize, x: usize, y: usize) -> u8
    requires { Covered cover.now across down }
    ensures { result ≡ cond (ltb x across && ltb y down) (get_or cover.now (y * across + x) 0) 0 }
{
    if x < across && y < down {
        cover[plane::place(y, across, x)]
    } else {
        0
    }
}

// What a layer of these sizes is made of: its models and its cover.
#[derive(Clone, Copy)]
struct Models<'m> {
    sizes: Sizes,
    floats: &'m [f32],
    cover: &'m [u8],
    ghost ready: { Source sizes floats.now cover.now },
}

impl Models<'_> {
    // What stands at column x of row y in the second half of plane 1 or 2: no cell is in plane 1.
    fn tail(self, plane: usize, x: usize, y: usize) -> i16
        requires { x < self.sizes.chroma_width }
        ensures { result
            ≡ tail_entry self.entry.cover.now (self.entry.sizes.width, self.entry.sizes.height) self.entry.sizes.chroma_width plane
            (y * self.entry.sizes.chroma_width + x) }
    {
        if plane == 1 {
            return 0;
        }
        let across = table::cells(self.sizes.width);
        let down = table::cells(self.sizes.height);
        i16::from(cell(self.cover, across, down, x, y))
    }

    // The offset and the cell of a chroma pixel of plane 1 or 2.
    fn put_chroma(self, chroma: &mut [i16], plane: usize, x: usize, y: usize)
        requires long { ChromaLong chroma.old self.sizes }
        requires block { Block self.sizes plane x y }
        ensures { PairPut (chroma_entry (models_of self.entry.floats.now self.entry.sizes) self.entry.cover.now self.entry.sizes plane)
            (points self.entry.sizes) (y * self.entry.sizes.chroma_width + x) chroma.old chroma.new }
    {
        let sizes = self.sizes;
        let points = plane::place(sizes.chroma_width, sizes.chroma_height, 0);
        let k = plane::place(y, sizes.chroma_width, x);
        let offset = assemble_offsets::stored_total(sizes, self.floats, plane, x, y);
        let cell = self.tail(plane, x, y);
        table::put_pair(chroma, points, k, offset.0, cell);
    }

    // Those of a chroma row.
    fn chroma_run(self, chroma: &mut [i16], plane: usize, y: usize)
        requires long { ChromaLong chroma.old self.sizes }
        requires some { 1 ≤ plane }
        requires few { plane ≤ 2 }
        requires above { y < self.sizes.chroma_height }
        ensures { PointsStored self.entry.sizes (models_of self.entry.floats.now self.entry.sizes) self.entry.cover.now plane
            (y * self.entry.sizes.chroma_width)
            (y * self.entry.sizes.chroma_width + self.entry.sizes.chroma_width) chroma.old chroma.new }
    {
        for x in 0..self.sizes.chroma_width {
            self.put_chroma(chroma, plane, x, y);
        }
    }

    // A row of chroma pixels, and the luma pixels that it spans.
    fn store_row(self, luma: &mut [i16], chroma1: &mut [i16], chroma2: &mut [i16], y: usize)
        requires room { Room luma.old chroma1.old chroma2.old self.sizes }
        requires above { y < self.sizes.chroma_height }
        ensures { RowsStored self.entry.sizes (models_of self.entry.floats.now self.entry.sizes) self.entry.cover.now y (y + 1)
            luma.old chroma1.old chroma2.old
            luma.new chroma1.new chroma2.new }
    {
        let pixels = plane::place(self.sizes.width, self.sizes.height, 0);
        let band = plane::place(self.sizes.ratio, self.sizes.width, 0);
        let lo = y * band;
        luma_run(luma, self.floats, pixels, lo, lo + band);
        self.chroma_run(chroma1, 1, y);
        self.chroma_run(chroma2, 2, y);
    }
}

// All of them: the layer.
pub fn store(
    luma: &mut [i16],
    chroma1: &mut [i16],
    chroma2: &mut [i16],
    sizes: Sizes,
    models: &[f32],
    cover: &[u8],
)
    requires source { Source sizes models.now cover.now }
    requires room { Room luma.old chroma1.old chroma2.old sizes }
    ensures { Stored (assembled (models_of models.now sizes) cover.now (sizes.width, sizes.height) sizes.ratio)
        luma.new chroma1.new chroma2.new }
{
    let source = Models {
        sizes,
        floats: models,
        cover,
    };
    for y in 0..sizes.chroma_height {
        source.store_row(luma, chroma1, chroma2, y);
    }
}
