// The writer of parcels: a layer as six records, one after another.
#![tactic(auto)]

ghost use Rattle.std.specs.Prelude.{◌≡◌, ◌+◌, ◌*◌, ◌≤◌, eqb, length, take, drop};
ghost use Rattle.rules.specs.Domain.{parcel_length};
ghost use Rattle.rules.specs.Refusals.{numbered, parcel_write_refusal};
ghost use Rattle.rules.specs.Parcel.{run_bytes, layer_records};
ghost use Rattle.plane.specs.Slices.{slice};
ghost use Rattle.table.specs.Put.{Put};
ghost use Rattle.layer_lent.specs.Lent.{lay};
ghost use Rattle.parcel_write.specs.Write.{WriteTold, write_by, Fitting};

use layer_lent::{Lent, Shape};
use parcel_put::Run;
use rules::Refusal;

// The output has exactly the length of a parcel of these sizes.
fn exact(size: usize, shape: Shape) -> bool
    requires wide { shape.width ≤ 4096 }
    requires tall { shape.height ≤ 4096 }
    ensures { result ≡ eqb size (parcel_length (shape.width, shape.height) shape.ratio) }
{
    let pixels = shape.width * shape.height;
    let across = plane::divided(shape.width, shape.ratio);
    let points = across * plane::divided(shape.height, shape.ratio);
    let marks = table::cells(shape.width) * table::cells(shape.height);
    size == 42 + 2 * (2 * pixels + 2 * points + marks)
}

// The tests of the writer, in the order of the table.
pub fn refusal<L: Lent>(parcel: &[u8], shape: Shape, layer: L) -> Result<(), Refusal>
    requires { shape.plane ≡ 0 }
    ensures { numbered result ≡ parcel_write_refusal (write_by shape (L.held layer) parcel.now) }
{
    layer_refuse::rows(shape, layer, &[])?;
    plane::ensure(exact(parcel.len(), shape), Refusal::Length)
}

// A layer that no row refuses, lent as numbers.
#[derive(Clone, Copy)]
struct Layer<'l> {
    shape: Shape,
    numbers: [&'l [i16]; 3],
    ghost fits: { Fitting shape numbers },
}

impl Layer<'_> {
    // The head, and luma's two records. It answers the place behind them.
    #[tactic(auto, using(crate::proofs::Layers::luma_put))]
    fn put_luma(self, parcel: &mut [u8]) -> usize
        requires { length parcel.old ≡ parcel_length (self.shape.width, self.shape.height) self.shape.ratio }
        ensures behind { result ≡ 24 + 4 * (self.entry.shape.width * self.entry.shape.height) }
        ensures done { Put parcel.old 0 (run_bytes (take 3 (layer_records (lay self.entry.shape (slice self.entry.numbers))))) parcel.new }
    {
        let Shape {
            width,
            height,
            ratio,
            luma_pitch: pitch,
            ..
        } = self.shape;
        parcel_put::put_head(parcel, width, height, ratio);
        let gains = Run {
            from: 0,
            pitch,
            width,
            rows: height,
        };
        let after = parcel_put::put_record(parcel, 12, 2, self.numbers[0], gains);
        let offsets = Run {
            from: height * pitch,
            ..gains
        };
        parcel_put::put_record(parcel, after, 3, self.numbers[0], offsets)
    }

    // Chroma's two records and the cells, from a place on.
    #[tactic(auto, using(crate::proofs::Layers::chroma_put))]
    fn put_chroma(self, parcel: &mut [u8], at: usize)
        requires long { length parcel.old ≡ parcel_length (self.shape.width, self.shape.height) self.shape.ratio }
        requires place { at ≡ 24 + 4 * (self.shape.width * self.shape.height) }
        ensures { Put parcel.old at (run_bytes (drop 3 (layer_records (lay self.entry.shape (slice self.entry.numbers))))) parcel.new }
    {
        let Shape {
            width,
            height,
            ratio,
            chroma_pitch: pitch,
            ..
        } = self.shape;
        let rows = plane::divided(height, ratio);
        let chroma = Run {
            from: 0,
            pitch,
            width: plane::divided(width, ratio),
            rows,
        };
        let after = parcel_put::put_record(parcel, at, 4, self.numbers[1], chroma);
        let after = parcel_put::put_record(parcel, after, 5, self.numbers[2], chroma);
        let cells = Run {
            from: rows * pitch,
            pitch,
            width: table::cells(width),
            rows: table::cells(height),
        };
        parcel_put::put_record(parcel, after, 6, self.numbers[2], cells);
    }
}

// The parcel, or a refusal: the contract is the equation for both. The layer is lent as numbers.
#[tactic(auto, using(crate::proofs::Told::fitting, crate::proofs::Layers::layer_put))]
pub fn write(parcel: &mut [u8], shape: Shape, numbers: [&[i16]; 3]) -> Result<(), Refusal>
    requires { shape.plane ≡ 0 }
    ensures { WriteTold (write_by shape (slice numbers.entry) parcel.old) parcel.new result }
{
    refusal(parcel, shape, numbers)?;
    let layer = Layer { shape, numbers };
    let at = layer.put_luma(parcel);
    layer.put_chroma(parcel, at);
    Ok(())
}
