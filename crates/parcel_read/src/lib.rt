// The reader of parcels: the slices of a layer, filled from its records; and a parcel's sizes alone.
#![tactic(auto)]

ghost use Rattle.std.specs.Prelude.{◌≡◌, ◌*◌, ◌/◌, length, IfOk};
ghost use Rattle.rules.specs.Refusals.{numbered};
ghost use Rattle.rules.specs.Parcel.{layer_read, parcel_sizes_refusal, parcel_sizes_answer};
ghost use Rattle.parcel_read.specs.Read.{read_by, told_of, points_of, Opened, ReadTold};

use parcel_fill::Marks;
use parcel_refuse::{Contents, Head};
use rules::{Refusal, Sizes};

// An answer that tells sizes, as it passes to C.
pub fn told(done: Result<Head, Refusal>) -> Sizes
    ensures { result ≡ told_of done }
{
    match done {
        Ok(head) => Sizes {
            word: 0,
            width: head.width,
            height: head.height,
            ratio: head.ratio,
        },
        Err(refusal) => Sizes {
            word: u64::from(refusal),
            width: 0,
            height: 0,
            ratio: 0,
        },
    }
}

// The sizes and the ratio of a parcel, for a caller who has yet to lend slices.
pub fn sizes_of(parcel: &[u8]) -> Result<Head, Refusal>
    ensures { told_of result ≡ parcel_sizes_answer parcel.now }
{
    let contents = parcel_refuse::survey(parcel)?;
    Ok(contents.head)
}

// A parcel that is not refused, and what it tells.
#[derive(Clone, Copy)]
struct Parcel<'p> {
    bytes: &'p [u8],
    contents: Contents<'p>,
    ghost opened: { Opened bytes.now contents },
}

// A parcel with what it tells, or its refusal.
fn unpacked<'p>(bytes: &'p [u8]) -> Result<Parcel<'p>, Refusal>
    ensures number { numbered result ≡ parcel_sizes_refusal bytes.now }
    ensures same { IfOk result (λ p. p.bytes.now ≡ bytes.now) }
{
    let contents = parcel_refuse::survey(bytes)?;
    Ok(Parcel { bytes, contents })
}

impl Parcel<'_> {
    // Luma: its gains, and its offsets behind them.
    #[tactic(auto, using(crate::proofs::Fills::luma_read))]
    fn fill_luma(self, luma: &mut [i16])
        requires { length luma.old ≡ 2 * (self.contents.head.width * self.contents.head.height) }
        ensures { luma.new ≡ (layer_read self.entry.bytes.now).luma }
    {
        let Contents { head, payloads, .. } = self.contents;
        parcel_fill::fill(luma, 0, payloads.gains);
        parcel_fill::fill(luma, head.width * head.height, payloads.offsets);
    }

    // Plane 1: its offsets, and nothing behind them.
    #[tactic(auto, using(crate::proofs::Fills::first_read, crate::proofs::Fills::product))]
    fn fill_first(self, chroma: &mut [i16])
        requires { length chroma.old ≡ 2 * points_of self.contents.head }
        ensures { chroma.new ≡ (layer_read self.entry.bytes.now).chroma.0 }
    {
        let Contents { head, payloads, .. } = self.contents;
        let across = plane::divided(head.width, head.ratio);
        let points = across * plane::divided(head.height, head.ratio);
        parcel_fill::fill(chroma, 0, payloads.first);
        parcel_fill::clear(chroma, points, points);
    }

    // Plane 2: its offsets, and the cells behind them.
    #[tactic(auto, using(crate::proofs::Fills::second_read))]
    fn fill_second(self, chroma: &mut [i16])
        requires { length chroma.old ≡ 2 * points_of self.contents.head }
        ensures { chroma.new ≡ (layer_read self.entry.bytes.now).chroma.1 }
    {
        let Contents { head, payloads, .. } = self.contents;
        let across = plane::divided(head.width, head.ratio);
        let rows = plane::divided(head.height, head.ratio);
        let marks = Marks {
            width: head.width,
            height: head.height,
            across,
            rows,
        };
        parcel_fill::fill(chroma, 0, payloads.second);
        parcel_fill::fill_rows(chroma, across * rows, payloads.cells, marks);
    }
}

// The layer that a parcel holds, or a refusal: the contract is the equation for both.
#[tactic(auto, using(crate::proofs::Opened::read_no, crate::proofs::Opened::read_short, crate::proofs::Opened::read_yes))]
pub fn read(
    luma: &mut [i16],
    chroma1: &mut [i16],
    chroma2: &mut [i16],
    parcel: &[u8],
) -> Result<Head, Refusal>
    ensures { ReadTold
        (read_by parcel.now luma.old chroma1.old chroma2.old)
        luma.new chroma1.new chroma2.new (told_of result) }
{
    let parcel = unpacked(parcel)?;
    let head = parcel.contents.head;
    let fits = plane::exact_planes(
        luma.len(),
        chroma1.len(),
        chroma2.len(),
        2,
        head.width,
        head.height,
        head.ratio,
    );
    plane::ensure(fits, Refusal::Length)?;
    parcel.fill_luma(luma);
    parcel.fill_first(chroma1);
    parcel.fill_second(chroma2);
    Ok(head)
}
