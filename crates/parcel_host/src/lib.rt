// The round trip of a parcel held to the exported calls: a function that makes them has the round trip for its
// contract. Its theorem is the crate parcel_trip's.
#![tactic(auto)]

ghost use Rattle.std.specs.Prelude.{◌≡◌, true};
ghost use Rattle.rules.specs.Forms.{each};
ghost use Rattle.rules.specs.Parcel.{is_short};
ghost use Rattle.calls.specs.Lent.{fit_of};
ghost use Rattle.layer_lent.specs.Lent.{lay};
ghost use Rattle.plane.specs.Slices.{slice};
ghost use Rattle.parcel_host.specs.Desks.{SentTold};

use layer_lent::Shape;
use rules::Sizes;

// What the three calls answered.
#[derive(Clone, Copy)]
pub struct Answers {
    pub written: u64,
    pub sizes: Sizes,
    pub read: Sizes,
}

// Each number of a slice has 16 bits: it is so of each that is read, by its type.
// Kept: (c) a call for the proof alone: what its type says of a slice's items, a proof can cite of unsigned ones only,
// and in `sent` there was nothing to cite of these. So each is read.
fn are_short(numbers: &[i16])
    ensures { each is_short numbers.now ≡ true }
{
    for number in numbers {
        let _read = *number;
    }
}

// A layer is written into a parcel at one desk; at the other its sizes are asked for, and it is read. Of a `shape` the
// layer's numbers are taken.
pub fn sent<'n>(
    parcel: &mut [u8],
    luma: &mut [i16],
    chroma1: &mut [i16],
    chroma2: &mut [i16],
    shape: Shape,
    numbers: [&'n [i16]; 3],
) -> Answers
    ensures { SentTold (lay shape (slice numbers.entry))
        (fit_of luma.old chroma1.old chroma2.old)
        (fit_of luma.new chroma1.new chroma2.new) result }
{
    are_short(numbers[0]);
    are_short(numbers[1]);
    are_short(numbers[2]);
    let written = host::safeteal_parcel_write(
        numbers[0],
        numbers[1],
        numbers[2],
        shape.luma_pitch,
        shape.chroma_pitch,
        shape.width,
        shape.height,
        shape.ratio,
        parcel,
    );
    let sizes = host::safeteal_parcel_sizes(parcel);
    let read = host::safeteal_parcel_read(parcel, luma, chroma1, chroma2);
    Answers {
        written,
        sizes,
        read,
    }
}
