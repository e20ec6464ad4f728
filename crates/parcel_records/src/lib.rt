// The records of a parcel, as they lie in its bytes.
#![tactic(auto)]

ghost use Rattle.std.specs.Prelude.{◌≡◌, ◌+◌, ◌*◌, ◌<◌, ◌≤◌, [], length, MatchOption, MatchResult};
ghost use Rattle.rules.specs.Host.{little};
ghost use Rattle.rules.specs.declared.Refusal.TheVariants.{Cut};
ghost use Rattle.parcel_records.specs.Steps.{splits, Begins, count_of, often_in, noted_of, Missing, Placed};

use rules::Refusal;

// The number in two bytes of a slice, the lowest first.
pub fn two(bytes: &[u8], at: usize) -> usize
    requires { at + 2 ≤ length bytes.now }
    ensures value { result ≡ little 2 bytes.now at }
    ensures small { result < 65536 }
{
    usize::from(u16::from_le_bytes([bytes[at], bytes[at + 1]]))
}

// The number in four.
pub fn four(bytes: &[u8], at: usize) -> usize
    requires { at + 4 ≤ length bytes.now }
    ensures value { result ≡ little 4 bytes.now at }
    ensures small { result < 4294967296 }
{
    u32::from_le_bytes([bytes[at], bytes[at + 1], bytes[at + 2], bytes[at + 3]]) as usize
}

// A whole record: its kind, and its payload.
// Kept: (d) a kind is a number, as it stands in the bytes: a parcel that comes may hold unknown ones.
#[derive(Clone, Copy)]
pub struct Piece<'p> {
    pub kind: usize,
    pub payload: &'p [u8],
}

// The record that bytes begin with, and the bytes behind it. One that is cut short is refused.
#[tactic(auto, using(crate::proofs::Walk::none_headed, crate::proofs::Walk::none_paid, crate::proofs::Walk::one_begins))]
fn first(bytes: &[u8]) -> Result<(Piece<'_>, &[u8]), Refusal>
    ensures { MatchResult result
        (λ p. Begins bytes.now p.0 p.1.now)
        (λ e. (splits bytes.now ≡ ([], bytes.now)) × (e ≡ Cut)) }
{
    let (head, rest) = bytes.split_at_checked(6).ok_or(Refusal::Cut)?;
    let (payload, left) = rest.split_at_checked(four(head, 0)).ok_or(Refusal::Cut)?;
    let kind = two(head, 4);
    Ok((Piece { kind, payload }, left))
}

// The records of a parcel, one after another; `left` are the bytes behind those that were given. The last item is a
// refusal where a record is cut short.
#[derive(Clone, Copy)]
struct Records<'p> {
    left: &'p [u8],
}

impl<'p> Iterator for Records<'p> {
    ghost use Rattle.std.specs.Iterator.{at_most};
    ghost use Rattle.parcel_records.specs.Steps.{Gives};

    type Item = Result<Piece<'p>, Refusal>;

    ghost next_gives = { Gives };

    ghost remaining = { λ s. at_most (length s.left.now) };

    fn next(&mut self) -> Option<Result<Piece<'p>, Refusal>> {
        if self.left.is_empty() {
            return None;
        }
        match first(self.left) {
            Ok((piece, left)) => {
                self.left = left;
                Some(Ok(piece))
            }
            Err(refusal) => {
                self.left = &[];
                Some(Err(refusal))
            }
        }
    }
}

// How many records a parcel has, if none is cut short.
pub fn count(parcel: &[u8]) -> Result<usize, Refusal>
    ensures { result ≡ count_of parcel.now }
{
    let mut n = 0;
    for piece in (Records { left: parcel }) {
        piece?;
        n += 1;
    }
    Ok(n)
}

// How often a kind occurs, and the payload of the first such record: where in the parcel it starts, and its bytes.
#[derive(Clone, Copy)]
pub struct Place<'p> {
    pub often: usize,
    pub start: usize,
    pub payload: &'p [u8],
}

// A place, with one more record of its kind seen, whose payload starts there.
fn noted<'p>(place: Option<Place<'p>>, start: usize, piece: Piece<'p>) -> Place<'p>
    requires { often_in place < 18446744073709551615 }
    ensures { result ≡ noted_of place.entry start piece.entry }
{
    match place {
        None => Place {
            often: 1,
            start,
            payload: piece.payload,
        },
        Some(first) => Place {
            often: first.often + 1,
            ..first
        },
    }
}

// The place of a kind among a parcel's whole records, if it has one.
#[inline(always)]
pub fn find(parcel: &[u8], kind: usize) -> Option<Place<'_>>
    ensures { MatchOption result (Missing parcel.now kind) (λ p. Placed parcel.now kind p) }
{
    let mut place = None;
    let mut at = 0;
    for piece in (Records { left: parcel }) {
        match piece {
            Ok(piece) => {
                let start = at + 6;
                if piece.kind == kind {
                    place = Some(noted(place, start, piece));
                }
                at = start + piece.payload.len();
            }
            Err(_) => {}
        }
    }
    place
}
