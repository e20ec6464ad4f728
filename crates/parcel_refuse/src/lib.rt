// The tests of a parcel: whether its records are whole, of which kinds they are, and how long their payloads.
#![tactic(auto)]

ghost use Rattle.std.specs.Prelude.{◌≡◌, true, false, ◌≤◌, length, MatchResult};
ghost use Rattle.rules.specs.Parcel.{records, is_whole, once_each, are_long};
ghost use Rattle.rules.specs.declared.Refusal.TheVariants.{Kind};
ghost use Rattle.parcel_records.specs.Steps.{Placed};
ghost use Rattle.parcel_refuse.specs.Surveys.{is_once, Held, AllPlaced, head_of, Surveyed};

use parcel_records::Place;
use rules::Refusal;

// The numbers of a parcel's head.
#[derive(Clone, Copy)]
pub struct Head {
    pub width: usize,
    pub height: usize,
    pub ratio: usize,
}

// The payload of each kind.
#[derive(Clone, Copy)]
pub struct Payloads<'p> {
    pub head: &'p [u8],
    pub gains: &'p [u8],
    pub offsets: &'p [u8],
    pub first: &'p [u8],
    pub second: &'p [u8],
    pub cells: &'p [u8],
}

// Where in the parcel each of them starts.
#[derive(Clone, Copy)]
pub struct Places {
    pub head: usize,
    pub gains: usize,
    pub offsets: usize,
    pub first: usize,
    pub second: usize,
    pub cells: usize,
}

// What a parcel tells before it is read: its head, its payloads, and their places.
#[derive(Clone, Copy)]
pub struct Contents<'p> {
    pub head: Head,
    pub payloads: Payloads<'p>,
    pub places: Places,
}

// The place of a kind that is not repeated or missing.
#[inline(always)]
fn once(parcel: &[u8], kind: usize) -> Result<Place<'_>, Refusal>
    ensures { MatchResult result
        (λ p. (is_once parcel.now kind ≡ true) × Placed parcel.now kind p)
        (λ e. (is_once parcel.now kind ≡ false) × (e ≡ Kind)) }
{
    match parcel_records::find(parcel, kind) {
        Some(place) if place.often == 1 => Ok(place),
        _ => Err(Refusal::Kind),
    }
}

// The payloads of the six kinds, and their places.
#[tactic(auto, unfolding(rules::specs::Forms::all, rules::specs::Forms::turns))]
fn six_payloads(parcel: &[u8]) -> Result<(Payloads<'_>, Places), Refusal>
    ensures { MatchResult result
        (λ p. (once_each (records parcel.now) ≡ true) × Held parcel.now p.0 × AllPlaced parcel.now p.0 p.1)
        (λ e. (once_each (records parcel.now) ≡ false) × (e ≡ Kind)) }
{
    let head = once(parcel, 1)?;
    let gains = once(parcel, 2)?;
    let offsets = once(parcel, 3)?;
    let first = once(parcel, 4)?;
    let second = once(parcel, 5)?;
    let cells = once(parcel, 6)?;
    let payloads = Payloads {
        head: head.payload,
        gains: gains.payload,
        offsets: offsets.payload,
        first: first.payload,
        second: second.payload,
        cells: cells.payload,
    };
    let places = Places {
        head: head.start,
        gains: gains.start,
        offsets: offsets.start,
        first: first.start,
        second: second.start,
        cells: cells.start,
    };
    Ok((payloads, places))
}

// The numbers of a head.
fn numbers(head: &[u8]) -> Head
    requires { 6 ≤ length head.now }
    ensures { result ≡ head_of head.now }
{
    Head {
        width: parcel_records::two(head, 0),
        height: parcel_records::two(head, 2),
        ratio: parcel_records::two(head, 4),
    }
}

// Each payload has the length that a head calls for.
#[tactic(auto, unfolding(rules::specs::Forms::all, rules::specs::Forms::turns))]
fn long(parcel: &[u8], payloads: Payloads<'_>, head: Head) -> bool
    requires held { Held parcel.now payloads }
    requires wide { head.width ≤ 4096 }
    requires tall { head.height ≤ 4096 }
    ensures { result ≡ are_long (records parcel.now) (head.width, head.height) head.ratio }
{
    let pixels = head.width * head.height;
    let across = plane::divided(head.width, head.ratio);
    let points = across * plane::divided(head.height, head.ratio);
    let marks = table::cells(head.width) * table::cells(head.height);
    let luma = (payloads.gains.len() == 2 * pixels) & (payloads.offsets.len() == 2 * pixels);
    let chroma = (payloads.first.len() == 2 * points) & (payloads.second.len() == 2 * points);
    luma & chroma & (payloads.cells.len() == 2 * marks)
}

// A parcel of six whole records.
#[tactic(auto, using(crate::proofs::Told::tests, laws::proofs::Accepted::sizes_in))]
fn six(parcel: &[u8]) -> Result<Contents<'_>, Refusal>
    requires whole { is_whole parcel.now ≡ true }
    requires six { length (records parcel.now) ≡ 6 }
    ensures { Surveyed parcel.now result }
{
    plane::ensure(parcel_records::two(parcel, 4) == 1, Refusal::Kind)?;
    let (payloads, places) = six_payloads(parcel)?;
    plane::ensure(payloads.head.len() == 6, Refusal::Payload)?;
    let head = numbers(payloads.head);
    plane::ensure(plane::sizes(head.width, head.height), Refusal::Payload)?;
    let ratio = plane::ratioed(head.ratio, head.width, head.height);
    plane::ensure(ratio & long(parcel, payloads, head), Refusal::Payload)?;
    Ok(Contents {
        head,
        payloads,
        places,
    })
}

// What a parcel tells. One that has another number of records than six is refused before they are looked for by kind.
#[tactic(auto, unfolding(rules::specs::Parcel::parcel_sizes_refusal, rules::specs::Refusals::first_fitting), using(crate::proofs::Known::kinds_of_others))]
pub fn survey(parcel: &[u8]) -> Result<Contents<'_>, Refusal>
    ensures { Surveyed parcel.now result }
{
    let n = parcel_records::count(parcel)?;
    plane::ensure(n == 6, Refusal::Kind)?;
    six(parcel)
}
