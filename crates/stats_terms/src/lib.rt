// What a pair of frames adds to a pixel's sums.
#![tactic(auto)]

ghost use Rattle.std.specs.Prelude.{◌≡◌};
ghost use Rattle.rules.specs.Stats.{one_if_apart, six_terms};

// 1 for two samples more than 24 apart. Both signs are tried, and no sign is branched on.
#[tactic(auto, using(crate::proofs::Apart::both_signs))]
fn is_apart(a: f32, b: f32) -> u8
    ensures { result ≡ one_if_apart a b }
{
    let difference = a - b;
    u8::from(difference > 24.0) + u8::from(-difference > 24.0)
}

// The six terms: pb and pa are the moved samples, ib and ia the bytes.
#[tactic(auto, unfolding(rules::specs::Stats::six_terms))]
pub fn six_terms(pb: f32, pa: f32, ib: f32, ia: f32) -> [f32; 6]
    ensures { result ≡ six_terms pb pa ib ia }
{
    let apart = is_apart(pb, ib) + is_apart(pa, ia);
    [
        pb + pa,
        ib + ia,
        pb * pb + pa * pa,
        pb * ib + pa * ia,
        ib * ib + ia * ia,
        f32::from(apart),
    ]
}
