// A pixel's terms added to its sums: all six, or the first of them.
#![tactic(auto)]

ghost use Rattle.std.specs.Prelude.{◌≡◌, ◌+◌, ◌<◌, ◌≤◌, length};
ghost use Rattle.stats_add.specs.Added.{one_added, terms_added};

// Adds a term to one sum. With 0 pairs before, what the slice holds is not read.
fn add(sums: &mut [f32], k: usize, pairs: usize, term: f32)
    requires { k < length sums.old }
    ensures { sums.new ≡ one_added pairs term k sums.old }
{
    let start = if pairs == 0 { 0.0 } else { sums[k] };
    sums[k] = start + term;
}

// Adds the first terms of a pixel, from place k on.
#[tactic(auto, unfolding(crate::specs::Added::terms_added, rules::specs::Forms::turns))]
pub fn add_terms<const MANY: usize>(sums: &mut [f32], k: usize, pairs: usize, terms: [f32; 6])
    requires few { MANY ≤ 6 }
    requires room { k + MANY ≤ length sums.old }
    ensures { sums.new ≡ terms_added pairs MANY terms k sums.old }
{
    for j in 0..MANY {
        add(sums, k + j, pairs, terms[j]);
    }
}
