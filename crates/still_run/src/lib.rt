// The sum of a few bytes that follow one another.
#![tactic(auto)]

ghost use Rattle.std.specs.Prelude.{◌≡◌, ◌*◌, ◌≤◌, length, sum};

// Eight at most.
pub fn run(bytes: &[u8]) -> u32
    requires { length bytes.now ≤ 8 }
    ensures whole { result ≡ sum bytes.now }
    ensures few { result ≤ 255 * length bytes.now }
{
    bytes.iter().map(|b| u32::from(*b)).sum()
}
