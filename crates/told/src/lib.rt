// What an exported call tells: specs/. Here is an answer as one number.
#![tactic(auto)]

ghost use Rattle.std.specs.Prelude.{◌≡◌, ◌≤◌, ℕ, cond, IfOk};
ghost use Rattle.told.specs.Words.{word_by};

use rules::Refusal;

// What an accepted call counts: the pixels written; 1 for a yes; nothing.
pub trait Count {
    ghost counted: { Self → ℕ };

    fn count(self) -> u64
        requires { counted self ≤ 16777216 }
        ensures { result ≡ counted self };
}

impl Count for () {
    ghost counted = { λ _. 0 };

    fn count(self) -> u64 {
        0
    }
}

impl Count for bool {
    ghost counted = { λ yes. cond yes 1 0 };

    fn count(self) -> u64 {
        u64::from(self)
    }
}

impl Count for usize {
    ghost counted = { λ n. n };

    fn count(self) -> u64 {
        self as u64
    }
}

// What a call answers as one number.
pub fn told<T: Count>(done: Result<T, Refusal>) -> u64
    requires { IfOk done (λ a. T.counted a ≤ 16777216) }
    ensures { result ≡ word_by T.counted done }
{
    match done {
        Ok(answer) => answer.count() * 256,
        Err(refusal) => u64::from(refusal),
    }
}
