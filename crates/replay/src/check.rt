// What a case of the stored list has as right, compared with what a call left.
use crate::case::Case;
use crate::stored::{Stored, rest};

// A comparison: where what comes next stands, if it can be read, and whether all was right so far.
#[derive(Clone, Copy)]
pub struct Check<'a> {
    list: &'a [u8],
    pub next: Option<usize>,
    same: bool,
}

impl<'a> Check<'a> {
    // A case that cannot be read.
    pub fn unread(case: Case<'a>) -> Check<'a> {
        Check {
            list: case.list,
            next: None,
            same: false,
        }
    }

    // The answer of a call that takes `count` slices.
    pub fn answer(case: Case<'a>, count: usize, ours: u64) -> Check<'a> {
        let counted = case.slices() == count;
        Check {
            list: case.list,
            next: case.slice(count),
            same: counted,
        }
        .slice(&[ours])
    }

    // Compares a slice that the call may write.
    pub fn slice<S: Stored>(self, ours: &[S]) -> Check<'a> {
        let Some(at) = self.next else {
            return self;
        };
        let rest = rest(self.list, at);
        let same = ours
            .iter()
            .enumerate()
            .all(|(k, number)| number.same(S::nth(rest, k)));
        Check {
            next: Some(at.saturating_add(ours.len().saturating_mul(S::WIDTH))),
            same: self.same && same,
            ..self
        }
    }

    // The comparison after slices that are free where the answer's number is 0.
    pub fn unless_free(self, after: Check<'a>, ours: u64) -> Check<'a> {
        if ours % 256 == 0 {
            Check {
                next: after.next,
                ..self
            }
        } else {
            after
        }
    }

    // Whether the case was compared to its end, and all was right.
    pub fn right(self) -> bool {
        self.next
            .is_some_and(|at| self.same && at <= self.list.len())
    }
}
