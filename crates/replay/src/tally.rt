// The cases of the list, one after another, counted by their calls, and the lines that say so.
use crate::call::Call;
use crate::case::{Case, Rooms};
use crate::check::Check;
use std::io;

// Cases that are equal and that are different.
#[derive(Clone, Copy, Default, PartialEq)]
pub struct Count {
    equal: u64,
    different: u64,
}

impl Count {
    // One more.
    fn add(&mut self, right: bool) {
        if right {
            self.equal = self.equal.saturating_add(1);
        } else {
            self.different = self.different.saturating_add(1);
        }
    }

    // One line.
    fn print(self, rt: &impl Print, name: &str) -> io::Result<()> {
        let Count { equal, different } = self;
        println!(rt; "{name}: {equal} equal, {different} different")
    }
}

// How many calls the list may have cases of.
const CALLS: usize = Call::ALL.len();

// A count for each call, and one for all cases.
#[derive(Clone, Copy)]
pub struct Tally {
    calls: [Count; CALLS],
    all: Count,
}

impl Tally {
    // A line for each call that the list has cases of. The last line, for all, is there even if the list has no case.
    pub fn print(&self, rt: &impl Print) -> io::Result<()> {
        for (call, count) in Call::ALL.iter().zip(&self.calls) {
            if *count != Count::default() {
                count.print(rt, call.name())?;
            }
        }
        self.all.print(rt, "all")
    }
}

// Every case of the list. What no call here has cannot be read, nor can what comes after it.
pub fn of(list: &[u8]) -> Tally {
    let mut tally = Tally {
        calls: [Count::default(); CALLS],
        all: Count::default(),
    };
    let mut rooms = Rooms::new();
    let mut at = 0;
    // Kept: (d) only a case that is run says where the next one begins: no range or iterator has the places.
    while at < list.len() {
        let case = Case { list, at };
        let id = case.call() as usize;
        let check = match Call::ALL.get(id) {
            Some(call) => call.run(case, &mut rooms),
            None => Check::unread(case),
        };
        if let Some(count) = tally.calls.get_mut(id) {
            count.add(check.right());
        }
        tally.all.add(check.right());
        match check.next {
            Some(next) if at < next => at = next,
            _ => break,
        }
    }
    tally
}
