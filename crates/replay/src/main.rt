// Runs the stored list of the Rust's answers through the exported functions, and prints how many cases of each call are
// equal and how many different.
#![tactic(auto)]

mod call;
mod case;
mod cases;
mod check;
mod stored;
mod tally;

ghost use Rattle.std.specs.Prelude.{◌≡◌, length};
ghost use Rattle.std.specs.Io.{ReadsAtMost};

use std::fs::File;
use std::io;
use std::io::Read;

// More bytes than the list has.
fn space() -> [u8; 524288]
    ensures { 524288 ≡ length result }
{
    [0; 524288]
}

// Reads until `buf` is full or the input ends, and answers how many bytes it put at the start of `buf`.
fn read_full(input: &mut impl Read, buf: &mut [u8]) -> io::Result<usize>
    ensures { ReadsAtMost result buf.new }
{
    let mut done = 0;
    // Kept: (a) no heap: std reads to an end that it does not know into a vector alone.
    while done < buf.len() {
        let n = input.read(&mut buf[done..])?;
        if n == 0 {
            break;
        }
        done += n;
    }
    Ok(done)
}

// Reads the list, runs it and prints the counts.
fn main(rt: HostRuntime) -> io::Result<()> {
    let path = "answers";
    let mut file = match File::open(&rt, path) {
        Ok(file) => file,
        Err(error) => return eprintln!(rt; "{path}: {error}"),
    };
    let mut space = space();
    let n = read_full(&mut file, &mut space)?;
    tally::of(&space[..n]).print(&rt)
}
