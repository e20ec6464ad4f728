// Records of a parcel, put one after another into its bytes.
#![tactic(auto)]

ghost use Rattle.std.specs.Prelude.{◌≡◌, ◌++◌, ◌+◌, ◌*◌, ◌≤◌, length};
ghost use Rattle.rules.specs.Parcel.{in_bytes, written, record_bytes, head_bytes};
ghost use Rattle.table.specs.Put.{Put};
ghost use Rattle.parcel_put.specs.Runs.{row_of, run_of, RunFits};

// The lowest N bytes of a number, the lowest first.
#[tactic(auto, using(table::proofs::Put::put_part, crate::proofs::Records::low_bytes))]
fn put<const N: usize>(output: &mut [u8], at: usize, n: usize)
    requires room { at + N ≤ length output.old }
    requires few { N ≤ 8 }
    ensures { Put output.old at (in_bytes N n) output.new }
{
    let end = at + N;
    output[at..end].copy_from_slice(&n.to_le_bytes()[..N]);
}

// What a record begins with: its payload's length in four bytes, and its kind in two.
#[tactic(auto, using(crate::proofs::Records::start_put))]
fn put_start(output: &mut [u8], at: usize, size: usize, kind: usize)
    requires { at + 6 ≤ length output.old }
    ensures { Put output.old at (in_bytes 4 size ++ in_bytes 2 kind) output.new }
{
    put::<4>(output, at, size);
    put::<2>(output, at + 4, kind);
}

// A row of numbers, from one of them on.
fn put_row(output: &mut [u8], at: usize, numbers: &[i16], from: usize, count: usize)
    requires room { at + 2 * count ≤ length output.old }
    requires inside { from + count ≤ length numbers.now }
    ensures { Put output.old at (written (row_of numbers.now from count)) output.new }
{
    for x in 0..count {
        let bits = numbers[from + x].cast_unsigned();
        put::<2>(output, at + 2 * x, usize::from(bits));
    }
}

// Rows of numbers in a slice: the first begins at `from`, and each a pitch behind the one before.
#[derive(Clone, Copy)]
pub struct Run {
    pub from: usize,
    pub pitch: usize,
    pub width: usize,
    pub rows: usize,
}

// The numbers of a run, row by row.
fn put_rows(output: &mut [u8], at: usize, numbers: &[i16], run: Run)
    requires { RunFits output.old at numbers.now run }
    ensures { Put output.old at (written (run_of numbers.now run)) output.new }
{
    let Run {
        from,
        pitch,
        width,
        rows,
    } = run;
    for y in 0..rows {
        put_row(
            output,
            at + 2 * (y * width),
            numbers,
            from + y * pitch,
            width,
        );
    }
}

// A record of a run of numbers. It answers the place behind it.
#[tactic(auto, using(crate::proofs::Records::run_put))]
pub fn put_record(output: &mut [u8], at: usize, kind: usize, numbers: &[i16], run: Run) -> usize
    requires { RunFits output.old (at + 6) numbers.now run }
    ensures behind { result ≡ at + 6 + 2 * (run.width * run.rows) }
    ensures done { Put output.old at (record_bytes (record { kind = kind; payload = written (run_of numbers.now run) })) output.new }
{
    let size = 2 * (run.width * run.rows);
    put_start(output, at, size, kind);
    put_rows(output, at + 6, numbers, run);
    at + 6 + size
}

// The head's record: the sizes and the ratio.
pub fn put_head(output: &mut [u8], width: usize, height: usize, ratio: usize)
    requires { 12 ≤ length output.old }
    ensures { Put output.old 0 (record_bytes (record { kind = 1; payload = head_bytes (width, height) ratio })) output.new }
{
    put_start(output, 0, 6, 1);
    put::<2>(output, 6, width);
    put::<2>(output, 8, height);
    put::<2>(output, 10, ratio);
}
