// Runs of places in a lent row of words, set and cleared by masks, a word at a time. Document 01, "Map words".
ghost use Rattle.std.specs.Prelude.{◌≡◌, true, false, ◌+◌, ◌*◌, ◌<◌, ◌≤◌, length};
ghost use Rattle.bitmap.specs.Rows.{write_run, set_run, clear_run};

// The n places from start on of a lent row made `on`, a word at a time.
fn write_run(lent: &mut [u32], start: usize, n: usize, on: bool)
    requires { (start + n ≤ 32 * length lent.old) × (start + n ≤ 65536) }
    ensures { lent.new ≡ write_run on lent.old start n }
{
    let mut at = start;
    let end = start + n;
    // The steps differ, so this is no `for`.
    while at < end {
        let k = at / 32;
        let lo = at % 32;
        let m = (32 - lo).min(end - at);
        lent[k] = crate::words::write_word(lent[k], lo, m, on);
        at += m;
    }
}

// Four thin names of the one above and of one row by value, so that a call says set or cleared and not true or false: the n places
// from start on of a lent row set.
pub fn set_run(lent: &mut [u32], start: usize, n: usize)
    requires { (start + n ≤ 32 * length lent.old) × (start + n ≤ 65536) }
    ensures { lent.new ≡ set_run lent.old start n }
{
    write_run(lent, start, n, true)
}

// The n places from start on of a lent row clear.
pub fn clear_run(lent: &mut [u32], start: usize, n: usize)
    requires { (start + n ≤ 32 * length lent.old) × (start + n ≤ 65536) }
    ensures { lent.new ≡ clear_run lent.old start n }
{
    write_run(lent, start, n, false)
}

// The same two of a row of 1,024 bits by value: an arena's bitmap.
pub fn row_set(row: [u32; 32], start: usize, n: usize) -> [u32; 32]
    requires { start + n ≤ 1024 }
    ensures { result ≡ set_run row start n }
{
    let mut left = row;
    write_run(&mut left, start, n, true);
    left
}

pub fn row_cleared(row: [u32; 32], start: usize, n: usize) -> [u32; 32]
    requires { start + n ≤ 1024 }
    ensures { result ≡ clear_run row start n }
{
    let mut left = row;
    write_run(&mut left, start, n, false);
    left
}
