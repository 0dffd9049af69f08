// The lowest run of n free places of a bitmap, a word of 32 places at a time: full and empty words are
// skipped, and a word's own stretches are found by shifts and not bit by bit.
ghost use Rattle.std.specs.Prelude.{◌≡◌, true, false, not, ◌&&◌, ℕ, ◌+◌, ◌*◌, ◌-◌, ◌<◌, ◌≤◌, ltb, length};
ghost use Rattle.bitmap.specs.Bits.{bit, bit_at};
ghost use Rattle.bitmap.specs.Lowest.{all, lowest_run, sense};
ghost use Rattle.bitmap.specs.Steps.{Stepped};

// What a word says of the search: the run starts before it, or in it; the word is free from end to
// end; or so many places at its top are free.
#[derive(Clone, Copy)]
pub enum Step {
    Before,
    From(usize),
    Whole,
    Carry(usize),
}

// How many bits at the top of w are set.
fn top_ones(w: u32) -> u32
    ensures { (result ≤ 32) × ((i : ℕ) → 32 - result ≤ i → i < 32 → bit w i ≡ true) × (result < 32 → bit w (31 - result) ≡ false) }
{
    u32::leading_zeros(!w)
}

// The bits of w from which n bits on are set: each turn doubles the length that a set bit of m stands for.
fn run_starts(w: u32, n: usize) -> u32
    requires { (0 < n) × (n ≤ 32) }
    ensures { (i : ℕ) → bit result i ≡ all (bit w) i n }
{
    let mut m = w;
    let mut have: usize = 1;
    // The steps differ, so this is no `for`.
    while have < n {
        if m == 0 {
            return 0;
        }
        let s = have.min(n - have);
        m &= m >> (s as u32);
        have += s;
    }
    m
}

// The lowest bit of w from which n bits on are set; 32 where there is none.
fn first_start(w: u32, n: usize) -> usize
    requires { 0 < n }
    ensures { (result ≤ 32) × ((i : ℕ) → i < result → all (bit w) i n ≡ false) × (result < 32 → all (bit w) result n ≡ true) }
{
    if n <= 32 {
        return crate::words::lowest_set(run_starts(w, n)) as usize;
    }
    32
}

// One word of free bits, after `carry` free places.
fn look(w: u32, carry: usize, n: usize) -> Step
    requires { (carry < n) × (carry ≤ 4294967328) }
    ensures { Stepped w carry n result }
{
    if w == 0 {
        return Step::Carry(0);
    }
    // No two neighbours are free: nothing longer than 1 starts, ends or lies in the word.
    if w & (w >> 1) == 0 {
        if carry + 1 < n {
            return Step::Carry((w >> 31) as usize);
        }
    }
    let low = crate::words::lowest_clear(w) as usize;
    if n <= carry + low {
        return Step::Before;
    }
    if low == 32 {
        return Step::Whole;
    }
    let at = first_start(w, n);
    if at < 32 {
        return Step::From(at);
    }
    Step::Carry(top_ones(w) as usize)
}

// A word's places as set bits where they are free. Where `used` is true, a set bit of w is a place in use.
pub fn in_sense(w: u32, used: bool) -> u32
    ensures { (i : ℕ) → i < 32 → bit result i ≡ sense used (bit w i) }
{
    if used {
        return !w;
    }
    w
}

// The free places among the first `left` of a word, as set bits.
fn free_bits(w: u32, used: bool, left: usize) -> u32
    ensures { (i : ℕ) → i < 32 → bit result i ≡ ltb i left && sense used (bit w i) }
{
    let f = in_sense(w, used);
    if left < 32 {
        return f & crate::words::low_ones(left);
    }
    f
}

// The lowest s such that the n places from s on are free, all below places. Where `used` is true, a set
// bit is a place in use; else it is a free place.
pub fn lowest_run(lent: &[u32], used: bool, places: usize, n: usize) -> Option<usize>
    requires { (0 < n) × (places ≤ 32 * length lent.now) × (places ≤ 4294967296) }
    ensures { result ≡ lowest_run (λ j. sense used (bit_at lent.now j)) places n }
{
    let mut carry: usize = 0;
    for k in 0..places.div_ceil(32) {
        let base = 32 * k;
        let w = free_bits(lent[k], used, places - base);
        match look(w, carry, n) {
            Step::Before => {
                return Some(base - carry);
            }
            Step::From(i) => {
                return Some(base + i);
            }
            Step::Whole => carry += 32,
            Step::Carry(top) => carry = top,
        }
    }
    None
}
