// Whether a run of a bitmap is free, and the next set place, by masks and trailing zeros.
ghost use Rattle.std.specs.Prelude.{◌≡◌, true, false, ◌+◌, ◌*◌, ◌-◌, ◌<◌, ◌≤◌, length};
ghost use Rattle.bitmap.specs.Bits.{bit, bit_at};
ghost use Rattle.bitmap.specs.Lowest.{all, least, sense};

// Whether the m bits of w from lo on are set, by one mask.
fn word_is_free(w: u32, lo: usize, m: usize) -> bool
    requires { (lo < 32) × (lo + m ≤ 32) }
    ensures { result ≡ all (bit w) lo m }
{
    let mask = crate::words::low_ones(m) << (lo as u32);
    w & mask == mask
}

// Whether each of the n places from start on is free, a word at a time: by masks, not bit by bit.
pub fn run_is_free(lent: &[u32], used: bool, start: usize, n: usize) -> bool
    requires { (start + n ≤ 32 * length lent.now) × (start + n ≤ 65536) }
    ensures { result ≡ all (λ j. sense used (bit_at lent.now j)) start n }
{
    let mut at = start;
    let end = start + n;
    // The steps differ, so this is no `for`.
    while at < end {
        let lo = at % 32;
        let m = (32 - lo).min(end - at);
        let w = crate::runs::in_sense(lent[at / 32], used);
        if !word_is_free(w, lo, m) {
            return false;
        }
        at += m;
    }
    true
}

// The lowest set place from `from` on, below places: the count of trailing zeros of what is left of a word.
pub fn next_set(lent: &[u32], from: usize, places: usize) -> Option<usize>
    requires { (places ≤ 32 * length lent.now) × (places ≤ 65536) }
    ensures { result ≡ least (bit_at lent.now) from (places - from) }
{
    let mut at = from;
    // The steps differ, so this is no `for`.
    while at < places {
        let w = lent[at / 32] >> ((at % 32) as u32);
        let z = crate::words::lowest_set(w) as usize;
        if z < 32 {
            if at + z < places {
                return Some(at + z);
            }
            return None;
        }
        at = (at / 32 + 1) * 32;
    }
    None
}
