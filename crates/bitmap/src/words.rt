// Words of 32 bits, and what a row of them is as a bitmap: masks of low ones, a run of bits of a word set and cleared
// by masks, and the lowest set or clear bit of a word. Document 01, "Map words".
ghost use Rattle.std.specs.Prelude.{◌≡◌, true, false, cond, ℕ, ◌+◌, ◌<◌, ◌≤◌};
ghost use Rattle.bitmap.specs.Bits.{low_ones, bit, within, LowestBit};

// The mask of n low ones. In 64 bits: 1 shifted by 32 does not fit in 32, and would need a branch.
pub fn low_ones(n: usize) -> u32
    requires { n ≤ 32 }
    ensures { result ≡ low_ones n }
{
    ((1u64 << n) - 1) as u32
}

// w with the n bits from lo on made `on`.
pub fn write_word(w: u32, lo: usize, n: usize, on: bool) -> u32
    requires { (lo < 32) × (lo + n ≤ 32) }
    ensures { (i : ℕ) → bit result i ≡ cond (within lo n i) on (bit w i) }
{
    let mask = low_ones(n) << (lo as u32);
    if on { w | mask } else { w & !mask }
}

// The lowest set bit of w; 32 where there is none.
pub fn lowest_set(w: u32) -> u32
    ensures { LowestBit true w result }
{
    u32::trailing_zeros(w)
}

// The lowest clear bit of w; 32 where there is none.
pub fn lowest_clear(w: u32) -> u32
    ensures { LowestBit false w result }
{
    u32::trailing_zeros(!w)
}
