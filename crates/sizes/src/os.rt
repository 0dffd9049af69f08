// Rounding up to whole pages (os.rs).
ghost use Rattle.std.specs.Prelude.{◌≡◌, ◌-◌};
ghost use Rattle.sizes.specs.Sizes.{zero_as_one, lowest_set_bit, page_align_up};

// The bits below the lowest set bit of page. Page 0 has 64 trailing zeros, which the mask turns to 0, so that it counts as 1.
fn page_mask(page: u64) -> u64
    ensures { result ≡ lowest_set_bit page - 1 }
{
    (1u64 << (u64::trailing_zeros(page) & 63)) - 1
}

// A size of 0 counts as 1.
fn at_least_one(size: u64) -> u64
    ensures { result ≡ zero_as_one size }
{
    if size == 0 { 1 } else { size }
}

// size rounded up to a whole number of pages, never 0. Where the sum would wrap, the size stays as it is: it never shrinks.
pub fn page_align_up(page: u64, size: u64) -> u64
    ensures { result ≡ page_align_up page size }
{
    let mask = page_mask(page);
    let base = at_least_one(size);
    if base <= u64::MAX - mask {
        (base + mask) & !mask
    } else {
        base
    }
}
