// Alignment (bins.rs).
ghost use Rattle.std.specs.Prelude.{◌≡◌};
ghost use Rattle.sizes.specs.Sizes.{is_aligned_to};

// Whether x is a multiple of align, by masks: align is no divisor here, so nothing divides at run time. The answer is no for
// an align that is no power of two, 0 among them: the mask alone would say that 4 is aligned to 3.
pub fn is_aligned_to(x: u64, align: u64) -> bool
    ensures { result ≡ is_aligned_to x align }
{
    if align == 0 {
        return false;
    }
    let m = align - 1;
    align & m == 0 && x & m == 0
}
