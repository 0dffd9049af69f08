// Numbers in two's complement.
ghost use Rattle.std.specs.Prelude.{◌≡◌};
ghost use Rattle.samples.specs.Signed.{signed_of, narrow_of};

// The number whose two's complement x is.
pub fn wide(x: u64) -> i64
    ensures { result ≡ signed_of x }
{
    if x < 9223372036854775808 {
        return x as i64;
    }
    !((u64::MAX - x) as i64)
}

// The number whose two's complement the low 32 bits are.
pub fn narrow(x: u64) -> i32
    ensures { result ≡ narrow_of x }
{
    let low = x % 4294967296;
    if low < 2147483648 {
        return low as i32;
    }
    !((4294967295 - low) as i32)
}
