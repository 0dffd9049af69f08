// The lines that can be replayed: the kinds that there are, with arguments that their functions can take.
ghost use Rattle.std.specs.Prelude.{◌≡◌};
ghost use Rattle.replay.specs.Known.{narrow, known};

// Whether both arguments have 32 bits.
#[tactic(auto, unfolding(crate::specs::Known::narrow))]
fn is_narrow(a: u64, b: u64) -> bool
    ensures { result ≡ narrow a b }
{
    if a >= 4294967296 {
        return false;
    }
    b < 4294967296
}

// Whether the arguments are some that the kind's function can take: those of 3 and 4 have 32 bits.
#[tactic(auto, unfolding(crate::specs::Known::known))]
pub fn is_known(kind: u64, a: u64, b: u64) -> bool
    ensures { result ≡ known kind a b }
{
    if kind == 3 {
        return is_narrow(a, b);
    }
    if kind == 4 {
        return is_narrow(a, b);
    }
    if kind == 0 {
        return false;
    }
    kind <= 10
}
