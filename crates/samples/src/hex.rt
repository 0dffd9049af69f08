// Numbers in lower-case hexadecimal.
ghost use Rattle.std.specs.Prelude.{◌≡◌, ◌+◌, ◌≤◌, length};
ghost use Rattle.samples.specs.Hex.{digit_of, digits_at};

// The value of one digit.
#[tactic(auto, unfolding(crate::specs::Hex::digit_of))]
pub fn digit(b: u8) -> Option<u64>
    ensures { result ≡ digit_of b }
{
    match b {
        b'0'..=b'9' => Some((b - b'0') as u64),
        b'a'..=b'f' => Some((b - b'a') as u64 + 10),
        _ => None,
    }
}

// The 16 digits from `at` on.
pub fn field(text: &[u8], at: usize) -> Option<u64>
    requires { at + 16 ≤ length text.now }
    ensures { result ≡ digits_at text.now at 16 }
{
    let mut high = 0;
    for i in 0..16 {
        high = high * 16 + digit(text[at + i])?;
    }
    Some(high)
}
