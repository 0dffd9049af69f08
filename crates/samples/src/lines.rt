// A line of 53 bytes: the kind, one hexadecimal digit; a, b and the answer r, 16 digits each; a space
// between two of them and a line end behind the last.
ghost use Rattle.std.specs.Prelude.{◌≡◌, ◌+◌, ◌≤◌, length};
ghost use Rattle.samples.specs.Lines.{parted, fields_at, line_at};

// The kind is the digit that stands in the sample: each replay has kinds of its own, and matches on it once.
#[derive(Clone, Copy)]
pub struct Line {
    pub kind: u64,
    pub a: u64,
    pub b: u64,
    pub r: u64,
}

// Whether the four bytes that are no digits stand where they should.
#[tactic(auto, unfolding(crate::specs::Lines::parted))]
fn is_parted(text: &[u8], at: usize) -> bool
    requires { at + 53 ≤ length text.now }
    ensures { result ≡ parted text.now at }
{
    text[at + 1] == b' ' && text[at + 18] == b' ' && text[at + 35] == b' ' && text[at + 52] == b'\n'
}

// The fields of the line that starts at `at`.
#[tactic(auto, unfolding(crate::specs::Lines::fields_at))]
fn fields(text: &[u8], at: usize) -> Option<Line>
    requires { at + 53 ≤ length text.now }
    ensures { result ≡ fields_at text.now at }
{
    Some(Line {
        kind: crate::hex::digit(text[at])?,
        a: crate::hex::field(text, at + 2)?,
        b: crate::hex::field(text, at + 19)?,
        r: crate::hex::field(text, at + 36)?,
    })
}

// The line that starts at `at`.
#[tactic(auto, unfolding(crate::specs::Lines::line_at))]
pub fn parse(text: &[u8], at: usize) -> Option<Line>
    requires { at + 53 ≤ length text.now }
    ensures { result ≡ line_at text.now at }
{
    if is_parted(text, at) {
        return fields(text, at);
    }
    None
}
