// A span of addresses in which the arenas seen so far lie.
ghost use Rattle.std.specs.Prelude.{◌≡◌, ◌+◌, ◌≤◌};
ghost use Rattle.table.specs.Spans.{outside};

use crate::ranges::Range;
use arena::LAST;

// The addresses from lo on, before hi.
#[derive(Clone, Copy)]
pub struct Span {
    pub lo: u64,
    pub hi: u64,
}

impl Span {
    // The span of no arena.
    pub fn none() -> Span
        ensures { (result.lo ≡ 18446744073709551615) × (result.hi ≡ 0) }
    {
        Span { lo: LAST, hi: 0 }
    }

    // Whether a range lies wholly at or above the span, or wholly below it.
    #[tactic(auto, unfolding(crate::specs::Spans::outside))]
    pub fn leaves_out(self, range: Range) -> bool
        ensures { result ≡ outside self range }
    {
        self.hi <= range.base || range.end() <= self.lo
    }

    // A span of the span and a range.
    pub fn with(self, range: Range) -> Span
        ensures { (result.lo ≤ self.lo) × (self.hi ≤ result.hi) × (result.lo ≤ range.base) × (range.base + range.bytes ≤ result.hi) }
    {
        Span {
            lo: self.lo.min(range.base),
            hi: self.hi.max(range.end()),
        }
    }
}
