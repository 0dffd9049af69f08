// Which of an arena's pending chunks a sweep asks the host about: those that are neither young nor in use.
ghost use Rattle.std.specs.Prelude.{◌≡◌, not, ◌&&◌, ◌+◌, ◌<◌, ◌≤◌, length};
ghost use Rattle.bitmap.specs.Bits.{bit_at};
ghost use Rattle.arena.specs.Sweeping.{young, next_asked};

use crate::{Arena, Timing};

// Whether chunk j is too young to be asked about; a forced sweep judges no age.
#[tactic(auto, unfolding(crate::specs::Sweeping::young))]
fn is_young(stamps: &[u32], timing: Timing, j: usize) -> bool
    requires { j < length stamps.now }
    ensures { result ≡ young stamps.now timing.force timing.now timing.delay j }
{
    !timing.force && clock::age_ms(timing.now, stamps[j]) < timing.delay
}

// Place j of a row of bits.
#[tactic(auto, using(crate::proofs::asks::AskLaws::bit_by_mask))]
fn bit_of(row: &[u32; 32], j: usize) -> bool
    requires { j < 1024 }
    ensures { result ≡ bit_at row.now j }
{
    (row[j / 32] >> ((j % 32) as u32)) & 1 == 1
}

// Whether chunk j, which is pending, is asked about: it is neither young nor in use.
fn is_asked(used: &[u32; 32], stamps: &[u32], timing: Timing, j: usize) -> bool
    requires { (j < 1024) × (j < length stamps.now) }
    ensures { result ≡ (not (young stamps.now timing.force timing.now timing.delay j) && not (bit_at used.now j)) }
{
    !is_young(stamps, timing, j) && !bit_of(used, j)
}

impl Arena {
    // The next chunk to ask about, from `from` on; `stamps` are the arena's own. It goes from pending bit to pending bit.
    #[tactic(auto, using(crate::proofs::ScanLaws::found_bounds, crate::proofs::asks::AskLaws::asked_here, crate::proofs::asks::AskLaws::asked_past, crate::proofs::asks::AskLaws::asked_none))]
    pub fn next_asked(&self, stamps: &[u32], timing: Timing, from: usize) -> Option<usize>
        requires { (self.now.chunks ≤ 1024) × (length stamps.now ≡ 1024) }
        ensures { result ≡ next_asked self.now stamps.now timing.force timing.now timing.delay from }
    {
        let mut at = from;
        while let Some(j) = bitmap::row_scans::next_set(&self.pending, at, self.chunks) {
            if is_asked(&self.used, stamps, timing, j) {
                return Some(j);
            }
            at = j + 1;
        }
        None
    }
}
