// When the next sweep of an arena is: the shortest wait for a young pending chunk, and the deadline armed anew.
ghost use Rattle.std.specs.Prelude.{◌≡◌, false, cond, ◌+◌, ◌<◌, ◌≤◌, length};
ghost use Rattle.arena.specs.Sweeping.{young, nearer, wait};
ghost use Rattle.arena.specs.Maps.{wait_in, next_deadline};

use crate::Timing;

// The lesser of a number and one that was found.
fn nearer_of(x: usize, found: Option<usize>) -> Option<usize>
    ensures { result ≡ nearer x found }
{
    match found {
        Some(y) => Some(x.min(y)),
        None => Some(x),
    }
}

// The nearest wait so far, with chunk j's where it is young.
#[tactic(auto, unfolding(crate::specs::Sweeping::young, crate::specs::Sweeping::wait))]
fn with_wait(stamps: &[u32], timing: Timing, j: usize, best: Option<usize>) -> Option<usize>
    requires { j < length stamps.now }
    ensures { result ≡ cond (young stamps.now false timing.now timing.delay j) (nearer (wait stamps.now timing.now timing.delay j) best) best }
{
    let age = clock::age_ms(timing.now, stamps[j]);
    if age < timing.delay {
        return nearer_of((timing.delay - age) as usize, best);
    }
    best
}

// The shortest time from now to the deadline of a young pending chunk.
#[tactic(auto, using(crate::proofs::ScanLaws::found_bounds, crate::proofs::waits::WaitLaws::waits_all, crate::proofs::waits::WaitLaws::waits_past, crate::proofs::waits::WaitLaws::waits_end))]
fn next_wait(pending: &[u32; 32], chunks: usize, stamps: &[u32], timing: Timing) -> Option<usize>
    requires { (chunks ≤ 1024) × (length stamps.now ≡ 1024) }
    ensures { result ≡ wait_in pending.now chunks stamps.now timing.now timing.delay }
{
    let mut at = 0;
    let mut best = None;
    while let Some(j) = bitmap::row_scans::next_set(pending, at, chunks) {
        best = with_wait(stamps, timing, j, best);
        at = j + 1;
    }
    best
}

// The deadline armed anew after an unforced sweep, for the pending chunks that were too young. `stamps` are the arena's own.
#[tactic(auto, using(crate::proofs::waits::WaitLaws::wait_most), unfolding(crate::specs::Maps::next_deadline))]
pub fn next_deadline(
    deadline: u32,
    pending: &[u32; 32],
    chunks: usize,
    stamps: &[u32],
    timing: Timing,
) -> u32
    requires { (chunks ≤ 1024) × (length stamps.now ≡ 1024) }
    ensures { result ≡ next_deadline deadline pending.now chunks stamps.now timing.force timing.now timing.delay }
{
    if timing.force {
        return deadline;
    }
    match next_wait(pending, chunks, stamps, timing) {
        Some(w) => clock::arm(deadline, clock::due_at(timing.now, w as u32)),
        None => deadline,
    }
}
