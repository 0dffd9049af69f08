// Runs of one arena's chunks: found and looked at where they lie, and by value taken, granted, given back, released.
// Beside registering and growth a used bit is set by the methods that take a run, and cleared by those that give one back.
ghost use Rattle.std.specs.Prelude.{◌≡◌, true, ◌+◌, ◌*◌, ◌^◌, ◌<◌, ◌≤◌};
ghost use Rattle.bitmap.specs.Bits.{bit_at};
ghost use Rattle.bitmap.specs.Lowest.{all};
ghost use Rattle.arena.specs.Claiming.{find_run, run_committed, run_fresh, take_run, give_back_run, dirty_run, finish_grant};
ghost use Rattle.arena.specs.Releasing.{told_row, tell_run, pend_run};

use crate::chunk_size::ChunkSize;
use crate::{Arena, Commitment};

// A run of the map of committed chunks set, cleared or left, as the release says.
#[tactic(auto, unfolding(crate::specs::Releasing::told_row))]
fn row_told(row: [u32; 32], s: usize, n: usize, told: Commitment) -> [u32; 32]
    requires { s + n ≤ 1024 }
    ensures { result ≡ told_row row s n told }
{
    match told {
        Commitment::Untold => row,
        Commitment::Committed => bitmap::rows::row_set(row, s, n),
        Commitment::Uncommitted => bitmap::rows::row_cleared(row, s, n),
    }
}

// ---- where they lie

impl Arena {
    // The address of chunk s.
    pub fn address_of(&self, s: usize, chunk_size: ChunkSize) -> u64
        requires { self.now.base + s * chunk_size.bytes < 2 ^ 64 }
        ensures { result ≡ self.now.base + s * chunk_size.bytes }
    {
        self.base + (s as u64) * chunk_size.bytes
    }

    // The lowest run of n free chunks.
    #[tactic(auto, unfolding(crate::specs::Claiming::find_run))]
    pub fn find_run(&self, n: usize) -> Option<usize>
        requires { (self.now.chunks ≤ 1024) × (0 < n) }
        ensures { result ≡ find_run self.now n }
    {
        bitmap::runs::lowest_run(&self.used, true, self.chunks, n)
    }

    // Whether each chunk of the run is used.
    pub fn run_used(&self, s: usize, n: usize) -> bool
        requires { s + n ≤ 1024 }
        ensures { result ≡ all (bit_at self.now.used) s n }
    {
        bitmap::row_scans::run_is_free(&self.used, false, s, n)
    }

    // Whether each chunk of the run is committed.
    #[tactic(auto, unfolding(crate::specs::Claiming::run_committed))]
    pub fn run_committed(&self, s: usize, n: usize) -> bool
        requires { s + n ≤ 1024 }
        ensures { result ≡ run_committed self.now s n }
    {
        bitmap::row_scans::run_is_free(&self.committed, false, s, n)
    }

    // Whether no chunk of the run was dirty before.
    #[tactic(auto, unfolding(crate::specs::Claiming::run_fresh))]
    pub fn run_fresh(&self, s: usize, n: usize) -> bool
        requires { s + n ≤ 1024 }
        ensures { result ≡ run_fresh self.now s n }
    {
        bitmap::row_scans::run_is_free(&self.dirty, true, s, n)
    }
}

// ---- by value

impl Arena {
    // The run's used bits set.
    #[tactic(auto, unfolding(crate::specs::Claiming::take_run))]
    pub fn take_run(self, s: usize, n: usize) -> Arena
        requires { s + n ≤ 1024 }
        ensures { result ≡ take_run self s n }
    {
        let taken = bitmap::rows::row_set(self.used, s, n);
        Arena {
            used: taken,
            ..self
        }
    }

    // The run granted: its used and its dirty bits set.
    #[tactic(auto, unfolding(crate::specs::Claiming::take_run, crate::specs::Claiming::dirty_run))]
    pub fn grant_run(self, s: usize, n: usize) -> Arena
        requires { s + n ≤ 1024 }
        ensures { result ≡ dirty_run (take_run self s n) s n }
    {
        Arena {
            used: bitmap::rows::row_set(self.used, s, n),
            dirty: bitmap::rows::row_set(self.dirty, s, n),
            ..self
        }
    }

    // The run that was taken granted after all, and committed.
    #[tactic(auto, unfolding(crate::specs::Claiming::commit_run, crate::specs::Claiming::dirty_run, crate::specs::Claiming::finish_grant))]
    pub fn finish_grant(self, s: usize, n: usize) -> Arena
        requires { s + n ≤ 1024 }
        ensures { result ≡ finish_grant self s n true }
    {
        Arena {
            dirty: bitmap::rows::row_set(self.dirty, s, n),
            committed: bitmap::rows::row_set(self.committed, s, n),
            ..self
        }
    }

    // The run's used bits cleared, held or not.
    #[tactic(auto, unfolding(crate::specs::Claiming::give_back_run))]
    pub fn give_back_run(self, s: usize, n: usize) -> Arena
        requires { s + n ≤ 1024 }
        ensures { result ≡ give_back_run self s n }
    {
        let left = bitmap::rows::row_cleared(self.used, s, n);
        Arena { used: left, ..self }
    }

    // The run released: its used bits cleared, held or not, and its commitment told.
    #[tactic(auto, unfolding(crate::specs::Claiming::give_back_run, crate::specs::Releasing::told_row, crate::specs::Releasing::tell_run))]
    pub fn release_run(self, s: usize, n: usize, told: Commitment) -> Arena
        requires { s + n ≤ 1024 }
        ensures { result ≡ tell_run (give_back_run self s n) s n told }
    {
        let freed = bitmap::rows::row_cleared(self.used, s, n);
        Arena {
            used: freed,
            committed: row_told(self.committed, s, n, told),
            ..self
        }
    }

    // The same, with its pending bits set and the deadline armed.
    #[tactic(auto, unfolding(crate::specs::Claiming::give_back_run, crate::specs::Releasing::told_row, crate::specs::Releasing::tell_run, crate::specs::Releasing::pend_run))]
    pub fn release_pending(self, s: usize, n: usize, told: Commitment, ms: u32, delay: u32) -> Arena
        requires { s + n ≤ 1024 }
        ensures { result ≡ pend_run (tell_run (give_back_run self s n) s n told) s n ms delay }
    {
        Arena {
            deadline: clock::arm(self.deadline, clock::due_at(ms, delay)),
            used: bitmap::rows::row_cleared(self.used, s, n),
            committed: row_told(self.committed, s, n, told),
            pending: bitmap::rows::row_set(self.pending, s, n),
            ..self
        }
    }
}
