// A sweep's changes to one arena, by value, one for each way that a sweep leaves a record: its first question is
// put, none is put, the next one is put after an answer, none is left after an answer. Which it is, `is_due` and `asks` say.
ghost use Rattle.std.specs.Prelude.{◌≡◌, cond, ◌&&◌, ◌<◌};
ghost use Rattle.bitmap.specs.Rows.{clear_run};
ghost use Rattle.arena.specs.Record.{with_deadline};
ghost use Rattle.arena.specs.Sweeping.{sweep_due, disarm, borrow_chunk, return_chunk};

use crate::Arena;

// The chunk's committed bit cleared where it was decommitted.
fn row_purged(row: [u32; 32], j: usize, granted: bool, decommit: bool) -> [u32; 32]
    requires { j < 1024 }
    ensures { result ≡ cond (granted && decommit) (clear_run row j 1) row }
{
    if granted && decommit {
        return bitmap::rows::row_cleared(row, j, 1);
    }
    row
}

impl Arena {
    // Whether a sweep works on the arena: a deadline is set, and has come or is forced.
    #[tactic(auto, unfolding(crate::specs::Sweeping::sweep_due))]
    pub fn is_due(&self, force: bool, now: u32) -> bool
        ensures { result ≡ sweep_due self.now force now }
    {
        self.deadline != 0 && (force || clock::is_due(self.deadline, now))
    }

    // The arena is disarmed, and chunk j's used bit is set while the host is asked to purge it.
    #[tactic(auto, unfolding(crate::specs::Claiming::take_run, crate::specs::Sweeping::disarm, crate::specs::Sweeping::borrow_chunk))]
    pub fn first_borrowed(self, j: usize) -> Arena
        requires { j < 1024 }
        ensures { result ≡ borrow_chunk (disarm self) j }
    {
        Arena {
            deadline: 0,
            used: bitmap::rows::row_set(self.used, j, 1),
            ..self
        }
    }

    // Another deadline.
    pub fn armed_anew(self, deadline: u32) -> Arena
        ensures { result ≡ with_deadline self deadline }
    {
        Arena { deadline, ..self }
    }

    // Chunk j comes back after the host's answer, neither used nor pending, and not committed where it was
    // decommitted; chunk k is borrowed for the next question.
    #[tactic(auto, unfolding(crate::specs::Claiming::take_run, crate::specs::Claiming::give_back_run, crate::specs::Releasing::tell_run, crate::specs::Sweeping::borrow_chunk, crate::specs::Sweeping::unpend_chunk, crate::specs::Sweeping::return_chunk))]
    pub fn next_borrowed(self, j: usize, granted: bool, decommit: bool, k: usize) -> Arena
        requires { (j < 1024) × (k < 1024) }
        ensures { result ≡ borrow_chunk (return_chunk self j granted decommit) k }
    {
        let left = bitmap::rows::row_cleared(self.used, j, 1);
        Arena {
            used: bitmap::rows::row_set(left, k, 1),
            committed: row_purged(self.committed, j, granted, decommit),
            pending: bitmap::rows::row_cleared(self.pending, j, 1),
            ..self
        }
    }

    // Chunk j comes back, and the deadline is another.
    #[tactic(auto, unfolding(crate::specs::Claiming::give_back_run, crate::specs::Releasing::tell_run, crate::specs::Sweeping::unpend_chunk, crate::specs::Sweeping::return_chunk))]
    pub fn last_returned(self, j: usize, granted: bool, decommit: bool, deadline: u32) -> Arena
        requires { j < 1024 }
        ensures { result ≡ with_deadline (return_chunk self j granted decommit) deadline }
    {
        Arena {
            deadline,
            used: bitmap::rows::row_cleared(self.used, j, 1),
            committed: row_purged(self.committed, j, granted, decommit),
            pending: bitmap::rows::row_cleared(self.pending, j, 1),
            ..self
        }
    }
}
