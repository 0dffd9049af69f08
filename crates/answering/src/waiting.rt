// Who waits for memory: what becomes of them where it did not come or cannot be used, and where it becomes an arena.
ghost use Rattle.std.specs.Prelude.{◌≡◌, true, suc, negsuc, List, ℕ, ◌≤◌, ◌<◌};
ghost use Rattle.refusals.specs.declared.Refusal.TheVariants.{NoRun};
ghost use Rattle.arena.specs.Registering.{reserved_arena};
ghost use Rattle.arena.specs.Soundness.{sound_arena};
ghost use Rattle.layer.specs.World.{size_of, Leaves, turn_down, calm};
ghost use Rattle.layer.specs.Claiming.{search_of};
ghost use Rattle.layer.specs.Answering.{fail_reply, cause_refusal, resume};
ghost use Rattle.state.specs.Ready.{Standing, Stamped};
ghost use Rattle.claiming.specs.Search.{search_from, Searchable};

use crate::open_question::MemoryQuestion;
use arena::Arena;
use claiming::searching::Place;
use layer::{Answer, Question, Reply, State, Unusable, Waiting};
use refusals::Refusal;

// ---- the memory did not come, or cannot be used

// A reserve is turned down with the cause; a claim that waits finds no run, and "a failed reserve sets the mark
// for good".
pub fn fail(state: State, why: Refusal, waiting: Waiting) -> Reply
    ensures { result ≡ fail_reply state.count state.mark why waiting }
{
    match waiting {
        Waiting::Reserve => state::settled(Answer::Refused(why), state.count, state.mark),
        Waiting::Claim { .. } => claiming::misses::no_such_run(state.count, true),
    }
}

// 12, 7 or 13.
fn refusal_of(cause: Unusable) -> Refusal
    ensures { result ≡ cause_refusal cause }
{
    match cause {
        Unusable::Count => Refusal::ChunkCount,
        Unusable::Misaligned => Refusal::NotWhole,
        Unusable::Full => Refusal::TableFull,
    }
}

// The block went back, whatever the host says of it: who waited for it is turned down.
pub fn answer_give_back(state: State, cause: Unusable, waiting: Waiting) -> Reply
    ensures { result ≡ fail_reply state.count state.mark (cause_refusal cause) waiting }
{
    fail(state, refusal_of(cause), waiting)
}

// ---- the memory becomes an arena

// The run that the claim finds, by no arena's name. No call leaves a claim of no chunks waiting, but a state
// that is lent may have one.
fn find_again(records: &[Arena], k: usize, n: usize) -> Option<Place>
    requires { Searchable records.now k }
    ensures { result ≡ search_from records.now (negsuc 0) n 0 k }
{
    if n == 0 {
        return claiming::searching::search_none(records, k, -1);
    }
    claiming::searching::search(records, k, -1, n)
}

// The claim that waits "searches once more", the new arena being the last.
fn search_again(records: &mut [Arena], state: State, n: usize, commits: bool) -> Reply
    requires { Standing records.old state }
    ensures { (stamps : List ℕ) → Leaves (search_of (size_of state) records.old stamps state.count state.mark (negsuc 0) n commits (turn_down NoRun (calm state.count state.mark))) result records.new stamps }
{
    match find_again(records, state.count, n) {
        Some(place) => claiming::grants::grant(records, state, place, n, commits),
        None => claiming::misses::no_such_run(state.count, state.mark),
    }
}

// The arena is registered, and who waits goes on.
pub fn register(
    records: &mut [Arena],
    stamps: &mut [u32],
    state: State,
    memory: MemoryQuestion,
    base: u64,
) -> Reply
    requires { Standing records.old state × Stamped stamps.old × (state.count < 32) × (memory.chunks ≤ 1024) × (sound_arena (size_of state) (reserved_arena base memory.chunks memory.commit memory.exclusive) ≡ true) }
    ensures { Leaves (resume (size_of state) records.old stamps.old state.count state.mark (reserved_arena base memory.chunks memory.commit memory.exclusive) memory.waiting) result records.new stamps.new }
{
    let chunks = memory.chunks as usize;
    let a = Arena::reserved(base, chunks, memory.commit, memory.exclusive);
    match memory.waiting {
        Waiting::Reserve => registering::writing::register(records, stamps, state, a),
        Waiting::Claim { n, commits } => {
            registering::writing::write_new(records, stamps, state.count, a);
            let left = State {
                count: state.count + 1,
                mark: state.mark,
                question: Question::Idle,
            };
            search_again(records, left, n, commits)
        }
    }
}
