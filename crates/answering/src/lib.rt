// The answer call. Document 01: "A second call brings yes or no, for memory a base too." Behind rows 1 and 3 a
// core: the open question says what the answer does.
#![tactic(auto)]

pub mod committing;
pub mod memory;
pub mod open_question;
pub mod waiting;

ghost use Rattle.std.specs.Prelude.{◌≡◌, false};
ghost use Rattle.layer.specs.World.{size_of, world_of, Leaves};
ghost use Rattle.layer.specs.Step.{answer, step};
ghost use Rattle.layer.specs.Answering.{answer_to, is_idle};
ghost use Rattle.state.specs.Ready.{Asked};

use crate::open_question::MemoryQuestion;
use arena::Arena;
use claiming::searching::Place;
use layer::{Kind, Question, Reply, Settings, State};
use refusals::Refusal;

// What the answer does to the question that is open, on a table that row 1 lets pass.
pub fn answer_open(
    records: &mut [Arena],
    stamps: &mut [u32],
    state: State,
    granted: bool,
    base: u64,
) -> Reply
    requires { Asked records.old stamps.old state × (is_idle state.question ≡ false) }
    ensures { Leaves (answer_to (size_of state) records.old stamps.old state.count state.mark state.question granted base) result records.new stamps.new }
{
    match state.question {
        Question::Idle => unreachable!(),
        Question::Committing { id, start, n } => {
            crate::committing::answer_commit(records, state, Place { id, start }, n, granted)
        }
        Question::Purging { id, chunk, sweep } => {
            sweeping::answer_purge(records, stamps, state, id, chunk, sweep, granted)
        }
        Question::Reserving {
            chunks,
            bytes,
            commit,
            exclusive,
            waiting,
        } => {
            let memory = MemoryQuestion {
                chunks,
                bytes,
                commit,
                exclusive,
                waiting,
            };
            crate::memory::answer_memory(records, stamps, state, memory, granted, base)
        }
        Question::GivingBack { cause, waiting } => {
            crate::waiting::answer_give_back(state, cause, waiting)
        }
    }
}

// ---- the entry point

// The host's answer. `base` is where the memory is that was asked for.
pub fn answer(
    records: &mut [Arena],
    stamps: &mut [u32],
    state: State,
    ns: u64,
    settings: Settings,
    kind: Kind,
    granted: bool,
    base: u64,
) -> Reply
    ensures { Leaves (step (world_of records.old stamps.old state) ns settings (answer kind granted base)) result records.new stamps.new }
{
    let chunk_size = state::chunk_size(state);
    if !table::row_one(records, stamps.len(), state, settings.page, chunk_size) {
        return state::refuse(Refusal::Broken, state);
    }
    if !crate::open_question::is_for(state.question, kind) {
        return state::refuse(Refusal::NoSuchQuestion, state);
    }
    answer_open(records, stamps, state, granted, base)
}
