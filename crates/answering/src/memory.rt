// The answer to a memory question: memory that did not come, that cannot be registered, or that becomes an arena
// for whom it was asked.
ghost use Rattle.std.specs.Prelude.{◌≡◌, ◌*◌};
ghost use Rattle.layer.specs.World.{size_of, Leaves};
ghost use Rattle.layer.specs.Table.{bad_range};
ghost use Rattle.layer.specs.Answering.{give_back_reply, answer_memory};
ghost use Rattle.state.specs.Ready.{Standing, Stamped, SoundArenas};
ghost use Rattle.answering.specs.Opened.{reserving};

use crate::open_question::MemoryQuestion;
use arena::{Arena, LAST};
use layer::{Answer, Ask, Question, Reply, State, Unusable};
use refusals::Refusal;

// Row 6: whether so many chunks from base on start at 0, end past the last address or overlap an arena. A state that is
// lent may ask for more chunks than have bytes that 64 bits count.
fn has_bad_range(records: &[Arena], state: State, chunks: u64, base: u64) -> bool
    requires { SoundArenas (size_of state) records.now state.count }
    ensures { result ≡ bad_range (size_of state) records.now state.count base (chunks * size_of state) }
{
    let chunk_size = state::chunk_size(state);
    if chunk_size.chunks_in(LAST) < chunks {
        return true;
    }
    let bytes = chunks * chunk_size.bytes;
    registering::ranges::range_bad(records, state.count, chunk_size, base, bytes)
}

// "A block that cannot be registered is given back (answer ignored), then refused".
fn give_back(state: State, memory: MemoryQuestion, base: u64, cause: Unusable) -> Reply
    ensures { result ≡ give_back_reply state.count state.mark base memory.bytes cause memory.waiting }
{
    let ask = Ask::AskGiveBack {
        address: base,
        bytes: memory.bytes,
    };
    let question = Question::GivingBack {
        cause,
        waiting: memory.waiting,
    };
    state::asked(Answer::Asks(ask), state.count, state.mark, question)
}

// A no is row 14. "Reserve after yes: 6, 12, 7, 13." 6 keeps the question open.
pub fn answer_memory(
    records: &mut [Arena],
    stamps: &mut [u32],
    state: State,
    memory: MemoryQuestion,
    granted: bool,
    base: u64,
) -> Reply
    requires { Standing records.old state × Stamped stamps.old × (state.question ≡ reserving memory) }
    ensures { Leaves (answer_memory (size_of state) records.old stamps.old state.count state.mark memory.chunks memory.bytes memory.commit memory.exclusive memory.waiting granted base) result records.new stamps.new }
{
    if !granted {
        return crate::waiting::fail(state, Refusal::MemoryRefused, memory.waiting);
    }
    if has_bad_range(records, state, memory.chunks, base) {
        return state::refuse(Refusal::Range, state);
    }
    if registering::counts::has_bad_count(memory.chunks) {
        return give_back(state, memory, base, Unusable::Count);
    }
    if !state::chunk_size(state).divides(base) {
        return give_back(state, memory, base, Unusable::Misaligned);
    }
    if registering::counts::is_full(state.count) {
        return give_back(state, memory, base, Unusable::Full);
    }
    crate::waiting::register(records, stamps, state, memory, base)
}
