// The state that a call is lent, and its replies, by value: what the calls read of the one and how they make the
// other.
#![tactic(auto)]

ghost use Rattle.std.specs.Prelude.{◌≡◌};
ghost use Rattle.layer.specs.World.{size_of, state_with, reply, turn_down, calm};
ghost use Rattle.layer.specs.Answering.{is_idle};

use arena::chunk_size::ChunkSize;
use layer::{Answer, CHUNK, Question, Reply, State};
use refusals::Refusal;

// ---- what is read

// S, the bytes of a chunk of this table.
pub fn chunk_size(state: State) -> ChunkSize
    ensures { result.bytes ≡ size_of state }
{
    ChunkSize { bytes: CHUNK }
}

// Whether no question is open.
pub fn is_idle(state: State) -> bool
    ensures { result ≡ is_idle state.question }
{
    matches!(state.question, Question::Idle)
}

// ---- replies

// A refusal leaves the state.
pub fn refuse(why: Refusal, state: State) -> Reply
    ensures { result ≡ turn_down why state }
{
    Reply {
        answer: Answer::Refused(why),
        state,
    }
}

// An answer, with so many arenas and no question open.
pub fn settled(answer: Answer, count: usize, mark: bool) -> Reply
    ensures { result ≡ reply answer (calm count mark) }
{
    let state = State {
        count,
        mark,
        question: Question::Idle,
    };
    Reply { answer, state }
}

// An answer, with the question that it leaves open.
pub fn asked(answer: Answer, count: usize, mark: bool, question: Question) -> Reply
    ensures { result ≡ reply answer (state_with count mark question) }
{
    let state = State {
        count,
        mark,
        question,
    };
    Reply { answer, state }
}
