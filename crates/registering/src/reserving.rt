// Reserving, by value: the memory question of a reserve, and of the claim that waits for a default reserve.
ghost use Rattle.std.specs.Prelude.{◌≡◌, false};
ghost use Rattle.layer.specs.declared.Question.TheVariants.{Idle};
ghost use Rattle.layer.specs.World.{size_of};
ghost use Rattle.layer.specs.Registering.{chunks_for, too_large, bytes_asked, ask_memory, reserve_reply};

use arena::LAST;
use arena::chunk_size::ChunkSize;
use layer::{Answer, Ask, Question, Reply, Settings, State, Waiting};
use refusals::Refusal;

// Whether the whole chunks, or they and one more, pass the last address.
#[tactic(auto, unfolding(layer::specs::Registering::too_large))]
pub fn too_large(size: u64, chunk_size: ChunkSize) -> bool
    ensures { result ≡ too_large chunk_size.bytes size }
{
    chunk_size.chunks_in(LAST) <= crate::counts::chunks_for(size, chunk_size)
}

// The bytes of the memory question: those of the whole chunks, and a page for none.
#[tactic(auto, unfolding(layer::specs::Registering::bytes_asked, layer::specs::Registering::too_large))]
fn bytes_asked(size: u64, chunks: u64, page: u64, chunk_size: ChunkSize) -> u64
    requires { (too_large chunk_size.bytes size ≡ false) × (chunks ≡ chunks_for chunk_size.bytes size) }
    ensures { result ≡ bytes_asked chunk_size.bytes size page }
{
    if size == 0 {
        return page;
    }
    chunks * chunk_size.bytes
}

// Memory is asked for, and somebody waits.
#[tactic(auto, unfolding(layer::specs::Registering::ask_memory))]
pub fn ask_memory(
    state: State,
    size: u64,
    page: u64,
    commit: bool,
    large: bool,
    exclusive: bool,
    waiting: Waiting,
    chunk_size: ChunkSize,
) -> Reply
    requires { too_large chunk_size.bytes size ≡ false }
    ensures { result ≡ ask_memory chunk_size.bytes state.count state.mark size page commit large exclusive waiting }
{
    let chunks = crate::counts::chunks_for(size, chunk_size);
    let bytes = bytes_asked(size, chunks, page, chunk_size);
    let ask = Ask::AskMemory {
        bytes,
        align: chunk_size.bytes,
        commit,
        large,
    };
    let question = Question::Reserving {
        chunks,
        bytes,
        commit,
        exclusive,
        waiting,
    };
    state::asked(Answer::Asks(ask), state.count, state.mark, question)
}

// A reserve, where no question is open. "if that product, or it plus S, passes 2^64 − 1, the answer is 12 unasked".
#[tactic(auto, unfolding(layer::specs::Registering::reserve_reply))]
pub fn reserve(
    state: State,
    settings: Settings,
    size: u64,
    commit: bool,
    large: bool,
    exclusive: bool,
) -> Reply
    requires { state.question ≡ Idle }
    ensures { result ≡ reserve_reply (size_of state) state.count state.mark size commit large exclusive settings.page }
{
    let chunk_size = state::chunk_size(state);
    if too_large(size, chunk_size) {
        return state::refuse(Refusal::ChunkCount, state);
    }
    ask_memory(
        state,
        size,
        settings.page,
        commit,
        large,
        exclusive,
        Waiting::Reserve,
        chunk_size,
    )
}
