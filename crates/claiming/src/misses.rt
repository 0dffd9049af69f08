// A claim that no arena serves, by value: it waits for the default reserve, or there is no such run.
ghost use Rattle.std.specs.Prelude.{◌≡◌, not, ◌&&◌, leb};
ghost use Rattle.refusals.specs.declared.Refusal.TheVariants.{NoRun};
ghost use Rattle.layer.specs.World.{turn_down, calm};
ghost use Rattle.layer.specs.Claiming.{is_negative, miss_reply};

use arena::chunk_size::ChunkSize;
use layer::{Answer, Reply, Settings, State, Waiting};
use refusals::Refusal;

// There is no such run; whether reserves are given up.
pub fn no_such_run(count: usize, mark: bool) -> Reply
    ensures { result ≡ turn_down NoRun (calm count mark) }
{
    state::settled(Answer::Refused(Refusal::NoRun), count, mark)
}

// Whether a miss may reserve: the claim names no arena, the default reserve is a chunk at least, and
// reserves were not given up.
fn may_reserve(id: i32, reserve: u64, mark: bool, chunk_size: ChunkSize) -> bool
    ensures { result ≡ (is_negative id && (leb chunk_size.bytes reserve && not mark)) }
{
    id < 0 && chunk_size.bytes <= reserve && !mark
}

// No arena serves the claim: it waits for the default reserve, or there is no such run. A reserve that
// cannot be asked for has failed, and is given up.
pub fn miss(
    state: State,
    settings: Settings,
    id: i32,
    n: usize,
    commits: bool,
    chunk_size: ChunkSize,
) -> Reply
    ensures { result ≡ miss_reply chunk_size.bytes state.count state.mark id n commits settings }
{
    let reserve = settings.reserve;
    if !may_reserve(id, reserve, state.mark, chunk_size) {
        return no_such_run(state.count, state.mark);
    }
    if registering::reserving::too_large(reserve, chunk_size) {
        return no_such_run(state.count, true);
    }
    let waiting = Waiting::Claim { n, commits };
    registering::reserving::ask_memory(
        state,
        reserve,
        settings.page,
        false,
        false,
        false,
        waiting,
        chunk_size,
    )
}
