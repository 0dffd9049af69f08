// The two queries of the layer: whether an address lies in an arena, and the area of an arena. They read the lent
// table and change nothing. Document 01: "Queries (`owns`, `arena_area`) know 1 only."
#![tactic(auto)]

ghost use Rattle.std.specs.Prelude.{◌≡◌, is_some};
ghost use Rattle.layer.specs.World.{size_of, world_of, reply_in, reply};
ghost use Rattle.layer.specs.Table.{find_arena};
ghost use Rattle.layer.specs.Step.{owns, area, area_of, step, query};
ghost use Rattle.state.specs.Ready.{Standing};
ghost use Rattle.queries.specs.Registered.{registered};

use arena::Arena;
use layer::{Answer, Reply, Settings, State};
use refusals::Refusal;

// ---- owns

// Whether an address lies in an arena, on a table that row 1 lets pass.
pub fn lies_in_arena(records: &[Arena], state: State, address: u64) -> bool
    requires { Standing records.now state }
    ensures { result ≡ is_some (find_arena (size_of state) records.now state.count address) }
{
    table::find_arena(records, state.count, state::chunk_size(state), address).is_some()
}

// Whether an address lies in an arena.
pub fn owns(
    records: &[Arena],
    stamps: &[u32],
    state: State,
    ns: u64,
    settings: Settings,
    address: u64,
) -> Reply
    ensures { result ≡ reply_in (step (world_of records.now stamps.now state) ns settings (query (owns address))) }
{
    let chunk_size = state::chunk_size(state);
    if !table::row_one(records, stamps.len(), state, settings.page, chunk_size) {
        return state::refuse(Refusal::Broken, state);
    }
    let answer = Answer::Owns(lies_in_arena(records, state, address));
    Reply { answer, state }
}

// ---- areas

// The place of an id, where the table has an arena of that id.
fn registered(id: i32, count: usize) -> Option<usize>
    ensures { result ≡ registered count id }
{
    if id < 0 || count <= id as usize {
        return None;
    }
    Some(id as usize)
}

// The area of the arena of an id, on a table that row 1 lets pass; 0 and 0 where there is none. "`arena_area` answers base and
// chunks × S"
pub fn area_of(records: &[Arena], state: State, id: i32) -> Answer
    requires { Standing records.now state }
    ensures { result ≡ area_of (size_of state) records.now state.count id }
{
    match registered(id, state.count) {
        Some(i) => {
            let a = &records[i];
            Answer::Area {
                base: a.base,
                bytes: (a.chunks as u64) * state::chunk_size(state).bytes,
            }
        }
        None => Answer::Area { base: 0, bytes: 0 },
    }
}

// The area of an arena: its base and its bytes; 0 and 0 where there is none.
pub fn arena_area(
    records: &[Arena],
    stamps: &[u32],
    state: State,
    ns: u64,
    settings: Settings,
    id: i32,
) -> Reply
    ensures { result ≡ reply_in (step (world_of records.now stamps.now state) ns settings (query (area id))) }
{
    let chunk_size = state::chunk_size(state);
    if !table::row_one(records, stamps.len(), state, settings.page, chunk_size) {
        return state::refuse(Refusal::Broken, state);
    }
    let answer = area_of(records, state, id);
    Reply { answer, state }
}
