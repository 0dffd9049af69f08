// The three claims. Behind rows 1 and 2 a core: rows 4 and 5, one search, and the run that it found is granted,
// its commit is asked for, or the claim waits for a default reserve.
#![tactic(auto)]

pub mod grants;
pub mod misses;
pub mod searching;

ghost use Rattle.std.specs.Prelude.{◌≡◌, true, false, List, ℕ};
ghost use Rattle.layer.specs.World.{size_of, world_of, Leaves};
ghost use Rattle.layer.specs.Claiming.{claim_of};
ghost use Rattle.layer.specs.Step.{claim, step, act};
ghost use Rattle.state.specs.Ready.{Ready};

use arena::Arena;
use layer::{Reply, Settings, State};
use refusals::Refusal;

// A claim of n chunks at the id, on a table that rows 1 and 2 let pass: rows 4 and 5, then the search. It reads no clock.
pub fn claim(
    records: &mut [Arena],
    state: State,
    settings: Settings,
    id: i32,
    n: usize,
    commits: bool,
) -> Reply
    requires { Ready records.old state }
    ensures { (stamps : List ℕ) → Leaves (claim_of (size_of state) records.old stamps state.count state.mark id n commits settings) result records.new stamps }
{
    if n == 0 {
        return state::refuse(Refusal::Zero, state);
    }
    if !options::arena_allowed(settings.off, id) {
        return state::refuse(Refusal::ArenasOff, state);
    }
    match crate::searching::search(records, state.count, id, n) {
        Some(place) => crate::grants::grant(records, state, place, n, commits),
        None => crate::misses::miss(state, settings, id, n, commits, state::chunk_size(state)),
    }
}

// ---- the entry points

// Rows 1 and 2, then the claim.
fn claim_at(
    records: &mut [Arena],
    stamps: &mut [u32],
    state: State,
    settings: Settings,
    id: i32,
    n: usize,
    commits: bool,
) -> Reply
    ensures { (ns : ℕ) → Leaves (step (world_of records.old stamps.old state) ns settings (act (claim id n commits))) result records.new stamps.new }
{
    if let Err(why) = table::rows_one_and_two(records, stamps.len(), state, settings.page) {
        return state::refuse(why, state);
    }
    claim(records, state, settings, id, n, commits)
}

// One chunk, committed.
pub fn chunk_alloc(
    records: &mut [Arena],
    stamps: &mut [u32],
    state: State,
    ns: u64,
    settings: Settings,
    id: i32,
) -> Reply
    ensures { Leaves (step (world_of records.old stamps.old state) ns settings (act (claim id 1 true))) result records.new stamps.new }
{
    claim_at(records, stamps, state, settings, id, 1, true)
}

// One chunk, as it is: the answer says whether it is committed.
pub fn chunk_claim(
    records: &mut [Arena],
    stamps: &mut [u32],
    state: State,
    ns: u64,
    settings: Settings,
    id: i32,
) -> Reply
    ensures { Leaves (step (world_of records.old stamps.old state) ns settings (act (claim id 1 false))) result records.new stamps.new }
{
    claim_at(records, stamps, state, settings, id, 1, false)
}

// A run of n chunks, committed.
pub fn chunk_alloc_n(
    records: &mut [Arena],
    stamps: &mut [u32],
    state: State,
    ns: u64,
    settings: Settings,
    id: i32,
    n: usize,
) -> Reply
    ensures { Leaves (step (world_of records.old stamps.old state) ns settings (act (claim id n true))) result records.new stamps.new }
{
    claim_at(records, stamps, state, settings, id, n, true)
}
