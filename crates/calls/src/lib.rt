// One call over all the entry points: the call is a value. Later requests and the replay of a sample make calls so.
#![tactic(auto)]

pub mod kinds;

ghost use Rattle.layer.specs.World.{world_of, Leaves};
ghost use Rattle.layer.specs.Step.{step, act, query};
ghost use Rattle.calls.specs.Calls.{memory_of, claim_of, free_of, act_of, query_of, call_of};

use crate::kinds::{ActCall, Call, ClaimCall, FreeCall, MemoryCall, QueryCall};
use arena::Arena;
use layer::{Reply, Settings, State};

// Memory is reserved, managed or adopted.
fn register(
    records: &mut [Arena],
    stamps: &mut [u32],
    state: State,
    ns: u64,
    settings: Settings,
    c: MemoryCall,
) -> Reply
    ensures { Leaves (step (world_of records.old stamps.old state) ns settings (act (memory_of c))) result records.new stamps.new }
{
    match c {
        MemoryCall::Reserve {
            size,
            commit,
            allow_large,
            exclusive,
        } => registering::reserve_os_memory_ex(
            records,
            stamps,
            state,
            ns,
            settings,
            size,
            commit,
            allow_large,
            exclusive,
        ),
        MemoryCall::Manage {
            start,
            size,
            is_committed,
            is_large,
            is_zero,
            node,
            exclusive,
            mapped,
            reserved,
        } => registering::manage_os_memory_ex(
            records,
            stamps,
            state,
            ns,
            settings,
            start,
            size,
            is_committed,
            is_large,
            is_zero,
            node,
            exclusive,
            mapped,
            reserved,
        ),
        MemoryCall::Adopt { address, size } => {
            registering::adopt_os_block(records, stamps, state, ns, settings, address, size)
        }
    }
}

// A chunk is allocated or claimed, or a run of n is allocated.
fn claim(
    records: &mut [Arena],
    stamps: &mut [u32],
    state: State,
    ns: u64,
    settings: Settings,
    c: ClaimCall,
) -> Reply
    ensures { Leaves (step (world_of records.old stamps.old state) ns settings (act (claim_of c))) result records.new stamps.new }
{
    match c {
        ClaimCall::ChunkAlloc { id } => {
            claiming::chunk_alloc(records, stamps, state, ns, settings, id)
        }
        ClaimCall::ChunkClaim { id } => {
            claiming::chunk_claim(records, stamps, state, ns, settings, id)
        }
        ClaimCall::ChunkAllocN { id, n } => {
            claiming::chunk_alloc_n(records, stamps, state, ns, settings, id, n)
        }
    }
}

// Chunks are released, or arenas swept.
fn free(
    records: &mut [Arena],
    stamps: &mut [u32],
    state: State,
    ns: u64,
    settings: Settings,
    c: FreeCall,
) -> Reply
    ensures { Leaves (step (world_of records.old stamps.old state) ns settings (act (free_of c))) result records.new stamps.new }
{
    match c {
        FreeCall::ChunkRelease {
            address,
            n,
            told,
            pending,
        } => releasing::chunk_release(
            records, stamps, state, ns, settings, address, n, told, pending,
        ),
        FreeCall::PurgeDue { force } => {
            sweeping::purge_due(records, stamps, state, ns, settings, force)
        }
    }
}

// What is done where no question is open, by its kind.
fn act(
    records: &mut [Arena],
    stamps: &mut [u32],
    state: State,
    ns: u64,
    settings: Settings,
    c: ActCall,
) -> Reply
    ensures { Leaves (step (world_of records.old stamps.old state) ns settings (act (act_of c))) result records.new stamps.new }
{
    match c {
        ActCall::Memory(c) => register(records, stamps, state, ns, settings, c),
        ActCall::Claim(c) => claim(records, stamps, state, ns, settings, c),
        ActCall::Free(c) => free(records, stamps, state, ns, settings, c),
    }
}

// Whether an address is owned, or an arena's area: the table is lent for reading.
fn ask(
    records: &mut [Arena],
    stamps: &mut [u32],
    state: State,
    ns: u64,
    settings: Settings,
    c: QueryCall,
) -> Reply
    ensures { Leaves (step (world_of records.old stamps.old state) ns settings (query (query_of c))) result records.new stamps.new }
{
    match c {
        QueryCall::Owns { address } => {
            queries::owns(records, stamps, state, ns, settings, address)
        }
        QueryCall::ArenaArea { id } => {
            queries::arena_area(records, stamps, state, ns, settings, id)
        }
    }
}

// The call of any kind.
pub fn call(
    records: &mut [Arena],
    stamps: &mut [u32],
    state: State,
    ns: u64,
    settings: Settings,
    c: Call,
) -> Reply
    ensures { Leaves (step (world_of records.old stamps.old state) ns settings (call_of c)) result records.new stamps.new }
{
    match c {
        Call::Act(c) => act(records, stamps, state, ns, settings, c),
        Call::Query(c) => ask(records, stamps, state, ns, settings, c),
        Call::Answer { kind, yes, base } => {
            answering::answer(records, stamps, state, ns, settings, kind, yes, base)
        }
    }
}
