// The calls that register an arena: a reserve asks the host for memory, a manage takes memory that the host has
// already, an adopt a block of the allocator's own. Behind rows 1 and 2 each is a core, in the module of its name.
#![tactic(auto)]

pub mod adopting;
pub mod counts;
pub mod managing;
pub mod ranges;
pub mod reserving;
pub mod writing;

ghost use Rattle.layer.specs.World.{world_of, Leaves};
ghost use Rattle.layer.specs.Step.{reserve, manage, adopt, step, act};

use arena::Arena;
use layer::{Reply, Settings, State};

// Memory is asked of the host.
pub fn reserve_os_memory_ex(
    records: &mut [Arena],
    stamps: &mut [u32],
    state: State,
    ns: u64,
    settings: Settings,
    size: u64,
    commit: bool,
    allow_large: bool,
    exclusive: bool,
) -> Reply
    ensures { Leaves (step (world_of records.old stamps.old state) ns settings (act (reserve size commit allow_large exclusive))) result records.new stamps.new }
{
    if let Err(why) = table::rows_one_and_two(records, stamps.len(), state, settings.page) {
        return state::refuse(why, state);
    }
    crate::reserving::reserve(state, settings, size, commit, allow_large, exclusive)
}

// Memory that the host has already is registered. The first three flags say what nothing depends on; the
// last two are the host's facts: in the segment map already, and reserved.
pub fn manage_os_memory_ex(
    records: &mut [Arena],
    stamps: &mut [u32],
    state: State,
    ns: u64,
    settings: Settings,
    start: u64,
    size: u64,
    is_committed: bool,
    is_large: bool,
    is_zero: bool,
    node: i32,
    exclusive: bool,
    mapped: bool,
    reserved: bool,
) -> Reply
    ensures { Leaves (step (world_of records.old stamps.old state) ns settings (act (manage start size exclusive node mapped reserved))) result records.new stamps.new }
{
    if let Err(why) = table::rows_one_and_two(records, stamps.len(), state, settings.page) {
        return state::refuse(why, state);
    }
    crate::managing::manage(
        records, stamps, state, start, size, exclusive, node, mapped, reserved,
    )
}

// A block of the allocator's own becomes an arena, or part of the one that ends at it.
pub fn adopt_os_block(
    records: &mut [Arena],
    stamps: &mut [u32],
    state: State,
    ns: u64,
    settings: Settings,
    address: u64,
    size: u64,
) -> Reply
    ensures { Leaves (step (world_of records.old stamps.old state) ns settings (act (adopt address size))) result records.new stamps.new }
{
    if let Err(why) = table::rows_one_and_two(records, stamps.len(), state, settings.page) {
        return state::refuse(why, state);
    }
    crate::adopting::adopt(records, stamps, state, address, size)
}
