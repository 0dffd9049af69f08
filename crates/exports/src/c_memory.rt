// The C surface of the layer: registering memory. include/sirqobal.h declares it. The state comes in
// numbers, and goes back in them with the answer; numbers that are no state's are turned down with 1.
ghost use Rattle.layer.specs.Step.{reserve, manage, adopt, act};
ghost use Rattle.surface.specs.Replies.{step_numbers, LeavesNumbers};

use arena::Arena;
use layer::{Settings, State};
use surface::StateNumbers;
use surface::reply::ReplyNumbers;
use surface::told::SettingsNumbers;

// Memory is asked of the host.
#[tactic(auto, unfolding(surface::specs::Replies::step_numbers, surface::specs::Replies::reply_of))]
#[unsafe(no_mangle)]
pub extern "C" fn sirqobal_reserve_os_memory_ex(
    records: &mut [Arena],
    stamps: &mut [u32],
    state: StateNumbers,
    ns: u64,
    settings: SettingsNumbers,
    size: u64,
    commit: bool,
    allow_large: bool,
    exclusive: bool,
) -> ReplyNumbers
    ensures { LeavesNumbers (step_numbers records.old stamps.old state ns settings (act (reserve size commit allow_large exclusive))) result records.new stamps.new }
{
    let Ok(s) = State::try_from(state) else {
        return surface::reply::no_state(state);
    };
    let c = Settings::from(settings);
    let r = registering::reserve_os_memory_ex(
        records,
        stamps,
        s,
        ns,
        c,
        size,
        commit,
        allow_large,
        exclusive,
    );
    ReplyNumbers::from(r)
}

// Memory that the host has already is registered. The first three flags say what nothing depends on; the
// last two are the host's facts: in the segment map already, and reserved.
#[tactic(auto, unfolding(surface::specs::Replies::step_numbers, surface::specs::Replies::reply_of))]
#[unsafe(no_mangle)]
pub extern "C" fn sirqobal_manage_os_memory_ex(
    records: &mut [Arena],
    stamps: &mut [u32],
    state: StateNumbers,
    ns: u64,
    settings: SettingsNumbers,
    start: u64,
    size: u64,
    is_committed: bool,
    is_large: bool,
    is_zero: bool,
    node: i32,
    exclusive: bool,
    mapped: bool,
    reserved: bool,
) -> ReplyNumbers
    ensures { LeavesNumbers (step_numbers records.old stamps.old state ns settings (act (manage start size exclusive node mapped reserved))) result records.new stamps.new }
{
    let Ok(s) = State::try_from(state) else {
        return surface::reply::no_state(state);
    };
    let c = Settings::from(settings);
    let r = registering::manage_os_memory_ex(
        records,
        stamps,
        s,
        ns,
        c,
        start,
        size,
        is_committed,
        is_large,
        is_zero,
        node,
        exclusive,
        mapped,
        reserved,
    );
    ReplyNumbers::from(r)
}

// A block of the allocator's own becomes an arena, or part of the one that ends at it.
#[tactic(auto, unfolding(surface::specs::Replies::step_numbers, surface::specs::Replies::reply_of))]
#[unsafe(no_mangle)]
pub extern "C" fn sirqobal_adopt_os_block(
    records: &mut [Arena],
    stamps: &mut [u32],
    state: StateNumbers,
    ns: u64,
    settings: SettingsNumbers,
    address: u64,
    size: u64,
) -> ReplyNumbers
    ensures { LeavesNumbers (step_numbers records.old stamps.old state ns settings (act (adopt address size))) result records.new stamps.new }
{
    let Ok(s) = State::try_from(state) else {
        return surface::reply::no_state(state);
    };
    let c = Settings::from(settings);
    let r = registering::adopt_os_block(records, stamps, s, ns, c, address, size);
    ReplyNumbers::from(r)
}
