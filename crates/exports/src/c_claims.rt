// The C surface of the layer: claiming chunks. include/sirqobal.h declares it. The state comes in numbers,
// and goes back in them with the answer; numbers that are no state's are turned down with 1.
ghost use Rattle.std.specs.Prelude.{true, false};
ghost use Rattle.layer.specs.Step.{claim, act};
ghost use Rattle.surface.specs.Replies.{step_numbers, LeavesNumbers};

use arena::Arena;
use layer::{Settings, State};
use surface::StateNumbers;
use surface::reply::ReplyNumbers;
use surface::told::SettingsNumbers;

// One chunk, committed.
#[tactic(auto, unfolding(surface::specs::Replies::step_numbers, surface::specs::Replies::reply_of))]
#[unsafe(no_mangle)]
pub extern "C" fn sirqobal_chunk_alloc(
    records: &mut [Arena],
    stamps: &mut [u32],
    state: StateNumbers,
    ns: u64,
    settings: SettingsNumbers,
    id: i32,
) -> ReplyNumbers
    ensures { LeavesNumbers (step_numbers records.old stamps.old state ns settings (act (claim id 1 true))) result records.new stamps.new }
{
    let Ok(s) = State::try_from(state) else {
        return surface::reply::no_state(state);
    };
    let c = Settings::from(settings);
    let r = claiming::chunk_alloc(records, stamps, s, ns, c, id);
    ReplyNumbers::from(r)
}

// One chunk, as it is: the answer says whether it is committed.
#[tactic(auto, unfolding(surface::specs::Replies::step_numbers, surface::specs::Replies::reply_of))]
#[unsafe(no_mangle)]
pub extern "C" fn sirqobal_chunk_claim(
    records: &mut [Arena],
    stamps: &mut [u32],
    state: StateNumbers,
    ns: u64,
    settings: SettingsNumbers,
    id: i32,
) -> ReplyNumbers
    ensures { LeavesNumbers (step_numbers records.old stamps.old state ns settings (act (claim id 1 false))) result records.new stamps.new }
{
    let Ok(s) = State::try_from(state) else {
        return surface::reply::no_state(state);
    };
    let c = Settings::from(settings);
    let r = claiming::chunk_claim(records, stamps, s, ns, c, id);
    ReplyNumbers::from(r)
}

// A run of n chunks, committed.
#[tactic(auto, unfolding(surface::specs::Replies::step_numbers, surface::specs::Replies::reply_of))]
#[unsafe(no_mangle)]
pub extern "C" fn sirqobal_chunk_alloc_n(
    records: &mut [Arena],
    stamps: &mut [u32],
    state: StateNumbers,
    ns: u64,
    settings: SettingsNumbers,
    id: i32,
    n: usize,
) -> ReplyNumbers
    ensures { LeavesNumbers (step_numbers records.old stamps.old state ns settings (act (claim id n true))) result records.new stamps.new }
{
    let Ok(s) = State::try_from(state) else {
        return surface::reply::no_state(state);
    };
    let c = Settings::from(settings);
    let r = claiming::chunk_alloc_n(records, stamps, s, ns, c, id, n);
    ReplyNumbers::from(r)
}
