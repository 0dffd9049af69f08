// The C surface of the layer: releasing chunks, one run or a list of them, and sweeping. include/sirqobal.h declares it. The state
// comes in numbers, and goes back in them with the answer; numbers that are no state's are turned down
// with 1.
ghost use Rattle.layer.specs.Step.{release, sweep, act};
ghost use Rattle.layer.specs.Listing.{items};
ghost use Rattle.surface.specs.Told.{commitment_of};
ghost use Rattle.surface.specs.Replies.{step_numbers, LeavesNumbers};
ghost use Rattle.surface.specs.Lists.{list_numbers, LeavesListNumbers};

use arena::Arena;
use layer::{Settings, State};
use surface::StateNumbers;
use surface::reply::ReplyNumbers;
use surface::told::SettingsNumbers;

// n chunks from an address on are given back, with what is told of their commitment; purged later, if pending.
#[tactic(auto, unfolding(surface::specs::Replies::step_numbers, surface::specs::Replies::reply_of))]
#[unsafe(no_mangle)]
pub extern "C" fn sirqobal_chunk_release(
    records: &mut [Arena],
    stamps: &mut [u32],
    state: StateNumbers,
    ns: u64,
    settings: SettingsNumbers,
    address: u64,
    n: usize,
    told: i32,
    pending: bool,
) -> ReplyNumbers
    ensures { LeavesNumbers (step_numbers records.old stamps.old state ns settings (act (release address n (commitment_of told) pending))) result records.new stamps.new }
{
    let Ok(s) = State::try_from(state) else {
        return surface::reply::no_state(state);
    };
    let c = Settings::from(settings);
    let t = surface::told::told_of(told);
    let r = releasing::chunk_release(records, stamps, s, ns, c, address, n, t, pending);
    ReplyNumbers::from(r)
}

// Runs are given back in list order, each item's number at its place; purged later, if pending.
#[tactic(auto, unfolding(surface::specs::Lists::list_numbers, surface::specs::Replies::reply_of))]
#[unsafe(no_mangle)]
pub extern "C" fn sirqobal_chunk_release_list(
    records: &mut [Arena],
    stamps: &mut [u32],
    addresses: &[u64],
    counts: &[u32],
    answers: &mut [u32],
    state: StateNumbers,
    ns: u64,
    settings: SettingsNumbers,
    pending: bool,
) -> ReplyNumbers
    ensures { LeavesListNumbers (list_numbers records.old stamps.old state ns settings (items addresses.now counts.now answers.old pending)) result records.new stamps.new answers.new }
{
    let Ok(s) = State::try_from(state) else {
        return surface::reply::no_state(state);
    };
    let c = Settings::from(settings);
    let r = release_lists::chunk_release_list(
        records, stamps, addresses, counts, answers, s, ns, c, pending,
    );
    ReplyNumbers::from(r)
}

// A sweep of the arenas whose deadline has come; of all that are armed, if forced.
#[tactic(auto, unfolding(surface::specs::Replies::step_numbers, surface::specs::Replies::reply_of))]
#[unsafe(no_mangle)]
pub extern "C" fn sirqobal_purge_due(
    records: &mut [Arena],
    stamps: &mut [u32],
    state: StateNumbers,
    ns: u64,
    settings: SettingsNumbers,
    force: bool,
) -> ReplyNumbers
    ensures { LeavesNumbers (step_numbers records.old stamps.old state ns settings (act (sweep force))) result records.new stamps.new }
{
    let Ok(s) = State::try_from(state) else {
        return surface::reply::no_state(state);
    };
    let c = Settings::from(settings);
    let r = sweeping::purge_due(records, stamps, s, ns, c, force);
    ReplyNumbers::from(r)
}
