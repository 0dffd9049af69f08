// The C surface of the layer: its queries, which change nothing. include/sirqobal.h declares it. The state
// comes in numbers, and goes back in them with the answer; numbers that are no state's are turned down
// with 1.
ghost use Rattle.std.specs.Prelude.{◌≡◌};
ghost use Rattle.layer.specs.Step.{owns, area, query};
ghost use Rattle.surface.specs.Replies.{step_numbers};

use arena::Arena;
use layer::{Settings, State};
use surface::StateNumbers;
use surface::reply::ReplyNumbers;
use surface::told::SettingsNumbers;

// Whether an address lies in an arena.
#[tactic(auto, using(surface::proofs::CallLaws::query_numbers), unfolding(surface::specs::Replies::step_numbers))]
#[unsafe(no_mangle)]
pub extern "C" fn sirqobal_owns(
    records: &[Arena],
    stamps: &[u32],
    state: StateNumbers,
    ns: u64,
    settings: SettingsNumbers,
    address: u64,
) -> ReplyNumbers
    ensures { result ≡ (step_numbers records.now stamps.now state ns settings (query (owns address))).reply }
{
    let Ok(s) = State::try_from(state) else {
        return surface::reply::no_state(state);
    };
    let c = Settings::from(settings);
    let r = queries::owns(records, stamps, s, ns, c, address);
    surface::reply::answered(r, state)
}

// The base and the bytes of an arena; 0 and 0 where there is none.
#[tactic(auto, using(surface::proofs::CallLaws::query_numbers), unfolding(surface::specs::Replies::step_numbers))]
#[unsafe(no_mangle)]
pub extern "C" fn sirqobal_arena_area(
    records: &[Arena],
    stamps: &[u32],
    state: StateNumbers,
    ns: u64,
    settings: SettingsNumbers,
    id: i32,
) -> ReplyNumbers
    ensures { result ≡ (step_numbers records.now stamps.now state ns settings (query (area id))).reply }
{
    let Ok(s) = State::try_from(state) else {
        return surface::reply::no_state(state);
    };
    let c = Settings::from(settings);
    let r = queries::arena_area(records, stamps, s, ns, c, id);
    surface::reply::answered(r, state)
}
