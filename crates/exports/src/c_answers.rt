// The C surface of the layer: the host's answer. include/sirqobal.h declares it. The state comes in
// numbers, and goes back in them with the answer; numbers that are no state's are turned down with 1.
ghost use Rattle.layer.specs.Step.{answer};
ghost use Rattle.surface.specs.Told.{kind_of};
ghost use Rattle.surface.specs.Replies.{step_numbers, LeavesNumbers};

use arena::Arena;
use layer::{Settings, State};
use surface::StateNumbers;
use surface::reply::ReplyNumbers;
use surface::told::SettingsNumbers;

// The host's answer to the open question; `base` is where the memory is that was asked for.
#[tactic(auto, unfolding(surface::specs::Replies::step_numbers, surface::specs::Replies::reply_of))]
#[unsafe(no_mangle)]
pub extern "C" fn sirqobal_answer(
    records: &mut [Arena],
    stamps: &mut [u32],
    state: StateNumbers,
    ns: u64,
    settings: SettingsNumbers,
    kind: u32,
    yes: bool,
    base: u64,
) -> ReplyNumbers
    ensures { LeavesNumbers (step_numbers records.old stamps.old state ns settings (answer (kind_of kind) yes base)) result records.new stamps.new }
{
    let Ok(s) = State::try_from(state) else {
        return surface::reply::no_state(state);
    };
    let c = Settings::from(settings);
    let k = surface::told::kind_of(kind);
    let r = answering::answer(records, stamps, s, ns, c, k, yes, base);
    ReplyNumbers::from(r)
}
