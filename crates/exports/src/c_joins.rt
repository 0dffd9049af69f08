// The C surface of the layer: joining two tables. include/sirqobal.h declares it. The two states come in
// numbers, and go back in them with the answer; numbers that are no state's, on either side, are turned
// down with 1.
ghost use Rattle.surface.specs.Joins.{join_numbers, LeavesBothNumbers};

use arena::Arena;
use layer::{Settings, State};
use surface::StateNumbers;
use surface::joins::JoinNumbers;
use surface::told::SettingsNumbers;

// One table out of two: the second's arenas come behind the first's, and the second is left empty.
#[tactic(auto, unfolding(surface::specs::Joins::join_numbers, surface::specs::Joins::join_reply_of))]
#[unsafe(no_mangle)]
pub extern "C" fn sirqobal_join_tables(
    records: &mut [Arena],
    stamps: &mut [u32],
    second_records: &mut [Arena],
    second_stamps: &mut [u32],
    state: StateNumbers,
    second: StateNumbers,
    ns: u64,
    settings: SettingsNumbers,
) -> JoinNumbers
    ensures { LeavesBothNumbers (join_numbers records.old stamps.old second_records.old second_stamps.old state second ns settings) result records.new stamps.new second_records.new second_stamps.new }
{
    let Ok(s) = State::try_from(state) else {
        return surface::joins::no_join(state, second);
    };
    let Ok(t) = State::try_from(second) else {
        return surface::joins::no_join(state, second);
    };
    let c = Settings::from(settings);
    let r = joining::join_tables(records, stamps, second_records, second_stamps, s, t, ns, c);
    JoinNumbers::from(r)
}
