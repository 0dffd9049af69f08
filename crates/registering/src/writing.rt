// A new arena: "Registering writes the whole record and its 1,024 stamps".
ghost use Rattle.std.specs.Prelude.{◌≡◌, suc, ◌<◌, length};
ghost use Rattle.layer.specs.declared.Answer.TheVariants.{Registered};
ghost use Rattle.layer.specs.World.{Leaves, reply, calm};
ghost use Rattle.layer.specs.Registering.{with_record, with_stamps, registered};
ghost use Rattle.state.specs.Ready.{Stamped};

use arena::Arena;
use layer::{Answer, Reply, State};

// The record is written at the id k, and the stamps of k are made 0.
pub fn write_new(records: &mut [Arena], stamps: &mut [u32], k: usize, a: Arena)
    requires { (k < length records.old) × (k < 32) × Stamped stamps.old }
    ensures { (records.new ≡ with_record records.old k a) × (stamps.new ≡ with_stamps stamps.old k) }
{
    table::records::store(records, k, a);
    arena::purge::stamp_run_of(stamps, k, 0, 1024, 0);
}

// The new arena's id, and one arena more.
pub fn registered(state: State) -> Reply
    requires { state.count < 32 }
    ensures { result ≡ reply (Registered state.count) (calm (suc state.count) state.mark) }
{
    let k = state.count;
    state::settled(Answer::Registered(k), k + 1, state.mark)
}

// The new arena, for which there is room.
pub fn register(records: &mut [Arena], stamps: &mut [u32], state: State, a: Arena) -> Reply
    requires { (length records.old ≡ 32) × (state.count < 32) × Stamped stamps.old }
    ensures { Leaves (registered records.old stamps.old state.count state.mark a) result records.new stamps.new }
{
    write_new(records, stamps, state.count, a);
    registered(state)
}
