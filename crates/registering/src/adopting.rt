// Adopting: a block of whole chunks continues the arena that ends at it, or becomes an arena.
ghost use Rattle.std.specs.Prelude.{◌≡◌, ◌+◌, ◌<◌, ◌≤◌, length, set};
ghost use Rattle.arena.specs.Registering.{grown_arena};
ghost use Rattle.layer.specs.declared.Answer.TheVariants.{Registered};
ghost use Rattle.layer.specs.World.{size_of, Leaves, reply, calm};
ghost use Rattle.layer.specs.Table.{at};
ghost use Rattle.layer.specs.Registering.{adopt_of};
ghost use Rattle.state.specs.Ready.{Ready, Stamped};

use arena::Arena;
use layer::{Answer, Reply, State};
use refusals::Refusal;

// Arena i, which stands already, has n chunks more.
fn grow_at(records: &mut [Arena], state: State, i: usize, n: u64) -> Reply
    requires { (i < length records.old) × ((at records.old i).chunks + n ≤ 1024) }
    ensures { (result ≡ reply (Registered i) (calm state.count state.mark)) × (records.new ≡ set records.old i (grown_arena (at records.old i) n)) }
{
    let a = table::records::load(records, i);
    table::records::store(records, i, a.grow(n as usize));
    state::settled(Answer::Registered(i), state.count, state.mark)
}

// An adopt, on a table that rows 1 and 2 let pass: 4, 7, 6, growth, 12, 13, then the new arena.
#[tactic(auto, unfolding(layer::specs::Registering::adopt_of, layer::specs::Registering::bad_count, layer::specs::Registering::grows))]
pub fn adopt(
    records: &mut [Arena],
    stamps: &mut [u32],
    state: State,
    address: u64,
    size: u64,
) -> Reply
    requires { Ready records.old state × Stamped stamps.old }
    ensures { Leaves (adopt_of (size_of state) records.old stamps.old state.count state.mark address size) result records.new stamps.new }
{
    if size == 0 {
        return state::refuse(Refusal::Zero, state);
    }
    let chunk_size = state::chunk_size(state);
    if !chunk_size.divides(address) || !chunk_size.divides(size) {
        return state::refuse(Refusal::NotWhole, state);
    }
    let k = state.count;
    if crate::ranges::range_bad(records, k, chunk_size, address, size) {
        return state::refuse(Refusal::Range, state);
    }
    let chunks = chunk_size.chunks_in(size);
    if let Some(i) = table::find_growing(records, k, chunk_size, address, chunks) {
        return grow_at(records, state, i, chunks);
    }
    match crate::counts::new_chunks(state.count, chunks) {
        Ok(n) => crate::writing::register(records, stamps, state, Arena::adopted(address, n)),
        Err(why) => state::refuse(why, state),
    }
}
