// Managing: the whole chunks inside memory that the host has already become an arena.
ghost use Rattle.std.specs.Prelude.{◌≡◌, false, ◌-◌};
ghost use Rattle.layer.specs.World.{size_of, Leaves};
ghost use Rattle.layer.specs.Registering.{first_whole, past_whole, no_whole_chunk, manage_of};
ghost use Rattle.state.specs.Ready.{Ready, Stamped};

use arena::chunk_size::ChunkSize;
use arena::{Arena, LAST};
use layer::{Reply, State};
use refusals::Refusal;

// Row 15: "start 0, a sum past 2^64 − 1, no whole chunk".
#[tactic(auto, unfolding(layer::specs::Registering::no_whole_chunk))]
fn no_whole_chunk(start: u64, size: u64, chunk_size: ChunkSize) -> bool
    ensures { result ≡ no_whole_chunk chunk_size.bytes start size }
{
    start == 0
        || LAST - start < size
        || LAST - start < chunk_size.bytes - 1
        || chunk_size.chunks_in(start + size) <= crate::counts::chunks_for(start, chunk_size)
}

// ---- the whole chunks inside the range

// The first address of the first.
#[tactic(auto, unfolding(layer::specs::Registering::no_whole_chunk))]
fn first_whole(start: u64, size: u64, chunk_size: ChunkSize) -> u64
    requires { no_whole_chunk chunk_size.bytes start size ≡ false }
    ensures { result ≡ first_whole chunk_size.bytes start }
{
    crate::counts::chunks_for(start, chunk_size) * chunk_size.bytes
}

// The bytes from there to past the last.
#[tactic(auto, unfolding(layer::specs::Registering::no_whole_chunk))]
fn bytes_from(base: u64, start: u64, size: u64, chunk_size: ChunkSize) -> u64
    requires { (no_whole_chunk chunk_size.bytes start size ≡ false) × (base ≡ first_whole chunk_size.bytes start) }
    ensures { result ≡ past_whole chunk_size.bytes start size - base }
{
    chunk_size.chunks_in(start + size) * chunk_size.bytes - base
}

// ---- the core

// A manage, on a table that rows 1 and 2 let pass: 15, 16, 6, 12, 13, then the new arena. Row 16: in the segment map
// already, or not reserved.
#[tactic(auto, unfolding(layer::specs::Registering::manage_of, layer::specs::Registering::bad_count))]
pub fn manage(
    records: &mut [Arena],
    stamps: &mut [u32],
    state: State,
    start: u64,
    size: u64,
    exclusive: bool,
    node: i32,
    mapped: bool,
    reserved: bool,
) -> Reply
    requires { Ready records.old state × Stamped stamps.old }
    ensures { Leaves (manage_of (size_of state) records.old stamps.old state.count state.mark start size exclusive node mapped reserved) result records.new stamps.new }
{
    let chunk_size = state::chunk_size(state);
    if no_whole_chunk(start, size, chunk_size) {
        return state::refuse(Refusal::NoWholeChunk, state);
    }
    if mapped || !reserved {
        return state::refuse(Refusal::HostRefused, state);
    }
    let base = first_whole(start, size, chunk_size);
    let bytes = bytes_from(base, start, size, chunk_size);
    if crate::ranges::range_bad(records, state.count, chunk_size, base, bytes) {
        return state::refuse(Refusal::Range, state);
    }
    let chunks = chunk_size.chunks_in(bytes);
    match crate::counts::new_chunks(state.count, chunks) {
        Ok(n) => crate::writing::register(
            records,
            stamps,
            state,
            Arena::managed(base, n, exclusive, node),
        ),
        Err(why) => state::refuse(why, state),
    }
}
