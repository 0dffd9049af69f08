// One lent table: a block is adopted beside its arenas, so that a list may reach two, then runs are released by lists.
// Both arenas, a stamp and the list of answers are looked at then.
ghost use Rattle.std.specs.Prelude.{◌≡◌, get_or};
ghost use Rattle.layer.specs.World.{world_of};
ghost use Rattle.layer.specs.Table.{at};
ghost use Rattle.layer.specs.Listing.{items};
ghost use Rattle.worked_parts.specs.Lists.{list_in, numbers_in, listed_after};

use arena::Arena;
use layer::{Reply, Settings, State};

// What the list answers as a whole, and what stands in arenas 0 and 1, at a stamp and in the list of answers then.
#[derive(Clone, Copy)]
pub struct Listed {
    pub reply: Reply,
    pub first: Arena,
    pub second: Arena,
    pub stamp: u32,
    pub numbers: [u32; 5],
}

// The arena at an id; a blank one past the end.
pub fn arena_at(records: &[Arena], id: usize) -> Arena
    ensures { result ≡ at records.now id }
{
    table::records::load_or(records, id)
}

// A place of a list; 0 past the end.
pub fn place_of(list: &[u32], i: usize) -> u32
    ensures { result ≡ get_or list.now i 0 }
{
    if i < list.len() { list[i] } else { 0 }
}

// The first places of a list of answers.
fn numbers_in(answers: &[u32]) -> [u32; 5]
    ensures { result ≡ numbers_in answers.now }
{
    [
        place_of(answers, 0),
        place_of(answers, 1),
        place_of(answers, 2),
        place_of(answers, 3),
        place_of(answers, 4),
    ]
}

// All calls are made at one clock and with one set of settings.
pub fn list_and_look(
    records: &mut [Arena],
    stamps: &mut [u32],
    addresses: &[u64],
    counts: &[u32],
    answers: &mut [u32],
    state: State,
    ns: u64,
    settings: Settings,
    block: u64,
    pending: bool,
    chunk: usize,
) -> Listed
    ensures { result ≡ listed_after (list_in (world_of records.old stamps.old state) ns settings block (items addresses.now counts.now answers.old pending)) chunk }
{
    let adopted = registering::adopt_os_block(
        records,
        stamps,
        state,
        ns,
        settings,
        block,
        layer::CHUNK,
    );
    let reply = release_lists::chunk_release_list(
        records,
        stamps,
        addresses,
        counts,
        answers,
        adopted.state,
        ns,
        settings,
        pending,
    );
    Listed {
        reply,
        first: arena_at(records, 0),
        second: arena_at(records, 1),
        stamp: place_of(stamps, chunk),
        numbers: numbers_in(answers),
    }
}
