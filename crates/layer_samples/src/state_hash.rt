// The hash of the layer's state, as a sample has it: the number of arenas, the give-up mark, the kind of the open
// question, and for each arena the words of its record and its 1,024 stamps.
ghost use Rattle.std.specs.Prelude.{◌≡◌, ◌%◌, ◌/◌};
ghost use Rattle.layer_samples.specs.StateHash.{owner, node_word, with_numbers, with_head, with_maps, with_arena, with_stamps, of_state, hash_of};

use arena::Arena;
use layer::State;
use surface::StateNumbers;

// The low and the high half.
fn low(x: u64) -> u32
    ensures { result ≡ x % 4294967296 }
{
    (x % 4294967296) as u32
}

fn high(x: u64) -> u32
    ensures { result ≡ x / 4294967296 }
{
    (x / 4294967296) as u32
}

// Exclusive 1, owned 2.
fn owner(exclusive: bool, owned: bool) -> u32
    ensures { result ≡ owner exclusive owned }
{
    if exclusive {
        return if owned { 3 } else { 1 };
    }
    if owned { 2 } else { 0 }
}

// The node in two's complement.
fn node_word(node: i32) -> u32
    ensures { result ≡ node_word node }
{
    if node < 0 {
        return u32::MAX - (!node) as u32;
    }
    node as u32
}

#[tactic(auto, unfolding(crate::specs::StateHash::with_numbers))]
fn with_numbers(h: u32, base: u64, chunks: u64, own: u32, node: u32, deadline: u32) -> u32
    ensures { result ≡ with_numbers h base chunks own node deadline }
{
    let range = samples::hash::with_word(samples::hash::with_word(h, low(base)), high(base));
    let size = samples::hash::with_word(samples::hash::with_word(range, low(chunks)), own);
    samples::hash::with_word(samples::hash::with_word(size, node), deadline)
}

#[tactic(auto, unfolding(crate::specs::StateHash::with_head))]
fn with_head(h: u32, a: Arena) -> u32
    ensures { result ≡ with_head h a }
{
    let own = owner(arena::is_on(a.exclusive), arena::is_on(a.owned));
    with_numbers(
        h,
        a.base,
        a.chunks as u64,
        own,
        node_word(a.node),
        a.deadline,
    )
}

#[tactic(auto, unfolding(crate::specs::StateHash::with_maps))]
fn with_maps(h: u32, a: Arena) -> u32
    ensures { result ≡ with_maps h a }
{
    let used = samples::hash::with_words(h, &a.used, 0, 32);
    let dirty = samples::hash::with_words(used, &a.dirty, 0, 32);
    let committed = samples::hash::with_words(dirty, &a.committed, 0, 32);
    samples::hash::with_words(committed, &a.pending, 0, 32)
}

// The hash with the words of one record more.
fn with_arena(h: u32, a: Arena) -> u32
    ensures { result ≡ with_arena h a }
{
    with_maps(with_head(h, a), a)
}

// The hash with the stamps of one arena more, if they are lent.
#[tactic(auto, unfolding(crate::specs::StateHash::with_stamps))]
fn with_stamps(stamps: &[u32], h: u32, id: usize) -> u32
    ensures { result ≡ with_stamps h stamps.now id }
{
    if id < stamps.len() / 1024 {
        return samples::hash::with_words(h, stamps, id * 1024, 1024);
    }
    h
}

#[tactic(auto, unfolding(crate::specs::StateHash::of_state))]
fn of_state(s: State) -> u32
    ensures { result ≡ of_state s }
{
    let n = StateNumbers::from(s);
    let count = samples::hash::with_word(samples::hash::START, low(n.count as u64));
    samples::hash::with_word(samples::hash::with_word(count, n.mark), n.question)
}

#[tactic(auto, unfolding(crate::specs::StateHash::with_arenas))]
pub fn hash(records: &[Arena], stamps: &[u32], s: State) -> u32
    ensures { result ≡ hash_of records.now stamps.now s }
{
    let mut h = of_state(s);
    for i in 0..s.count {
        let a = table::records::load_or(records, i);
        h = with_stamps(stamps, with_arena(h, a), i);
    }
    h
}
