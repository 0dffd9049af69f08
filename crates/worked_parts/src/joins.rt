// Two lent tables: blocks are adopted in each, they are joined, and both are asked what they have then.
ghost use Rattle.std.specs.Prelude.{◌≡◌, ◌≤◌};
ghost use Rattle.layer.specs.World.{world_of};
ghost use Rattle.layer.specs.Joining.{LeavesBoth};
ghost use Rattle.worked_parts.specs.Joins.{no_options, blocks_in, block_at, adopted, join_of, found_of, found_in, seen_of, seen_after};

use arena::Arena;
use layer::{JoinReply, Reply, Settings, State};

// A table's state, and how many blocks of one chunk are adopted in it, from so many chunks on.
#[derive(Clone, Copy)]
pub struct Side {
    pub state: State,
    pub blocks: usize,
    pub from: u32,
}

// What the joined table says of one of its arenas: its range, a sweep, and a claim in it.
#[derive(Clone, Copy)]
pub struct Found {
    pub range: Reply,
    pub swept: Reply,
    pub claimed: Reply,
}

// What a join answers, what the joined table says then, and whether the second owns an address.
#[derive(Clone, Copy)]
pub struct Seen {
    pub joined: JoinReply,
    pub first: Found,
    pub owned: Reply,
}

// With these settings blocks are adopted.
fn no_options() -> Settings
    ensures { result ≡ no_options }
{
    Settings {
        delay: 0,
        decommits: false,
        off: false,
        reserve: 0,
        page: 4096,
    }
}

// A table has no room for more.
fn blocks_of(side: Side) -> usize
    ensures { result ≡ blocks_in side }
{
    side.blocks.min(32)
}

// Between two blocks lies another chunk, so that no arena grows.
fn block_at(side: Side, i: usize) -> u64
    requires { i ≤ 32 }
    ensures { result ≡ block_at side i }
{
    (side.from as u64 + 2 * i as u64) * layer::CHUNK
}

// The blocks of a side are adopted, one by one.
fn adopt_blocks(records: &mut [Arena], stamps: &mut [u32], side: Side) -> State
    ensures { (result ≡ (adopted (world_of records.old stamps.old side.state) side (blocks_in side)).state)
        × (records.new ≡ (adopted (world_of records.old stamps.old side.state) side (blocks_in side)).records)
        × (stamps.new ≡ (adopted (world_of records.old stamps.old side.state) side (blocks_in side)).stamps) }
{
    let mut state = side.state;
    for i in 0..blocks_of(side) {
        let address = block_at(side, i);
        let r = registering::adopt_os_block(
            records,
            stamps,
            state,
            0,
            no_options(),
            address,
            layer::CHUNK,
        );
        state = r.state;
    }
    state
}

// The blocks of both sides are adopted, and the tables joined.
fn join_sides(
    records: &mut [Arena],
    stamps: &mut [u32],
    second_records: &mut [Arena],
    second_stamps: &mut [u32],
    side: Side,
    other: Side,
    ns: u64,
    settings: Settings,
) -> JoinReply
    ensures { LeavesBoth (join_of (world_of records.old stamps.old side.state) (world_of second_records.old second_stamps.old other.state) side other ns settings) result records.new stamps.new second_records.new second_stamps.new }
{
    let state = adopt_blocks(records, stamps, side);
    let second = adopt_blocks(second_records, second_stamps, other);
    joining::join_tables(
        records,
        stamps,
        second_records,
        second_stamps,
        state,
        second,
        ns,
        settings,
    )
}

// What the joined table says: the range of an arena, then an unforced sweep, then a claim of one chunk there.
fn look(
    records: &mut [Arena],
    stamps: &mut [u32],
    state: State,
    ns: u64,
    settings: Settings,
    id: i32,
) -> Found
    ensures { result ≡ found_in (world_of records.old stamps.old state) ns settings id }
{
    let range = queries::arena_area(records, stamps, state, ns, settings, id);
    let swept = sweeping::purge_due(records, stamps, state, ns, settings, false);
    let claimed = claiming::chunk_claim(records, stamps, swept.state, ns, settings, id);
    Found {
        range,
        swept,
        claimed,
    }
}

// The sides joined, then the joined table looked at, and the second asked for an address.
pub fn join_and_look(
    records: &mut [Arena],
    stamps: &mut [u32],
    second_records: &mut [Arena],
    second_stamps: &mut [u32],
    side: Side,
    other: Side,
    ns: u64,
    settings: Settings,
    id: i32,
    address: u64,
) -> Seen
    ensures { result ≡ seen_after (join_of (world_of records.old stamps.old side.state) (world_of second_records.old second_stamps.old other.state) side other ns settings) ns settings id address }
{
    let joined = join_sides(
        records,
        stamps,
        second_records,
        second_stamps,
        side,
        other,
        ns,
        settings,
    );
    let first = look(records, stamps, joined.first, ns, settings, id);
    let second = joined.second;
    let owned = queries::owns(second_records, second_stamps, second, ns, settings, address);
    Seen {
        joined,
        first,
        owned,
    }
}
