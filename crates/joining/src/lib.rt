// Joining: one table out of two. The second's arenas come behind the first's, with their stamps, and the second is
// left empty. Document 02, wish 1: "the first keeps its ids, the second's rise by the first's arena count".
#![tactic(auto)]

ghost use Rattle.std.specs.Prelude.{◌≡◌, false, ◌&&◌, ◌+◌, ◌*◌, ◌≤◌, ltb, length};
ghost use Rattle.arena.specs.Moving.{overwritten};
ghost use Rattle.std.specs.Prelude.{Ok, Err};
ghost use Rattle.layer.specs.World.{size_of, calm, world_of, empty};
ghost use Rattle.layer.specs.Table.{sound_lent};
ghost use Rattle.layer.specs.Answering.{is_idle};
ghost use Rattle.layer.specs.Joining.{tables_overlap, join_on, join, join_reply, LeavesBoth};
ghost use Rattle.state.specs.Ready.{Ready, Stamped, SoundArenas};

use arena::Arena;
use arena::chunk_size::ChunkSize;
use layer::{JoinReply, Question, Settings, State};
use refusals::Refusal;
use table::ranges::Range;

// "18 when more than 32 arenas result"
const MOST_ARENAS: usize = 32;

// ---- replies

// A refusal leaves both states.
fn refuse(why: Refusal, state: State, second: State) -> JoinReply
    ensures { result ≡ join_reply (Err why) state second }
{
    JoinReply {
        answer: Err(why),
        first: state,
        second,
    }
}

// The second's ids rise by the first's count; "the give-up mark stands only if it stood in both".
fn joined(state: State, second: State) -> JoinReply
    requires { state.count + second.count ≤ 32 }
    ensures { result ≡ join_reply (Ok state.count) (calm (state.count + second.count) (state.mark && second.mark)) (calm 0 false) }
{
    JoinReply {
        answer: Ok(state.count),
        first: State {
            count: state.count + second.count,
            mark: state.mark && second.mark,
            question: Question::Idle,
        },
        second: State {
            count: 0,
            mark: false,
            question: Question::Idle,
        },
    }
}

// ---- rows 1, 2, 17 and 18

// Row 1 on both sides: the records, so many stamps and the state of each, and chunks of the first's size.
fn both_sound(
    records: &[Arena],
    second_records: &[Arena],
    stamps: usize,
    second_stamps: usize,
    state: State,
    second: State,
    page: u64,
) -> bool
    ensures { result ≡ (sound_lent (size_of state) records.now stamps state page && sound_lent (size_of state) second_records.now second_stamps second page) }
{
    let chunk_size = state::chunk_size(state);
    table::row_one(records, stamps, state, page, chunk_size)
        && table::row_one(second_records, second_stamps, second, page, chunk_size)
}

// Whether no question is open on either side.
fn both_idle(state: State, second: State) -> bool
    ensures { result ≡ (is_idle state.question && is_idle second.question) }
{
    state::is_idle(state) && state::is_idle(second)
}

// Whether one of the first k arenas of the one table overlaps one of the first c of the other.
fn tables_overlap(
    records: &[Arena],
    second_records: &[Arena],
    k: usize,
    c: usize,
    chunk_size: ChunkSize,
) -> bool
    requires { SoundArenas chunk_size.bytes records.now k × SoundArenas chunk_size.bytes second_records.now c }
    ensures { result ≡ tables_overlap chunk_size.bytes records.now k second_records.now c }
{
    for a in &second_records[..c] {
        let range = Range::of(a, chunk_size.bytes);
        if table::overlaps_one(records, k, chunk_size, range.base, range.bytes) {
            return true;
        }
    }
    false
}

// ---- the tables

// The first c records of the second, written from the id k on.
#[tactic(auto, using(std::proofs::lemmas::Slice::overwrites), unfolding(arena::specs::Moving::overwritten))]
fn move_records(records: &mut [Arena], second_records: &[Arena], k: usize, c: usize)
    requires { (k + c ≤ 32) × (length records.old ≡ 32) × (length second_records.now ≡ 32) }
    ensures { records.new ≡ overwritten records.old k second_records.now c }
{
    records[k..k + c].copy_from_slice(&second_records[..c]);
}

// All records made blank.
fn empty_records(records: &mut [Arena])
    requires { length records.old ≡ 32 }
    ensures { records.new ≡ empty.records }
{
    records.fill(table::records::blank_arena());
}

// The second's arenas come behind the k of the first, with their stamps, and the second's table is made empty.
fn unite(
    records: &mut [Arena],
    stamps: &mut [u32],
    second_records: &mut [Arena],
    second_stamps: &mut [u32],
    k: usize,
    c: usize,
)
    requires { (k + c ≤ 32) × (length records.old ≡ 32) × Stamped stamps.old × (length second_records.old ≡ 32) × Stamped second_stamps.old }
    ensures { (records.new ≡ overwritten records.old k second_records.old c)
        × (stamps.new ≡ overwritten stamps.old (1024 * k) second_stamps.old (1024 * c))
        × (second_records.new ≡ empty.records)
        × (second_stamps.new ≡ empty.stamps) }
{
    move_records(records, second_records, k, c);
    arena::purge::move_stamps(stamps, second_stamps, k, c);
    empty_records(second_records);
    arena::purge::empty_stamps(second_stamps);
}

// A join, of tables that rows 1 and 2 let pass: 17, 18, then the tables.
pub fn join(
    records: &mut [Arena],
    stamps: &mut [u32],
    second_records: &mut [Arena],
    second_stamps: &mut [u32],
    state: State,
    second: State,
) -> JoinReply
    requires { Ready records.old state × Stamped stamps.old × Ready second_records.old second × Stamped second_stamps.old }
    ensures { LeavesBoth (join_on (size_of state) (world_of records.old stamps.old state) (world_of second_records.old second_stamps.old second)) result records.new stamps.new second_records.new second_stamps.new }
{
    let k = state.count;
    let c = second.count;
    let chunk_size = state::chunk_size(state);
    if tables_overlap(records, second_records, k, c, chunk_size) {
        return refuse(Refusal::TablesOverlap, state, second);
    }
    let count = k + c;
    if MOST_ARENAS < count {
        return refuse(Refusal::TooManyArenas, state, second);
    }
    unite(records, stamps, second_records, second_stamps, k, c);
    joined(state, second)
}

// One table out of two.
pub fn join_tables(
    records: &mut [Arena],
    stamps: &mut [u32],
    second_records: &mut [Arena],
    second_stamps: &mut [u32],
    state: State,
    second: State,
    ns: u64,
    settings: Settings,
) -> JoinReply
    ensures { LeavesBoth (join (world_of records.old stamps.old state) (world_of second_records.old second_stamps.old second) ns settings) result records.new stamps.new second_records.new second_stamps.new }
{
    if !both_sound(
        records,
        second_records,
        stamps.len(),
        second_stamps.len(),
        state,
        second,
        settings.page,
    ) {
        return refuse(Refusal::Broken, state, second);
    }
    if !both_idle(state, second) {
        return refuse(Refusal::QuestionOpen, state, second);
    }
    join(
        records,
        stamps,
        second_records,
        second_stamps,
        state,
        second,
    )
}
