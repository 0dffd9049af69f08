// The lent table of records: the searches over it, and rows 1 and 2. What is decided of one record is decided where it lies.
#![tactic(auto)]

pub mod open_question;
pub mod ranges;
pub mod records;
pub mod spans;

ghost use Rattle.std.specs.Prelude.{◌≡◌, not, ◌&&◌, ℕ, ◌+◌, ◌<◌, ◌≤◌, eqb, leb, length};
ghost use Rattle.options.specs.Options.{page_size_sound};
ghost use Rattle.bitmap.specs.Bits.{bit_at};
ghost use Rattle.bitmap.specs.Lowest.{all};
ghost use Rattle.arena.specs.Soundness.{sound_arena};
ghost use Rattle.layer.specs.World.{size_of};
ghost use Rattle.layer.specs.Answering.{is_idle};
ghost use Rattle.layer.specs.Table.{at, overlaps, find_arena, apart, asked_id, sound_question, sound_lent};
ghost use Rattle.layer.specs.Registering.{growing};
ghost use Rattle.state.specs.Ready.{SoundArenas};
ghost use Rattle.table.specs.Spans.{CoversAll};
ghost use Rattle.table.specs.FirstRows.{first_rows};
ghost use Rattle.table.specs.Search.{TestsArenas, FirstToPass};

use crate::open_question::AskedRun;
use crate::ranges::Range;
use crate::spans::Span;
use arena::Arena;
use arena::chunk_size::ChunkSize;
use layer::{Question, State};
use refusals::Refusal;

// How many records and stamps a table has, and so the most arenas.
const RECORDS: usize = 32;

const STAMPS: usize = 32768;

// ---- what is looked for

// The first of k arenas that passes a test.
fn first_arena<F: Fn(&Arena) -> bool>(records: &[Arena], k: usize, test: F) -> Option<usize>
    requires { (k ≤ length records.now) × TestsArenas F.Fn test records.now k }
    ensures { FirstToPass F.Fn test records.now k result }
{
    records[..k].iter().position(test)
}

// The arena that an address lies in.
pub fn find_arena(records: &[Arena], k: usize, chunk_size: ChunkSize, address: u64) -> Option<usize>
    requires { SoundArenas chunk_size.bytes records.now k }
    ensures { result ≡ find_arena chunk_size.bytes records.now k address }
{
    first_arena(
        records,
        k,
        |a| Range::of(a, chunk_size.bytes).holds(address),
    )
}

// Whether the range of so many bytes from base on overlaps an arena.
pub fn overlaps_one(
    records: &[Arena],
    k: usize,
    chunk_size: ChunkSize,
    base: u64,
    bytes: u64,
) -> bool
    requires { SoundArenas chunk_size.bytes records.now k }
    ensures { result ≡ overlaps chunk_size.bytes records.now k base bytes }
{
    first_arena(
        records,
        k,
        |a| Range::of(a, chunk_size.bytes).meets(base, bytes),
    )
    .is_some()
}

// The arena that an adopted block of n chunks at an address continues.
pub fn find_growing(
    records: &[Arena],
    k: usize,
    chunk_size: ChunkSize,
    address: u64,
    n: u64,
) -> Option<usize>
    requires { SoundArenas chunk_size.bytes records.now k }
    ensures { result ≡ growing chunk_size.bytes records.now k address n }
{
    first_arena(
        records,
        k,
        |a| crate::ranges::grows_at(a, chunk_size.bytes, address, n),
    )
}

// ---- row 1

// Whether a range meets none of the first j arenas. They lie in the span, so a range outside it meets none, and they are not
// looked at.
fn meets_none(records: &[Arena], j: usize, chunk_size: ChunkSize, span: Span, range: Range) -> bool
    requires { SoundArenas chunk_size.bytes records.now j × CoversAll chunk_size.bytes span records.now j }
    ensures { result ≡ not (overlaps chunk_size.bytes records.now j range.base range.bytes) }
{
    span.leaves_out(range) || !overlaps_one(records, j, chunk_size, range.base, range.bytes)
}

// Whether each of the first k records is sound by itself, and no two of the arenas share an address. Each is looked
// at once where they stand in ascending or in descending order.
fn arenas_sound(records: &[Arena], k: usize, chunk_size: ChunkSize) -> bool
    requires { k ≤ length records.now }
    ensures { result ≡ (all (λ i. sound_arena chunk_size.bytes (at records.now i)) 0 k && apart chunk_size.bytes records.now k) }
{
    let mut span = Span::none();
    for (i, a) in records[..k].iter().enumerate() {
        if !a.is_sound(chunk_size) {
            return false;
        }
        let range = Range::of(a, chunk_size.bytes);
        if !meets_none(records, i, chunk_size, span, range) {
            return false;
        }
        span = span.with(range);
    }
    true
}

// Whether a run lies in an arena and each of its chunks is used.
fn is_in_use(a: &Arena, run: AskedRun) -> bool
    requires { a.now.chunks ≤ 1024 }
    ensures { result ≡ (leb (run.start + run.n) a.now.chunks && all (bit_at a.now.used) run.start run.n) }
{
    run.n <= a.chunks && run.start <= a.chunks - run.n && a.run_used(run.start, run.n)
}

// Whether the open question is one that can be open: broken is "an open commit or purge question about an arena not
// registered, chunks past its end, or a chunk whose used bit is clear".
fn question_sound(records: &[Arena], count: usize, question: Question) -> bool
    requires { (count ≤ 32) × (count ≤ length records.now) × ((i : ℕ) → i < count → (at records.now i).chunks ≤ 1024) }
    ensures { result ≡ sound_question (at records.now (asked_id question)) count question }
{
    let Some(run) = crate::open_question::asked_run(question) else {
        return true;
    };
    if run.id >= count {
        return false;
    }
    is_in_use(&records[run.id], run) && crate::open_question::count_is_sound(question, run)
}

// Whether the lengths, the page size and the count are sound.
pub fn lent_sound(len: usize, stamps: usize, page: u64, count: usize) -> bool
    ensures { result ≡ (eqb len 32 && (eqb stamps 32768 && (page_size_sound page && leb count 32))) }
{
    len == RECORDS && stamps == STAMPS && options::page_size_sound(page) && count <= RECORDS
}

// What row 1 lets pass, of so many stamps.
pub fn row_one(
    records: &[Arena],
    stamps: usize,
    state: State,
    page: u64,
    chunk_size: ChunkSize,
) -> bool
    ensures { result ≡ sound_lent chunk_size.bytes records.now stamps state page }
{
    if !lent_sound(records.len(), stamps, page, state.count) {
        return false;
    }
    arenas_sound(records, state.count, chunk_size)
        && question_sound(records, state.count, state.question)
}

// ---- rows 1 and 2

// What both rows let pass, of so many stamps; or which row does not.
pub fn rows_one_and_two(
    records: &[Arena],
    stamps: usize,
    state: State,
    page: u64,
) -> Result<(), Refusal>
    ensures { result ≡ first_rows (sound_lent (size_of state) records.now stamps state page) (is_idle state.question) }
{
    if !row_one(records, stamps, state, page, state::chunk_size(state)) {
        return Err(Refusal::Broken);
    }
    if !state::is_idle(state) {
        return Err(Refusal::QuestionOpen);
    }
    Ok(())
}
