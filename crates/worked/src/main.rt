// Runs the worked cases of document 01 on the compiled code and prints a table: what is computed, our
// answer, what document 01 says; then a table of the cases of document 02's wishes 1, two tables joined, 2, a
// negative purge delay, and 3, a list of releases. Then a picture of a slice pool, from which the lowest run is taken.
// No contract can say what is printed, so all that prints stands here, and nothing here is public. What
// is printed comes from functions that are: the libraries', and those of `worked_parts`. The answer of
// each is fixed by an `ensures`.
//
// The cases are all of document 01's "Worked by hand" and, of "Turned down", the example of each row, on the
// lent table of arenas, and the slice pool's rows. A refusal is shown by its number there.
#![tactic(auto)]

ghost use Rattle.std.specs.Prelude.{◌≤◌, length};

use arena::{Arena, Commitment};
use calls::kinds::{ActCall, Call, ClaimCall, FreeCall, MemoryCall, QueryCall};
use layer::{Answer, Kind, Question, Reply, Settings, State, Sweep, Waiting};
use std::io;
use surface::reply::ReplyNumbers;
use worked_parts::joins::{Seen, Side};
use worked_parts::lists::Listed;
use worked_parts::never::Left;
use worked_parts::tally::Tally;
use worked_parts::{joins, lists, never, numbers, picture};

// The columns of a case's name and of a number.
const NAME_WIDTH: usize = 58;

const NUMBER_WIDTH: usize = 22;

fn say(rt: &impl Print, text: &[u8]) -> io::Result<()> {
    rt.write_all(text)
}

// So many blanks, at most 64.
fn blanks(rt: &impl Print, n: usize) -> io::Result<()> {
    let row = [b' '; 64];
    if n <= 64 {
        say(rt, &row[64 - n..])?;
    }
    Ok(())
}

// A text that is shorter than the column is filled up on the right.
fn left(rt: &impl Print, text: &[u8]) -> io::Result<()> {
    say(rt, text)?;
    if text.len() < NAME_WIDTH {
        blanks(rt, NAME_WIDTH - text.len())?;
    }
    Ok(())
}

// A text that is shorter than the column is filled up on the left.
fn right(rt: &impl Print, text: &[u8]) -> io::Result<()> {
    if text.len() < NUMBER_WIDTH {
        blanks(rt, NUMBER_WIDTH - text.len())?;
    }
    say(rt, text)
}

// The width is NUMBER_WIDTH.
fn right_number(rt: &impl Print, n: u64) -> io::Result<()> {
    print!(rt; "{n:>22}")
}

fn right_yes_or_no(rt: &impl Print, yes: bool) -> io::Result<()> {
    if yes {
        right(rt, b"yes")?;
    } else {
        right(rt, b"no")?;
    }
    Ok(())
}

fn heading(rt: &impl Print, paper: &[u8]) -> io::Result<()> {
    left(rt, b"case")?;
    right(rt, b"our answer")?;
    right(rt, paper)?;
    say(rt, b"\n")
}

fn total(rt: &impl Print, t: Tally) -> io::Result<()> {
    rt.print(t.cases)?;
    rt.print(" cases, ")?;
    rt.print(t.differ)?;
    rt.println(" differ")
}

// The end of a case's line, and the case counted.
fn verdict(rt: &impl Print, t: Tally, same: bool) -> io::Result<Tally> {
    if same {
        say(rt, b"  ok\n")?;
    } else {
        say(rt, b"  DIFFERS\n")?;
    }
    Ok(t.count(same))
}

// A case whose answer is a number.
fn number(rt: &impl Print, t: Tally, name: &[u8], got: u64, want: u64) -> io::Result<Tally> {
    left(rt, name)?;
    right_number(rt, got)?;
    right_number(rt, want)?;
    verdict(rt, t, got == want)
}

// A case whose answer is yes or no.
fn yes_or_no(rt: &impl Print, t: Tally, name: &[u8], got: bool, want: bool) -> io::Result<Tally> {
    left(rt, name)?;
    right_yes_or_no(rt, got)?;
    right_yes_or_no(rt, want)?;
    verdict(rt, t, got == want)
}

fn masks(rt: &impl Print, t: Tally) -> io::Result<Tally> {
    let t1 = number(
        rt,
        t,
        b"mask of 0 low ones",
        bitmap::words::low_ones(0) as u64,
        0,
    )?;
    number(
        rt,
        t1,
        b"mask of 32 low ones",
        bitmap::words::low_ones(32) as u64,
        4294967295,
    )
}

// Bit j of the words is chunk j, set where it is used.
fn lowest_runs(rt: &impl Print, t: Tally) -> io::Result<Tally> {
    let five: [u32; 1] = [5];
    let a = numbers::start_of(bitmap::runs::lowest_run(&five, true, 5, 2));
    let t1 = number(rt, t, b"5 chunks, 0 and 2 used: start of a run of 2", a, 3)?;
    let forty: [u32; 2] = [2147483647, 2];
    let b = numbers::start_of(bitmap::runs::lowest_run(&forty, true, 40, 2));
    number(
        rt,
        t1,
        b"40 chunks, 0 to 30 and 33 used: start of a run of 2",
        b,
        31,
    )
}

fn arming(rt: &impl Print, t: Tally) -> io::Result<Tally> {
    let t1 = number(rt, t, b"arm 50 over 100", clock::arm(100, 50) as u64, 50)?;
    let t2 = number(rt, t1, b"arm 100 over 50", clock::arm(50, 100) as u64, 50)?;
    let t3 = number(rt, t2, b"arm 0 over 0", clock::arm(0, 0) as u64, 1)?;
    let a = clock::arm(2147483648, 1) as u64;
    let t4 = number(rt, t3, b"arm 1 over 2147483648", a, 1)?;
    let b = clock::arm(2147483649, 1) as u64;
    number(rt, t4, b"arm 1 over 2147483649", b, 2147483649)
}

fn due_tests(rt: &impl Print, t: Tally) -> io::Result<Tally> {
    let a = clock::is_due(5, 4294967290);
    let t1 = yes_or_no(rt, t, b"is 5 due at 4294967290", a, false)?;
    let b = clock::is_due(2147483647, 1);
    let t2 = yes_or_no(
        rt,
        t1,
        b"is 2147483647 due at 1 (due - now 2147483646)",
        b,
        false,
    )?;
    let c = clock::is_due(2147483648, 1);
    yes_or_no(
        rt,
        t2,
        b"is 2147483648 due at 1 (due - now 2147483647)",
        c,
        true,
    )
}

fn readings(rt: &impl Print, t: Tally) -> io::Result<Tally> {
    let a = clock::now_ms(999999) as u64;
    let t1 = number(rt, t, b"999999 ns in ms", a, 1)?;
    let b = clock::now_ms(4294967296000000) as u64;
    let t2 = number(rt, t1, b"4294967296000000 ns in ms", b, 1)?;
    let c = clock::delay_ms(1073741824) as u64;
    number(rt, t2, b"a delay of 1073741824", c, 1073741823)
}

fn rounding(rt: &impl Print, t: Tally) -> io::Result<Tally> {
    let a = sizes::os::page_align_up(4096, 0);
    let t1 = number(rt, t, b"page 4096: 0 rounded up", a, 4096)?;
    let b = sizes::os::page_align_up(4096, u64::MAX);
    number(
        rt,
        t1,
        b"page 4096: 2^64 - 1 rounded up",
        b,
        18446744073709551615,
    )
}

fn alignment(rt: &impl Print, t: Tally) -> io::Result<Tally> {
    let a = sizes::bins::is_aligned_to(4096, 4096);
    let t1 = yes_or_no(rt, t, b"is 4096 aligned to 4096", a, true)?;
    let b = sizes::bins::is_aligned_to(4096, 0);
    let t2 = yes_or_no(rt, t1, b"is 4096 aligned to 0", b, false)?;
    let c = sizes::bins::is_aligned_to(4096, 3);
    yes_or_no(rt, t2, b"is 4096 aligned to 3", c, false)
}

fn run_taken(rt: &impl Print, t: Tally) -> io::Result<Tally> {
    let mut pool = [0u32; 2048];
    let a = numbers::refusal_in(slice_pool::free_range(&mut pool, 65536, 131072));
    let t1 = number(
        rt,
        t,
        b"slices: free 131072 bytes at 65536: refusal (0: none)",
        a,
        0,
    )?;
    let b = numbers::address_of(slice_pool::alloc_run(&mut pool, 2));
    number(rt, t1, b"slices: then a run of 2: address", b, 65536)
}

fn runs_refused(rt: &impl Print, t: Tally) -> io::Result<Tally> {
    let mut short = [0u32; 2047];
    let a = numbers::refusal_in(slice_pool::alloc_run(&mut short, 1));
    let t1 = number(rt, t, b"slices: a run over 2047 words: refusal", a, 1)?;
    let mut pool = [0u32; 2048];
    let b = numbers::refusal_in(slice_pool::alloc_run(&mut pool, 0));
    let t2 = number(rt, t1, b"slices: a run of 0: refusal", b, 4)?;
    let c = numbers::refusal_in(slice_pool::alloc_run(&mut pool, 1));
    let t3 = number(
        rt,
        t2,
        b"slices: a run of 1 in an empty pool: refusal",
        c,
        10,
    )?;
    let mut full = [4294967295u32; 2048];
    let d = numbers::refusal_in(slice_pool::alloc_run(&mut full, 65537));
    number(
        rt,
        t3,
        b"slices: a run of 65537 in a full pool: refusal",
        d,
        10,
    )
}

fn frees_refused(rt: &impl Print, t: Tally) -> io::Result<Tally> {
    let mut short = [0u32; 2047];
    let a = numbers::refusal_in(slice_pool::free_range(&mut short, 65536, 65536));
    let t1 = number(rt, t, b"slices: a free over 2047 words: refusal", a, 1)?;
    let mut pool = [0u32; 2048];
    let b = numbers::refusal_in(slice_pool::free_range(&mut pool, 65536, 0));
    let t2 = number(rt, t1, b"slices: a free of size 0: refusal", b, 4)?;
    let c = numbers::refusal_in(slice_pool::free_range(&mut pool, 1, 65536));
    let t3 = number(rt, t2, b"slices: a free at 1: refusal", c, 7)?;
    let d = numbers::refusal_in(slice_pool::free_range(&mut pool, 0, 65536));
    let t4 = number(rt, t3, b"slices: a free at 0: refusal", d, 8)?;
    let e = numbers::refusal_in(slice_pool::free_range(&mut pool, 4294967296, 65536));
    number(rt, t4, b"slices: a free at 2^32: refusal", e, 9)
}

// ---- the lent table of arenas: the example of "Turned down"

// The calls of a case, made one after the other. The last three are named; those before them adopt blocks.
#[derive(Clone, Copy)]
struct Case {
    calls: u32,
    earlier: Call,
    before: Call,
    last: Call,
}

// Arena 0: owned, not exclusive, 4 chunks, all free, uncommitted.
fn example() -> Arena {
    Arena::reserved(1073741824, 4, false, false)
}

// One arena stands, and no question is open. No call has answered yet.
fn idle() -> Reply {
    let state = State {
        count: 1,
        mark: false,
        question: Question::Idle,
    };
    Reply {
        answer: Answer::Released,
        state,
    }
}

// The call that so many are left with, itself counted.
fn call_at(c: Case, left: u32) -> Call {
    match left {
        1 => c.last,
        2 => c.before,
        3 => c.earlier,
        _ => block(left),
    }
}

// What the last call of a case answers. Past the example's one arena the table may hold anything.
fn answered(e: Settings, c: Case) -> Reply {
    let mut records = [example(); 32];
    let mut stamps = [0u32; 32768];
    let mut r = idle();
    for left in (1..=c.calls).rev() {
        let a = call_at(c, left);
        r = calls::call(&mut records, &mut stamps, r.state, 0, e, a);
    }
    r
}

// What a call answers that is lent a stamp too few.
fn answered_short(e: Settings, a: Call) -> Reply {
    let mut records = [example(); 32];
    let mut stamps = [0u32; 32767];
    calls::call(&mut records, &mut stamps, idle().state, 0, e, a)
}

// No reserve.
fn settings(off: bool) -> Settings {
    Settings {
        delay: 0,
        decommits: false,
        off,
        reserve: 0,
        page: 4096,
    }
}

fn case_of(calls: u32, earlier: Call, before: Call, last: Call) -> Case {
    Case {
        calls,
        earlier,
        before,
        last,
    }
}

fn once(a: Call) -> Case {
    case_of(1, a, a, a)
}

fn twice(a: Call, b: Call) -> Case {
    case_of(2, a, a, b)
}

fn thrice(a: Call, b: Call, c: Call) -> Case {
    case_of(3, a, b, c)
}

fn claim(id: i32, n: usize) -> Call {
    Call::Act(ActCall::Claim(ClaimCall::ChunkAllocN { id, n }))
}

fn release(address: u64, n: usize, pending: bool) -> Call {
    let told = Commitment::Untold;
    Call::Act(ActCall::Free(FreeCall::ChunkRelease {
        address,
        n,
        told,
        pending,
    }))
}

fn forced_sweep() -> Call {
    Call::Act(ActCall::Free(FreeCall::PurgeDue { force: true }))
}

fn adopt(address: u64, size: u64) -> Call {
    Call::Act(ActCall::Memory(MemoryCall::Adopt { address, size }))
}

// A chunk is adopted. Between two blocks lies another chunk, so that no arena grows.
fn block(k: u32) -> Call {
    adopt(68719476736 + k as u64 * 67108864, 33554432)
}

fn reserve(size: u64) -> Call {
    Call::Act(ActCall::Memory(MemoryCall::Reserve {
        size,
        commit: false,
        allow_large: false,
        exclusive: false,
    }))
}

// Memory that is not in the segment map.
fn manage(start: u64, size: u64, reserved: bool) -> Call {
    Call::Act(ActCall::Memory(MemoryCall::Manage {
        start,
        size,
        is_committed: false,
        is_large: false,
        is_zero: false,
        node: -1,
        exclusive: false,
        mapped: false,
        reserved,
    }))
}

fn area(id: i32) -> Call {
    Call::Query(QueryCall::ArenaArea { id })
}

fn answer(kind: Kind, yes: bool) -> Call {
    Call::Answer { kind, yes, base: 0 }
}

// The number of the refusal; 0 for what is granted, 255 for a question.
fn refusal(r: Reply) -> u64 {
    ReplyNumbers::from(r).number as u64
}

fn area_base(r: Reply) -> u64 {
    ReplyNumbers::from(r).address
}

fn area_chunks(r: Reply) -> u64 {
    ReplyNumbers::from(r).bytes / layer::CHUNK
}

// A case whose last call is refused.
fn refused(rt: &impl Print, t: Tally, name: &[u8], c: Case, want: u64) -> io::Result<Tally> {
    number(rt, t, name, refusal(answered(settings(false), c)), want)
}

fn arenas_registered(rt: &impl Print, t: Tally) -> io::Result<Tally> {
    let managed = answered(settings(false), twice(manage(1, 67108864, true), area(1)));
    let t1 = number(
        rt,
        t,
        b"arenas: manage 1, size 67108864: base",
        area_base(managed),
        33554432,
    )?;
    let t2 = number(
        rt,
        t1,
        b"arenas: manage 1, size 67108864: chunks",
        area_chunks(managed),
        1,
    )?;
    let adopted = answered(settings(false), twice(adopt(1207959552, 33554432), area(0)));
    number(
        rt,
        t2,
        b"arenas: adopt S at 1207959552: chunks of arena 0",
        area_chunks(adopted),
        5,
    )
}

// Rows 1 to 5 of the table of refusals.
fn lending_refused(rt: &impl Print, t: Tally) -> io::Result<Tally> {
    let short = refusal(answered_short(settings(false), claim(0, 1)));
    let t1 = number(
        rt,
        t,
        b"arenas: a claim with 32767 stamps: refusal",
        short,
        1,
    )?;
    let purging = thrice(release(1073741824, 1, true), forced_sweep(), claim(0, 1));
    let t2 = refused(
        rt,
        t1,
        b"arenas: a claim during a purge question: refusal",
        purging,
        2,
    )?;
    let unasked = once(answer(Kind::ForCommit, true));
    let t3 = refused(
        rt,
        t2,
        b"arenas: an answer to an idle layer: refusal",
        unasked,
        3,
    )?;
    let t4 = refused(
        rt,
        t3,
        b"arenas: id 0, run of 0: refusal",
        once(claim(0, 0)),
        4,
    )?;
    let off = refusal(answered(settings(true), once(claim(-1, 1))));
    number(rt, t4, b"arenas: id -1, option 27 on: refusal", off, 5)
}

// Rows 6 to 9.
fn addresses_refused(rt: &impl Print, t: Tally) -> io::Result<Tally> {
    let a = once(adopt(1073741824, 33554432));
    let t1 = refused(rt, t, b"arenas: adopt S at 1073741824: refusal", a, 6)?;
    let b = once(release(1073741825, 1, false));
    let t2 = refused(rt, t1, b"arenas: release 1 at 1073741825: refusal", b, 7)?;
    let c = once(release(1207959552, 1, false));
    let t3 = refused(rt, t2, b"arenas: release 1 at 1207959552: refusal", c, 8)?;
    let d = once(release(1073741824, 5, false));
    refused(rt, t3, b"arenas: release 5 at the base: refusal", d, 9)
}

// Rows 10 to 13. Beside the example's arena 31 blocks stand before the last.
fn runs_and_counts_refused(rt: &impl Print, t: Tally) -> io::Result<Tally> {
    let t1 = refused(
        rt,
        t,
        b"arenas: id 0, run of 5: refusal",
        once(claim(0, 5)),
        10,
    )?;
    let no = twice(claim(0, 1), answer(Kind::ForCommit, false));
    let t2 = refused(rt, t1, b"arenas: a claim at id 0, then no: refusal", no, 11)?;
    let large = once(adopt(68719476736, 34393292800));
    let t3 = refused(
        rt,
        t2,
        b"arenas: adopt 34393292800 at 68719476736: refusal",
        large,
        12,
    )?;
    let full = case_of(32, block(3), block(2), block(1));
    refused(rt, t3, b"arenas: a 33rd separate block: refusal", full, 13)
}

// Rows 14 to 16.
fn memory_refused(rt: &impl Print, t: Tally) -> io::Result<Tally> {
    let no = twice(reserve(33554432), answer(Kind::ForMemory, false));
    let t1 = refused(rt, t, b"arenas: reserve S, then no: refusal", no, 14)?;
    let ragged = once(manage(1, 33554432, true));
    let t2 = refused(rt, t1, b"arenas: manage 1, size S: refusal", ragged, 15)?;
    let unknown = once(manage(33554432, 67108864, false));
    refused(
        rt,
        t2,
        b"arenas: manage S, size 2S, not reserved: refusal",
        unknown,
        16,
    )
}

fn table(rt: &impl Print) -> io::Result<()> {
    heading(rt, b"document 01")?;
    let mut t = Tally::none_yet();
    t = masks(rt, t)?;
    t = lowest_runs(rt, t)?;
    t = arming(rt, t)?;
    t = due_tests(rt, t)?;
    t = readings(rt, t)?;
    t = rounding(rt, t)?;
    t = alignment(rt, t)?;
    t = run_taken(rt, t)?;
    t = runs_refused(rt, t)?;
    t = frees_refused(rt, t)?;
    t = arenas_registered(rt, t)?;
    t = lending_refused(rt, t)?;
    t = addresses_refused(rt, t)?;
    t = runs_and_counts_refused(rt, t)?;
    t = memory_refused(rt, t)?;
    total(rt, t)
}

// ---- document 02, wish 1: two tables joined

// A table as it is lent: 32 records alike, of which the state counts one or none, and 32,768 stamps alike.
#[derive(Clone, Copy)]
struct Lent {
    arena: Arena,
    stamp: u32,
    side: Side,
}

// What is seen of two tables joined: the joined table is asked for the arena at an id, swept and claimed from
// there, and the second is asked for an address.
fn joined(
    a: Arena,
    s: u32,
    side: Side,
    b: Arena,
    t: u32,
    other: Side,
    ns: u64,
    e: Settings,
    id: i32,
    address: u64,
) -> Seen {
    let mut records = [a; 32];
    let mut stamps = [s; 32768];
    let mut second_records = [b; 32];
    let mut second_stamps = [t; 32768];
    joins::join_and_look(
        &mut records,
        &mut stamps,
        &mut second_records,
        &mut second_stamps,
        side,
        other,
        ns,
        e,
        id,
        address,
    )
}

// At a clock in milliseconds, with a page size. The purge delay is 40 ms.
fn joined_at(first: Lent, second: Lent, id: i32, ms: u32, page: u64) -> Seen {
    let e = Settings {
        delay: 40,
        decommits: false,
        off: false,
        reserve: 0,
        page,
    };
    let a = first.arena;
    let b = second.arena;
    let ns = ms as u64 * 1000000;
    joined(
        a,
        first.stamp,
        first.side,
        b,
        second.stamp,
        second.side,
        ns,
        e,
        id,
        b.base,
    )
}

fn joined_now(first: Lent, second: Lent, id: i32) -> Seen {
    joined_at(first, second, id, 1, 4096)
}

fn side(count: usize, mark: bool, question: Question) -> Side {
    let state = State {
        count,
        mark,
        question,
    };
    Side {
        state,
        blocks: 0,
        from: 0,
    }
}

fn idle_side(count: usize, mark: bool) -> Side {
    side(count, mark, Question::Idle)
}

// Four chunks, exclusive, all free.
fn free_arena(base: u64) -> Arena {
    Arena::reserved(base, 4, false, true)
}

// Four chunks: 0 and 2 are held, 1 is pending; the deadline is at 20 ms.
fn held_arena(base: u64) -> Arena {
    let mut used = [0u32; 32];
    used[0] = 5;
    let mut dirty = [0u32; 32];
    dirty[0] = 7;
    let mut pending = [0u32; 32];
    pending[0] = 2;
    Arena {
        base,
        chunks: 4,
        exclusive: 1,
        owned: 1,
        node: -1,
        deadline: 20,
        used,
        dirty,
        committed: dirty,
        pending,
    }
}

fn table_of(arena: Arena, stamp: u32, side: Side) -> Lent {
    Lent { arena, stamp, side }
}

fn free_table(base: u64) -> Lent {
    table_of(free_arena(base), 0, idle_side(1, false))
}

// The pending chunk was released at 10 ms, so it is due at 50 ms.
fn held_table(base: u64) -> Lent {
    table_of(held_arena(base), 10, idle_side(1, false))
}

fn marked_table(base: u64, mark: bool) -> Lent {
    table_of(free_arena(base), 0, idle_side(1, mark))
}

// A purge or a memory question is open.
fn purging_table(base: u64, force: bool) -> Lent {
    let sweep = Sweep {
        force,
        now: 1,
        delay: 0,
        decommit: false,
        purged: 0,
    };
    let question = Question::Purging {
        id: 0,
        chunk: 0,
        sweep,
    };
    table_of(held_arena(base), 10, side(1, false, question))
}

fn asking_table(base: u64) -> Lent {
    let question = Question::Reserving {
        chunks: 3,
        bytes: 100663296,
        commit: false,
        exclusive: true,
        waiting: Waiting::Reserve,
    };
    table_of(free_arena(base), 0, side(1, false, question))
}

// The state counts another number of arenas than one: none, or too many.
fn counted_table(base: u64, count: usize) -> Lent {
    table_of(held_arena(base), 10, idle_side(count, false))
}

// An arena, and so many blocks from a chunk on, each an arena.
fn block_table(base: u64, blocks: usize, from: u32) -> Lent {
    let alone = idle_side(1, false);
    let state = alone.state;
    let side = Side {
        state,
        blocks,
        from,
    };
    table_of(free_arena(base), 0, side)
}

fn join_refusal(s: Seen) -> u64 {
    numbers::refusal_in(s.joined.answer)
}

fn join_rise(s: Seen) -> u64 {
    numbers::rise_of(s.joined.answer)
}

fn join_mark(s: Seen) -> bool {
    s.joined.first.mark
}

fn second_owns(s: Seen) -> bool {
    ReplyNumbers::from(s.owned).owns
}

// A join that is granted, by what the joined table has at the second's first new id.
fn granted(
    rt: &impl Print,
    t: Tally,
    name: &[u8],
    s: Seen,
    rise: u64,
    base: u64,
) -> io::Result<Tally> {
    let t1 = number(rt, t, name, join_refusal(s), 0)?;
    let t2 = number(
        rt,
        t1,
        b"   by how much the second's ids rise",
        join_rise(s),
        rise,
    )?;
    let found = s.first;
    let t3 = number(
        rt,
        t2,
        b"   base of the arena at the first id that rose (0: none)",
        area_base(found.range),
        base,
    )?;
    yes_or_no(
        rt,
        t3,
        b"   does the second own its range still",
        second_owns(s),
        false,
    )
}

// A join that is refused: the second owns its range as before.
fn turned_down(rt: &impl Print, t: Tally, name: &[u8], s: Seen, want: u64) -> io::Result<Tally> {
    let t1 = number(rt, t, name, join_refusal(s), want)?;
    yes_or_no(
        rt,
        t1,
        b"   does the second own its range still",
        second_owns(s),
        true,
    )
}

// Stamps, deadlines, used and dirty bits come along.
fn one_and_one(rt: &impl Print, t: Tally) -> io::Result<Tally> {
    let first = free_table(1073741824);
    let second = held_table(2147483648);
    let s = joined_at(first, second, 1, 49, 4096);
    let t1 = granted(
        rt,
        t,
        b"join: one arena and one apart: refusal (0: none)",
        s,
        1,
        2147483648,
    )?;
    let found = s.first;
    let swept = refusal(found.swept);
    let t2 = number(
        rt,
        t1,
        b"   a sweep before its chunk is due: refusal (255: asks)",
        swept,
        0,
    )?;
    let claimed = area_base(found.claimed);
    let t3 = number(
        rt,
        t2,
        b"   a claim there: the lowest free chunk",
        claimed,
        2181038080,
    )?;
    let fresh = ReplyNumbers::from(found.claimed).fresh;
    let t4 = yes_or_no(rt, t3, b"   is it fresh", fresh, false)?;
    let later = joined_at(first, second, 1, 50, 4096);
    let asks = later.first;
    let t5 = number(
        rt,
        t4,
        b"   a sweep when it is due: refusal (255: asks)",
        refusal(asks.swept),
        255,
    )?;
    let asked = area_base(asks.swept);
    number(rt, t5, b"   it asks about the chunk at", asked, 2181038080)
}

fn ids_by_table(rt: &impl Print, t: Tally) -> io::Result<Tally> {
    let a = joined_now(free_table(1073741824), free_table(1207959552), 1);
    let t1 = granted(
        rt,
        t,
        b"join: neighbouring ranges: refusal (0: none)",
        a,
        1,
        1207959552,
    )?;
    let b = joined_now(free_table(2147483648), free_table(1073741824), 1);
    granted(
        rt,
        t1,
        b"join: the second's base below: refusal (0: none)",
        b,
        1,
        1073741824,
    )
}

fn empty_sides(rt: &impl Print, t: Tally) -> io::Result<Tally> {
    let one = held_table(2147483648);
    let none = counted_table(1073741824, 0);
    let a = joined_now(none, one, 0);
    let t1 = granted(
        rt,
        t,
        b"join: an empty first: refusal (0: none)",
        a,
        0,
        2147483648,
    )?;
    let b = joined_now(one, none, 1);
    let t2 = granted(rt, t1, b"join: an empty second: refusal (0: none)", b, 1, 0)?;
    let c = joined_now(none, none, 0);
    granted(rt, t2, b"join: both empty: refusal (0: none)", c, 0, 0)
}

// Rows 17 and 18. Blocks from chunk 2,048 on are in the first, from 4,096 on in the second.
fn ranges_and_counts(rt: &impl Print, t: Tally) -> io::Result<Tally> {
    let one = free_table(1073741824);
    let shares = free_table(1174405120);
    let t1 = turned_down(
        rt,
        t,
        b"join: one chunk in both: refusal",
        joined_now(one, shares, 0),
        17,
    )?;
    let full = block_table(1073741824, 31, 2048);
    let t2 = turned_down(
        rt,
        t1,
        b"join: one chunk in both, 33 arenas: refusal",
        joined_now(full, shares, 0),
        17,
    )?;
    let apart = free_table(2147483648);
    let t3 = turned_down(
        rt,
        t2,
        b"join: 33 arenas apart: refusal",
        joined_now(full, apart, 0),
        18,
    )?;
    let half = block_table(1073741824, 15, 2048);
    let other = block_table(2147483648, 15, 4096);
    granted(
        rt,
        t3,
        b"join: 16 arenas and 16: refusal (0: none)",
        joined_now(half, other, 16),
        16,
        2147483648,
    )
}

// Rows 1 and 2.
fn rows_one_and_two(rt: &impl Print, t: Tally) -> io::Result<Tally> {
    let one = free_table(1073741824);
    let asks = asking_table(1073741824);
    let purges = purging_table(2147483648, true);
    let a = joined_now(asks, held_table(2147483648), 0);
    let t1 = turned_down(rt, t, b"join: a question open in the first: refusal", a, 2)?;
    let b = joined_now(one, purges, 0);
    let t2 = turned_down(
        rt,
        t1,
        b"join: a question open in the second: refusal",
        b,
        2,
    )?;
    let c = joined_now(asks, one, 0);
    let t3 = turned_down(
        rt,
        t2,
        b"join: a question, and one range in both: refusal",
        c,
        2,
    )?;
    let broken = joined_now(asks, counted_table(2147483648, 33), 0);
    let t4 = number(
        rt,
        t3,
        b"join: a question, and a second of 33 arenas: refusal",
        join_refusal(broken),
        1,
    )?;
    let page = joined_at(asks, purges, 0, 1, 1);
    number(
        rt,
        t4,
        b"join: questions, and a page of 1 byte: refusal",
        join_refusal(page),
        1,
    )
}

fn marks(rt: &impl Print, t: Tally) -> io::Result<Tally> {
    let yes = marked_table(1073741824, true);
    let no = marked_table(1073741824, false);
    let other = marked_table(2147483648, true);
    let plain = marked_table(2147483648, false);
    let a = join_mark(joined_now(no, plain, 1));
    let t1 = yes_or_no(rt, t, b"join: no give-up mark: is it set", a, false)?;
    let b = join_mark(joined_now(yes, plain, 1));
    let t2 = yes_or_no(rt, t1, b"join: the mark in the first: is it set", b, false)?;
    let c = join_mark(joined_now(no, other, 1));
    let t3 = yes_or_no(rt, t2, b"join: the mark in the second: is it set", c, false)?;
    let d = join_mark(joined_now(yes, other, 1));
    yes_or_no(rt, t3, b"join: the mark in both: is it set", d, true)
}

// ---- document 02, wish 2: a negative purge delay

// What is left where a chunk is released as pending, the table swept and the sweep answered.
fn freed(
    a: Arena,
    s: u32,
    state: State,
    ns: u64,
    e: Settings,
    address: u64,
    chunk: usize,
    told: Commitment,
    force: bool,
) -> Left {
    let mut records = [a; 32];
    let mut stamps = [s; 32768];
    never::release_and_sweep(
        &mut records,
        &mut stamps,
        state,
        ns,
        e,
        address,
        chunk,
        told,
        force,
    )
}

// At 50 ms, with a purge delay in milliseconds.
fn freed_at(
    lent: Lent,
    delay: i64,
    address: u64,
    chunk: u32,
    told: Commitment,
    force: bool,
) -> Left {
    let e = Settings {
        delay,
        decommits: false,
        off: false,
        reserve: 0,
        page: 4096,
    };
    let side = lent.side;
    let state = side.state;
    freed(
        lent.arena,
        lent.stamp,
        state,
        50000000,
        e,
        address,
        chunk as usize,
        told,
        force,
    )
}

// A chunk of the arena at 1073741824, nothing told of its commitment.
fn freed_chunk(lent: Lent, delay: i64, chunk: u32, force: bool) -> Left {
    let address = 1073741824 + chunk as u64 * 33554432;
    freed_at(lent, delay, address, chunk, Commitment::Untold, force)
}

// Four chunks: 0 and 2 are held. The bits say which are pending, released at 10 ms.
fn pending_table(bits: u32, deadline: u32) -> Lent {
    let a = held_arena(1073741824);
    let mut pending = [0u32; 32];
    pending[0] = bits;
    let arena = Arena {
        deadline,
        pending,
        ..a
    };
    table_of(arena, 10, idle_side(1, false))
}

// Chunk 1 was released at 10 ms, and the deadline is at 20 ms.
fn older_table() -> Lent {
    held_table(1073741824)
}

// The first 32 chunks of a map.
fn used_bits(a: Arena) -> u64 {
    let words = a.used;
    words[0] as u64
}

fn committed_bits(a: Arena) -> u64 {
    let words = a.committed;
    words[0] as u64
}

fn pending_bits(a: Arena) -> u64 {
    let words = a.pending;
    words[0] as u64
}

fn pending_then(rt: &impl Print, t: Tally, f: Left, want: u64) -> io::Result<Tally> {
    let a = f.arena;
    number(
        rt,
        t,
        b"   pending chunks then (bits)",
        pending_bits(a),
        want,
    )
}

fn deadline_then(rt: &impl Print, t: Tally, f: Left, want: u64) -> io::Result<Tally> {
    let a = f.arena;
    number(rt, t, b"   deadline", a.deadline as u64, want)
}

fn swept_unforced(rt: &impl Print, t: Tally, f: Left, want: u64) -> io::Result<Tally> {
    let got = refusal(f.swept);
    number(
        rt,
        t,
        b"   an unforced sweep: refusal (255: asks)",
        got,
        want,
    )
}

fn swept_forced(rt: &impl Print, t: Tally, f: Left, want: u64) -> io::Result<Tally> {
    let got = refusal(f.swept);
    number(rt, t, b"   a forced sweep: refusal (255: asks)", got, want)
}

fn asked_chunk(rt: &impl Print, t: Tally, f: Left, want: u64) -> io::Result<Tally> {
    let got = area_base(f.swept);
    number(rt, t, b"   it asks about the chunk at", got, want)
}

// A release that is granted, by the chunks that are pending then.
fn let_go(rt: &impl Print, t: Tally, name: &[u8], f: Left, pending: u64) -> io::Result<Tally> {
    let t1 = number(rt, t, name, refusal(f.released), 0)?;
    pending_then(rt, t1, f, pending)
}

// The used bit of chunk 0 is cleared with any delay; its stamp and the sweep go by the delay.
fn let_go_of_0(
    rt: &impl Print,
    t: Tally,
    name: &[u8],
    f: Left,
    pending: u64,
    stamp: u64,
    sweeps: u64,
    deadline: u64,
) -> io::Result<Tally> {
    let t1 = let_go(rt, t, name, f, pending)?;
    let a = f.arena;
    let t2 = number(rt, t1, b"   used chunks then (bits)", used_bits(a), 4)?;
    let t3 = number(rt, t2, b"   stamp of the chunk", f.stamp as u64, stamp)?;
    let t4 = deadline_then(rt, t3, f, 20)?;
    let t5 = swept_unforced(rt, t4, f, sweeps)?;
    let b = f.kept;
    number(rt, t5, b"   deadline after it", b.deadline as u64, deadline)
}

// An older chunk is pending, and the deadline is past: all stays as it is but the used bit. 0 is not negative: it
// marks, stamps and asks.
fn marks_nothing(rt: &impl Print, t: Tally) -> io::Result<Tally> {
    let f = freed_chunk(older_table(), -1, 0, false);
    let name = b"never: chunk 0 released with -1: refusal (0: none)";
    let t1 = let_go_of_0(rt, t, name, f, 2, 10, 0, 20)?;
    let t2 = number(rt, t1, b"   a yes then: refusal", refusal(f.answered), 3)?;
    let g = freed_chunk(older_table(), 0, 0, false);
    let same = b"never: the same with 0: refusal (0: none)";
    let t3 = let_go_of_0(rt, t2, same, g, 3, 50, 255, 0)?;
    asked_chunk(rt, t3, g, 1073741824)
}

// Not -1 alone.
fn below_minus_one(rt: &impl Print, t: Tally) -> io::Result<Tally> {
    let f = freed_chunk(older_table(), -2, 0, false);
    let name = b"never: the same with -2: refusal (0: none)";
    let t1 = let_go(rt, t, name, f, 2)?;
    let t2 = swept_unforced(rt, t1, f, 0)?;
    let g = freed_chunk(older_table(), i64::MIN, 0, false);
    let least = b"never: the same with -2^63: refusal (0: none)";
    let t3 = let_go(rt, t2, least, g, 2)?;
    swept_unforced(rt, t3, g, 0)
}

// No chunk is pending, and no deadline is set.
fn arms_nothing(rt: &impl Print, t: Tally) -> io::Result<Tally> {
    let f = freed_chunk(pending_table(0, 0), -1, 0, true);
    let name = b"never: -1, none pending before: refusal (0: none)";
    let t1 = let_go(rt, t, name, f, 0)?;
    let t2 = deadline_then(rt, t1, f, 0)?;
    let t3 = swept_forced(rt, t2, f, 0)?;
    let g = freed_chunk(pending_table(0, 0), 0, 0, false);
    let zero = b"never: 0, none pending before: refusal (0: none)";
    let t4 = let_go(rt, t3, zero, g, 1)?;
    let t5 = deadline_then(rt, t4, g, 50)?;
    swept_unforced(rt, t5, g, 255)
}

// Chunk 1 is pending still when it is released.
fn unmarks_nothing(rt: &impl Print, t: Tally) -> io::Result<Tally> {
    let f = freed_chunk(older_table(), -1, 1, false);
    let name = b"never: -1, pending chunk 1 released: refusal (0: none)";
    let t1 = let_go(rt, t, name, f, 2)?;
    let t2 = number(rt, t1, b"   stamp of the chunk", f.stamp as u64, 10)?;
    swept_unforced(rt, t2, f, 0)
}

// "a forced sweep works as before": it asks about the older chunks alone. A yes reads no delay.
fn forced_sweeps(rt: &impl Print, t: Tally) -> io::Result<Tally> {
    let f = freed_chunk(pending_table(10, 20), -1, 0, true);
    let name = b"never: -1, 1 and 3 pending: refusal (0: none)";
    let t1 = let_go(rt, t, name, f, 10)?;
    let t2 = swept_forced(rt, t1, f, 255)?;
    let t3 = asked_chunk(rt, t2, f, 1107296256)?;
    let next = area_base(f.answered);
    let t4 = number(
        rt,
        t3,
        b"   a yes: then about the chunk at",
        next,
        1174405120,
    )?;
    let g = freed_chunk(older_table(), i64::MIN, 0, true);
    let t5 = number(
        rt,
        t4,
        b"never: -2^63, 1 pending: a forced sweep (255: asks)",
        refusal(g.swept),
        255,
    )?;
    let ended = ReplyNumbers::from(g.answered).count;
    number(rt, t5, b"   a yes ends it: chunks purged", ended as u64, 1)
}

// What is told of commitment is obeyed.
fn told_is_obeyed(rt: &impl Print, t: Tally) -> io::Result<Tally> {
    let yes = Commitment::Committed;
    let f = freed_at(older_table(), -1, 1174405120, 3, yes, false);
    let a = f.arena;
    let t1 = number(
        rt,
        t,
        b"never: -1, chunk 3 told committed: committed (bits)",
        committed_bits(a),
        15,
    )?;
    let no = Commitment::Uncommitted;
    let g = freed_at(older_table(), -1, 1073741824, 0, no, false);
    let b = g.arena;
    let t2 = number(
        rt,
        t1,
        b"never: -1, chunk 0 told uncommitted: committed (bits)",
        committed_bits(b),
        6,
    )?;
    pending_then(rt, t2, g, 2)
}

// A release that is refused, and the sweep after it.
fn not_let_go(
    rt: &impl Print,
    t: Tally,
    name: &[u8],
    f: Left,
    want: u64,
    sweeps: u64,
) -> io::Result<Tally> {
    let t1 = number(rt, t, name, refusal(f.released), want)?;
    swept_unforced(rt, t1, f, sweeps)
}

// Rows 1 and 2 come first, then the release's own. A sweep that is under way goes on with a yes.
fn rows_with_minus_one(rt: &impl Print, t: Tally) -> io::Result<Tally> {
    let many = freed_chunk(counted_table(1073741824, 33), -1, 0, false);
    let t1 = not_let_go(rt, t, b"never: -1, 33 arenas: refusal", many, 1, 1)?;
    let asks = freed_chunk(purging_table(1073741824, false), -1, 0, false);
    let t2 = not_let_go(rt, t1, b"never: -1, a purge question: refusal", asks, 2, 2)?;
    let next = area_base(asks.answered);
    let t3 = number(
        rt,
        t2,
        b"   a yes: then about the chunk at",
        next,
        1107296256,
    )?;
    let told = Commitment::Untold;
    let out = freed_at(older_table(), -1, 1207959552, 4, told, false);
    let t4 = not_let_go(rt, t3, b"never: -1, past the arena: refusal", out, 8, 0)?;
    let part = freed_at(older_table(), -1, 1073741825, 0, told, false);
    not_let_go(rt, t4, b"never: -1, part of a chunk: refusal", part, 7, 0)
}

// ---- document 02, wish 3: a list of releases

// Lists as they are lent: so many of the addresses, of the counts and of the places for answers.
#[derive(Clone, Copy)]
struct Lists {
    addresses: [u64; 5],
    counts: [u32; 5],
    address_count: usize,
    count_count: usize,
    answer_count: usize,
}

fn five_at_most(n: usize) -> usize
    ensures { result ≤ 5 }
{
    if n < 5 { n } else { 5 }
}

// What is seen of lists, of which the first places are lent. A block beside the arena is adopted before. A place for an
// answer holds 6, which is the number of no item.
fn listed(
    a: Arena,
    s: u32,
    addresses: [u64; 5],
    counts: [u32; 5],
    address_count: usize,
    count_count: usize,
    answer_count: usize,
    state: State,
    ns: u64,
    e: Settings,
    pending: bool,
) -> Listed
    requires { (address_count ≤ 5) × (count_count ≤ 5) × (answer_count ≤ 5) }
{
    let mut records = [a; 32];
    let mut stamps = [s; 32768];
    let mut answers = [6u32; 5];
    lists::list_and_look(
        &mut records,
        &mut stamps,
        &addresses[..address_count],
        &counts[..count_count],
        &mut answers[..answer_count],
        state,
        ns,
        e,
        68719476736,
        pending,
        0,
    )
}

// At 50 ms, with a purge delay in milliseconds.
fn listed_at(lent: Lent, delay: i64, l: Lists, pending: bool) -> Listed {
    let e = Settings {
        delay,
        decommits: false,
        off: false,
        reserve: 0,
        page: 4096,
    };
    let side = lent.side;
    let state = side.state;
    let addresses = l.addresses;
    let counts = l.counts;
    listed(
        lent.arena,
        lent.stamp,
        addresses,
        counts,
        five_at_most(l.address_count),
        five_at_most(l.count_count),
        five_at_most(l.answer_count),
        state,
        50000000,
        e,
        pending,
    )
}

// So many of the items.
fn lists_of(addresses: [u64; 5], counts: [u32; 5], n: usize) -> Lists {
    Lists {
        addresses,
        counts,
        address_count: n,
        count_count: n,
        answer_count: n,
    }
}

// Chunks 0 and 2 of the arena at 1073741824, the chunk of the block, and chunk 0 again.
fn chunks(n: usize) -> Lists {
    let addresses = [1073741824, 1140850688, 68719476736, 1073741824, 1073741824];
    lists_of(addresses, [1; 5], n)
}

// Two items; of a list that is shorter the last place is not lent.
fn uneven(address_count: usize, count_count: usize, answer_count: usize) -> Lists {
    Lists {
        address_count,
        count_count,
        answer_count,
        ..chunks(2)
    }
}

fn two_numbers(first: u32, second: u32) -> [u32; 5] {
    [first, second, 0, 0, 0]
}

// A number of one digit; a dash past the end of the list.
fn digit(n: u32, there: bool) -> u8 {
    if !there {
        return b'-';
    }
    if n < 10 { b'0' + n as u8 } else { b'?' }
}

fn right_numbers(rt: &impl Print, n: [u32; 5], places: usize) -> io::Result<()> {
    let mut text = [b' '; 9];
    for (i, x) in n.iter().enumerate() {
        text[2 * i] = digit(*x, i < places);
    }
    right(rt, &text)
}

// The list of answers.
fn numbers_then(
    rt: &impl Print,
    t: Tally,
    l: Listed,
    places: usize,
    want: [u32; 5],
) -> io::Result<Tally> {
    left(rt, b"   the list of answers (0: granted, 6: as lent)")?;
    right_numbers(rt, l.numbers, places)?;
    right_numbers(rt, want, places)?;
    verdict(rt, t, l.numbers == want)
}

fn used_then(rt: &impl Print, t: Tally, l: Listed, want: u64) -> io::Result<Tally> {
    let a = l.first;
    number(rt, t, b"   used chunks then (bits)", used_bits(a), want)
}

// A list that is granted, by its answers and the used chunks then.
fn listed_all(
    rt: &impl Print,
    t: Tally,
    name: &[u8],
    l: Listed,
    places: usize,
    want: [u32; 5],
    used: u64,
) -> io::Result<Tally> {
    let t1 = number(rt, t, name, refusal(l.reply), 0)?;
    let t2 = numbers_then(rt, t1, l, places, want)?;
    used_then(rt, t2, l, used)
}

// A list that is refused as a whole: its answers and the used chunks are as they were.
fn listed_none(
    rt: &impl Print,
    t: Tally,
    name: &[u8],
    l: Listed,
    why: u64,
    places: usize,
    want: [u32; 5],
) -> io::Result<Tally> {
    let t1 = number(rt, t, name, refusal(l.reply), why)?;
    let t2 = numbers_then(rt, t1, l, places, want)?;
    used_then(rt, t2, l, 5)
}

// What a list leaves of what waits for a purge in the arena.
fn waits_then(
    rt: &impl Print,
    t: Tally,
    l: Listed,
    pending: u64,
    stamp: u64,
    deadline: u64,
) -> io::Result<Tally> {
    let a = l.first;
    let t1 = number(
        rt,
        t,
        b"   pending chunks then (bits)",
        pending_bits(a),
        pending,
    )?;
    let t2 = number(rt, t1, b"   stamp of chunk 0", l.stamp as u64, stamp)?;
    number(rt, t2, b"   deadline", a.deadline as u64, deadline)
}

// "it says nothing of commitment"
fn released_by_list(rt: &impl Print, t: Tally) -> io::Result<Tally> {
    let l = listed_at(older_table(), 40, chunks(2), false);
    let name = b"list: chunks 0 and 2: refusal (0: none)";
    let t1 = listed_all(rt, t, name, l, 2, two_numbers(0, 0), 0)?;
    let t2 = waits_then(rt, t1, l, 2, 10, 20)?;
    let a = l.first;
    number(
        rt,
        t2,
        b"   committed chunks then (bits)",
        committed_bits(a),
        7,
    )
}

// A refused item does not stop the list. Of an item with several faults the first row counts: 4, 8, 7, 9.
fn items_refused(rt: &impl Print, t: Tally) -> io::Result<Tally> {
    let past = lists_of([1073741824, 1207959552, 1140850688, 0, 0], [1; 5], 3);
    let a = listed_at(older_table(), 40, past, false);
    let one = b"list: chunk 0, past the arena, chunk 2: refusal";
    let t1 = listed_all(rt, t, one, a, 3, [0, 8, 0, 0, 0], 0)?;
    let each = lists_of(
        [1207959553, 1207959553, 1073741825, 1073741824, 1073741824],
        [0, 5, 5, 5, 1],
        5,
    );
    let b = listed_at(older_table(), 40, each, false);
    let rows = b"list: each row of a release, then chunk 0: refusal";
    listed_all(rt, t1, rows, b, 5, [4, 8, 7, 9, 0], 4)
}

fn items_meet(rt: &impl Print, t: Tally) -> io::Result<Tally> {
    let twice = lists_of([1073741824; 5], [1; 5], 2);
    let a = listed_at(older_table(), 40, twice, false);
    let same = b"list: chunk 0 twice: refusal (0: none)";
    let t1 = listed_all(rt, t, same, a, 2, two_numbers(0, 0), 4)?;
    let over = lists_of([1073741824, 1107296256, 0, 0, 0], [2; 5], 2);
    let b = listed_at(older_table(), 40, over, false);
    let shared = b"list: chunks 0 and 1, then 1 and 2: refusal (0: none)";
    listed_all(rt, t1, shared, b, 2, two_numbers(0, 0), 0)
}

// The deadline of the arena is the earlier one; the block had none.
fn two_arenas(rt: &impl Print, t: Tally) -> io::Result<Tally> {
    let l = listed_at(older_table(), 40, chunks(3), true);
    let name = b"list: chunks 0 and 2 and the block, pending: refusal";
    let t1 = listed_all(rt, t, name, l, 3, [0, 0, 0, 0, 0], 0)?;
    let t2 = waits_then(rt, t1, l, 7, 50, 20)?;
    let b = l.second;
    let t3 = number(
        rt,
        t2,
        b"   pending chunks of the block",
        pending_bits(b),
        1,
    )?;
    number(rt, t3, b"   deadline of the block", b.deadline as u64, 90)
}

// One flag for all; with a negative delay a pending release is one not pending.
fn pending_lists(rt: &impl Print, t: Tally) -> io::Result<Tally> {
    let none = pending_table(0, 0);
    let a = listed_at(none, 40, chunks(2), true);
    let name = b"list: pending, none before: refusal (0: none)";
    let t1 = listed_all(rt, t, name, a, 2, two_numbers(0, 0), 0)?;
    let t2 = waits_then(rt, t1, a, 5, 50, 90)?;
    let b = listed_at(none, -1, chunks(2), true);
    let never = b"list: the same with a delay of -1: refusal (0: none)";
    let t3 = listed_all(rt, t2, never, b, 2, two_numbers(0, 0), 0)?;
    waits_then(rt, t3, b, 0, 10, 0)
}

fn empty_list(rt: &impl Print, t: Tally) -> io::Result<Tally> {
    let l = listed_at(pending_table(0, 0), 40, chunks(0), true);
    let t1 = number(
        rt,
        t,
        b"list: empty, pending: refusal (0: none)",
        refusal(l.reply),
        0,
    )?;
    let t2 = used_then(rt, t1, l, 5)?;
    waits_then(rt, t2, l, 0, 10, 0)
}

// "19 when the three lengths differ", "checked after 2".
fn lengths_differ(rt: &impl Print, t: Tally) -> io::Result<Tally> {
    let lent = two_numbers(6, 6);
    let a = listed_at(older_table(), 40, uneven(2, 1, 2), true);
    let t1 = listed_none(rt, t, b"list: a count too few: refusal", a, 19, 2, lent)?;
    let b = listed_at(older_table(), 40, uneven(2, 2, 1), true);
    let one = two_numbers(6, 0);
    let t2 = listed_none(rt, t1, b"list: an answer too few: refusal", b, 19, 1, one)?;
    let c = listed_at(older_table(), 40, uneven(1, 2, 2), true);
    let t3 = listed_none(rt, t2, b"list: an address too few: refusal", c, 19, 2, lent)?;
    let asks = purging_table(1073741824, true);
    let d = listed_at(asks, 40, uneven(2, 1, 2), true);
    let t4 = listed_none(
        rt,
        t3,
        b"list: a question, a count too few: refusal",
        d,
        2,
        2,
        lent,
    )?;
    let many = counted_table(1073741824, 33);
    let f = listed_at(many, 40, uneven(2, 1, 2), true);
    listed_none(
        rt,
        t4,
        b"list: 33 arenas, a count too few: refusal",
        f,
        1,
        2,
        lent,
    )
}

fn wishes_table(rt: &impl Print) -> io::Result<()> {
    heading(rt, b"document 02")?;
    let mut t = Tally::none_yet();
    t = one_and_one(rt, t)?;
    t = ids_by_table(rt, t)?;
    t = empty_sides(rt, t)?;
    t = ranges_and_counts(rt, t)?;
    t = rows_one_and_two(rt, t)?;
    t = marks(rt, t)?;
    t = marks_nothing(rt, t)?;
    t = below_minus_one(rt, t)?;
    t = arms_nothing(rt, t)?;
    t = unmarks_nothing(rt, t)?;
    t = forced_sweeps(rt, t)?;
    t = told_is_obeyed(rt, t)?;
    t = rows_with_minus_one(rt, t)?;
    t = released_by_list(rt, t)?;
    t = items_refused(rt, t)?;
    t = items_meet(rt, t)?;
    t = two_arenas(rt, t)?;
    t = pending_lists(rt, t)?;
    t = empty_list(rt, t)?;
    t = lengths_differ(rt, t)?;
    total(rt, t)
}

fn row(rt: &impl Print, pool: &[u32]) -> io::Result<()>
    requires { 4 ≤ length pool.now }
{
    let text = picture::draw(pool);
    say(rt, &text)?;
    say(rt, b"\n")
}

// Takes a run of so many slices, and says where.
fn take(rt: &impl Print, pool: &mut [u32], slices: u64) -> io::Result<()> {
    rt.print("a run of ")?;
    rt.print(slices)?;
    let at = numbers::address_of(slice_pool::alloc_run(pool, slices));
    rt.print(": slice ")?;
    rt.print(at / 65536)?;
    rt.println("")
}

// A pool at work: runs taken, one freed, and a shorter one taken from where it was.
fn show(rt: &impl Print) -> io::Result<()> {
    let mut pool = [0u32; 2048];
    say(rt, b"96 slices free, from slice 1 on\n")?;
    let _ = slice_pool::free_range(&mut pool, 65536, 6291456);
    row(rt, &pool)?;
    take(rt, &mut pool, 3)?;
    row(rt, &pool)?;
    take(rt, &mut pool, 5)?;
    row(rt, &pool)?;
    take(rt, &mut pool, 40)?;
    row(rt, &pool)?;
    say(rt, b"the run of 5 freed\n")?;
    let _ = slice_pool::free_range(&mut pool, 262144, 327680);
    row(rt, &pool)?;
    take(rt, &mut pool, 4)?;
    row(rt, &pool)
}

fn main(rt: HostRuntime) -> io::Result<()> {
    table(&rt)?;
    wishes_table(&rt)?;
    show(&rt)
}
