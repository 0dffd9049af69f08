// Sweeps: `purge_due`, and the answer to the question that a sweep has put. "Arenas by id, chunks ascending", until
// a chunk is to be asked about or no arena is left.
#![tactic(auto)]

ghost use Rattle.std.specs.Prelude.{◌≡◌, ◌+◌, ◌-◌, ◌*◌, ◌^◌, ◌<◌, ◌≤◌, length, set};
ghost use Rattle.arena.specs.Stamps.{stamps_of};
ghost use Rattle.layer.specs.World.{size_of, world_of, Leaves};
ghost use Rattle.layer.specs.Table.{at};
ghost use Rattle.layer.specs.Sweeping.{purge_reply, swept_reply, sweep_from};
ghost use Rattle.layer.specs.Answering.{counted, answer_purge};
ghost use Rattle.layer.specs.Step.{sweep, sweep_of, sweeps_none, act_on, step, act};
ghost use Rattle.state.specs.Ready.{Ready, Stamped};
ghost use Rattle.sweeping.specs.Visit.{asked_at, visited, Sweepable, Borrowed};

use arena::{Arena, Timing};
use layer::{Answer, Ask, Question, Reply, Settings, State, Sweep};

// ---- replies

// The question about chunk j of arena i, whose address is read where it lies.
#[tactic(auto, unfolding(layer::specs::Sweeping::purge_reply))]
fn purge_question(records: &[Arena], state: State, i: usize, j: usize, w: Sweep) -> Reply
    requires { (i < length records.now) × ((at records.now i).base + j * size_of state < 2 ^ 64) }
    ensures { result ≡ purge_reply (size_of state) state.count state.mark w i (at records.now i) j }
{
    let chunk_size = state::chunk_size(state);
    let ask = Ask::AskPurge {
        address: records[i].address_of(j, chunk_size),
        bytes: chunk_size.bytes,
        decommit: w.decommit,
    };
    let question = Question::Purging {
        id: i,
        chunk: j,
        sweep: w,
    };
    state::asked(Answer::Asks(ask), state.count, state.mark, question)
}

// The end of a sweep: "The count is the number of yes answers."
#[tactic(auto, unfolding(layer::specs::Sweeping::swept_reply))]
fn swept(state: State, w: Sweep) -> Reply
    ensures { result ≡ swept_reply state.count state.mark w }
{
    state::settled(Answer::Swept(w.purged), state.count, state.mark)
}

// ---- at one arena

// By what the sweep judges a chunk.
fn timing_of(w: Sweep) -> Timing
    ensures { (result.force ≡ w.force) × (result.now ≡ w.now) × (result.delay ≡ w.delay) }
{
    Timing {
        force: w.force,
        now: w.now,
        delay: w.delay,
    }
}

// The sweep comes to arena i. The chunk that is to be asked about, if there is one, is borrowed; else the deadline is armed anew. It is
// looked for where the record lies, so that not all of the record is copied.
fn visit(records: &mut [Arena], stamps: &[u32], i: usize, w: Sweep) -> Option<usize>
    requires { (i < length records.old) × (i < 32) × ((at records.old i).chunks ≤ 1024) × Stamped stamps.now }
    ensures { (result ≡ asked_at w (at records.old i) (stamps_of stamps.now i))
        × (records.new ≡ set records.old i (visited w (at records.old i) (stamps_of stamps.now i))) }
{
    if !records[i].is_due(w.force, w.now) {
        return None;
    }
    let timing = timing_of(w);
    let own = arena::purge::stamps_of(stamps, i);
    let Some(j) = records[i].next_asked(own, timing, 0) else {
        let a = table::records::load(records, i);
        let due = arena::waits::next_deadline(0, &a.pending, a.chunks, own, timing);
        table::records::store(records, i, a.armed_anew(due));
        return None;
    };
    let a = table::records::load(records, i);
    table::records::store(records, i, a.first_borrowed(j));
    Some(j)
}

// ---- over the arenas

// The sweep over the arenas from an id on.
fn sweep_on(records: &mut [Arena], stamps: &[u32], state: State, from: usize, w: Sweep) -> Reply
    requires { Sweepable records.old state × Stamped stamps.now }
    ensures { Leaves (sweep_from (size_of state) stamps.now state.count state.mark w (state.count - from) from records.old) result records.new stamps.now }
{
    for i in from..state.count {
        if let Some(j) = visit(records, stamps, i, w) {
            return purge_question(records, state, i, j, w);
        }
    }
    swept(state, w)
}

// "A sweep keeps its first clock and settings until it ends."
fn sweep_of(force: bool, ns: u64, settings: Settings) -> Sweep
    ensures { result ≡ sweep_of force ns settings }
{
    Sweep {
        force,
        now: clock::now_ms(ns),
        delay: clock::delay_ms(settings.delay),
        decommit: settings.decommits,
        purged: 0,
    }
}

// With a negative delay, which means never, only a forced sweep goes over the arenas.
fn sweeps_none(settings: Settings, force: bool) -> bool
    ensures { result ≡ sweeps_none settings «force» }
{
    !force && clock::never_purges(settings.delay)
}

// A sweep of all arenas, or of none, on a table that rows 1 and 2 let pass.
pub fn sweep(
    records: &mut [Arena],
    stamps: &[u32],
    state: State,
    ns: u64,
    settings: Settings,
    force: bool,
) -> Reply
    requires { Ready records.old state × Stamped stamps.now }
    ensures { Leaves (act_on (size_of state) records.old stamps.now state.count state.mark state.question ns settings (sweep force)) result records.new stamps.now }
{
    let w = sweep_of(force, ns, settings);
    if sweeps_none(settings, force) {
        return swept(state, w);
    }
    sweep_on(records, stamps, state, 0, w)
}

// ---- the answer to a purge question

// The sweep with one yes more, if it is one.
fn counted(w: Sweep, granted: bool) -> Sweep
    requires { w.purged ≤ 32768 }
    ensures { result ≡ counted w granted }
{
    if granted {
        return Sweep {
            purged: w.purged + 1,
            ..w
        };
    }
    w
}

// Chunk `chunk` of arena `id`, which was borrowed for its question, comes back, and the sweep goes on behind it.
// What is behind it is not changed by its coming back, so the next chunk is looked for first.
pub fn answer_purge(
    records: &mut [Arena],
    stamps: &[u32],
    state: State,
    id: usize,
    chunk: usize,
    w: Sweep,
    granted: bool,
) -> Reply
    requires { Borrowed records.old stamps.now state id chunk w }
    ensures { Leaves (answer_purge (size_of state) records.old stamps.now state.count state.mark id chunk w granted) result records.new stamps.now }
{
    let v = counted(w, granted);
    let timing = timing_of(v);
    let own = arena::purge::stamps_of(stamps, id);
    let a = table::records::load(records, id);
    if let Some(j) = a.next_asked(own, timing, chunk + 1) {
        table::records::store(records, id, a.next_borrowed(chunk, granted, w.decommit, j));
        return purge_question(records, state, id, j, v);
    }
    let settled = bitmap::rows::row_cleared(a.pending, chunk, 1);
    let due = arena::waits::next_deadline(a.deadline, &settled, a.chunks, own, timing);
    table::records::store(
        records,
        id,
        a.last_returned(chunk, granted, w.decommit, due),
    );
    sweep_on(records, stamps, state, id + 1, v)
}

// ---- the entry point

// A sweep of all arenas, until it has a question or ends: rows 1 and 2, then the sweep.
pub fn purge_due(
    records: &mut [Arena],
    stamps: &mut [u32],
    state: State,
    ns: u64,
    settings: Settings,
    force: bool,
) -> Reply
    ensures { Leaves (step (world_of records.old stamps.old state) ns settings (act (sweep force))) result records.new stamps.new }
{
    if let Err(why) = table::rows_one_and_two(records, stamps.len(), state, settings.page) {
        return state::refuse(why, state);
    }
    sweep(records, stamps, state, ns, settings, force)
}
