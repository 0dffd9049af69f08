// `chunk_release`. Behind rows 1 and 2 a core: rows 4, 8, 7 and 9 in this order, and the run is released in the one
// record that the address lies in.
#![tactic(auto)]

ghost use Rattle.std.specs.Prelude.{◌≡◌, cond, ◌+◌, ◌*◌, ◌<◌, ◌≤◌, length, set};
ghost use Rattle.clock.specs.Clock.{now_ms, delay_ms};
ghost use Rattle.arena.specs.Releasing.{release_run, stamp_run};
ghost use Rattle.layer.specs.declared.Answer.TheVariants.{Released};
ghost use Rattle.layer.specs.World.{size_of, world_of, Leaves, reply, calm};
ghost use Rattle.layer.specs.Table.{at};
ghost use Rattle.layer.specs.Releasing.{release_of};
ghost use Rattle.layer.specs.Step.{stays_pending, release, step, act};
ghost use Rattle.state.specs.Ready.{Ready, Stamped};

use arena::{Arena, Commitment};
use layer::{Answer, Reply, Settings, State};
use refusals::Refusal;

// ---- the release in one record

// Whether the run stays pending, for a later sweep to purge: not with a negative delay, which means never.
fn stays_pending(settings: Settings, pending: bool) -> bool
    ensures { result ≡ stays_pending settings «pending» }
{
    pending && !clock::never_purges(settings.delay)
}

// The run is released, and no question is open.
pub fn released(state: State) -> Reply
    ensures { result ≡ reply Released (calm state.count state.mark) }
{
    state::settled(Answer::Released, state.count, state.mark)
}

// The run of n from s on in arena i. Clock and delay are worked out only where it stays pending. Where nothing is told, to give
// the run back is all.
#[tactic(auto, unfolding(arena::specs::Releasing::release_run, arena::specs::Releasing::tell_run))]
fn release_in(
    records: &mut [Arena],
    stamps: &mut [u32],
    state: State,
    ns: u64,
    settings: Settings,
    i: usize,
    s: usize,
    n: usize,
    told: Commitment,
    pending: bool,
) -> Reply
    requires { (i < 32) × (length records.old ≡ 32) × (s + n ≤ 1024) × Stamped stamps.old }
    ensures { (result ≡ reply Released (calm state.count state.mark)) × (records.new ≡ set records.old i (release_run (at records.old i) s n told (stays_pending settings «pending») (now_ms ns) (delay_ms settings.delay))) × (stamps.new ≡ cond (stays_pending settings «pending») (stamp_run stamps.old (1024 * i + s) n (now_ms ns)) stamps.old) }
{
    let a = table::records::load(records, i);
    if stays_pending(settings, pending) {
        let ms = clock::now_ms(ns);
        let delay = clock::delay_ms(settings.delay);
        table::records::store(records, i, a.release_pending(s, n, told, ms, delay));
        arena::purge::stamp_run_of(stamps, i, s, n, ms);
        return released(state);
    }
    match told {
        Commitment::Untold => table::records::store(records, i, a.give_back_run(s, n)),
        Commitment::Committed | Commitment::Uncommitted => {
            table::records::store(records, i, a.release_run(s, n, told));
        }
    }
    released(state)
}

// ---- the core

// The n chunks at an address are given back, on a table that rows 1 and 2 let pass. n may be any number, so it is held against
// what is left of the arena.
pub fn release(
    records: &mut [Arena],
    stamps: &mut [u32],
    state: State,
    ns: u64,
    settings: Settings,
    address: u64,
    n: usize,
    told: Commitment,
    pending: bool,
) -> Reply
    requires { Ready records.old state × Stamped stamps.old }
    ensures { Leaves (release_of (size_of state) records.old stamps.old state.count state.mark address n told (stays_pending settings «pending») (now_ms ns) (delay_ms settings.delay)) result records.new stamps.new }
{
    if n == 0 {
        return state::refuse(Refusal::Zero, state);
    }
    let chunk_size = state::chunk_size(state);
    let Some(i) = table::find_arena(records, state.count, chunk_size, address) else {
        return state::refuse(Refusal::NotInside, state);
    };
    let a = &records[i];
    let offset = address - a.base;
    if !chunk_size.divides(offset) {
        return state::refuse(Refusal::NotWhole, state);
    }
    let s = chunk_size.chunks_in(offset) as usize;
    if a.chunks - s < n {
        return state::refuse(Refusal::PastEnd, state);
    }
    release_in(records, stamps, state, ns, settings, i, s, n, told, pending)
}

// ---- the entry point

// The n chunks at an address are given back, with what is told of their commitment; stamped, if pending.
pub fn chunk_release(
    records: &mut [Arena],
    stamps: &mut [u32],
    state: State,
    ns: u64,
    settings: Settings,
    address: u64,
    n: usize,
    told: Commitment,
    pending: bool,
) -> Reply
    ensures { Leaves (step (world_of records.old stamps.old state) ns settings (act (release address n told pending))) result records.new stamps.new }
{
    if let Err(why) = table::rows_one_and_two(records, stamps.len(), state, settings.page) {
        return state::refuse(why, state);
    }
    release(
        records, stamps, state, ns, settings, address, n, told, pending,
    )
}
