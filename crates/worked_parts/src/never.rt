// One lent table: a chunk is released as pending, then the table is swept and the sweep is answered. Arena 0 is
// looked at after the release and after the sweep.
ghost use Rattle.std.specs.Prelude.{◌≡◌};
ghost use Rattle.layer.specs.World.{world_of};
ghost use Rattle.worked_parts.specs.Never.{released_in, left_with, left_after};

use arena::{Arena, Commitment};
use layer::{Kind, Reply, Settings, State};

// What the release answers, what stands in arena 0 and at a stamp then, what the sweep answers, what stands in
// arena 0 then, and what a yes to the sweep's question answers.
#[derive(Clone, Copy)]
pub struct Left {
    pub released: Reply,
    pub arena: Arena,
    pub stamp: u32,
    pub swept: Reply,
    pub kept: Arena,
    pub answered: Reply,
}

// All calls are made at one clock and with one set of settings.
pub fn release_and_sweep(
    records: &mut [Arena],
    stamps: &mut [u32],
    state: State,
    ns: u64,
    settings: Settings,
    address: u64,
    chunk: usize,
    told: Commitment,
    force: bool,
) -> Left
    ensures { result ≡ left_after (released_in (world_of records.old stamps.old state) ns settings address told) ns settings chunk force }
{
    let released = releasing::chunk_release(
        records, stamps, state, ns, settings, address, 1, told, true,
    );
    let arena = crate::lists::arena_at(records, 0);
    let stamp = crate::lists::place_of(stamps, chunk);
    let swept = sweeping::purge_due(records, stamps, released.state, ns, settings, force);
    let kept = crate::lists::arena_at(records, 0);
    let answered = answering::answer(
        records,
        stamps,
        swept.state,
        ns,
        settings,
        Kind::ForPurge,
        true,
        0,
    );
    Left {
        released,
        arena,
        stamp,
        swept,
        kept,
        answered,
    }
}
