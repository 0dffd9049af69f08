// Whether one record, any at all, is that of a sound arena: its range and its chunks; and no bit of a map past
// them.
ghost use Rattle.std.specs.Prelude.{◌≡◌, ◌<◌};
ghost use Rattle.arena.specs.Soundness.{sound_range, clear_past, clear_past_all, sound_arena};

use crate::chunk_size::ChunkSize;
use crate::{Arena, LAST, MOST_CHUNKS};

// Whether an arena can have this range. The last byte lies before the last address, so the end is an address too.
#[tactic(auto, unfolding(crate::specs::Soundness::sound_range))]
pub fn range_is_sound(base: u64, chunks: usize, chunk_size: ChunkSize) -> bool
    ensures { result ≡ sound_range chunk_size.bytes base chunks }
{
    base != 0
        && chunk_size.divides(base)
        && 1 <= chunks
        && chunks <= MOST_CHUNKS
        && (chunks as u64) * chunk_size.bytes - 1 < LAST - base
}

// Whether no bit of a map is set at or past the last chunk. The words from the last chunk's on are ored
// together, with no branch in the loop.
pub fn tail_is_clear(row: &[u32; 32], chunks: usize) -> bool
    requires { chunks < 1024 }
    ensures { result ≡ clear_past chunks row.now }
{
    let k = chunks / 32;
    let mut tail = row[k] >> ((chunks % 32) as u32);
    for w in &row[k + 1..] {
        tail |= *w;
    }
    tail == 0
}

impl Arena {
    // Whether no bit of the four maps is set at or past the last chunk. Not inlined: its loops would take the registers of row 1's
    // loop over the arenas.
    #[inline(never)]
    #[tactic(auto, unfolding(crate::specs::Soundness::clear_past_all))]
    pub fn tails_are_clear(&self) -> bool
        requires { self.now.chunks < 1024 }
        ensures { result ≡ clear_past_all self.now }
    {
        tail_is_clear(&self.used, self.chunks)
            && tail_is_clear(&self.dirty, self.chunks)
            && tail_is_clear(&self.committed, self.chunks)
            && tail_is_clear(&self.pending, self.chunks)
    }

    // Whether the record is sound by itself. With all the chunks that an arena can have, no map has a bit past the last.
    #[tactic(auto, unfolding(crate::specs::Soundness::sound_arena))]
    pub fn is_sound(&self, chunk_size: ChunkSize) -> bool
        ensures { result ≡ sound_arena chunk_size.bytes self.now }
    {
        range_is_sound(self.base, self.chunks, chunk_size)
            && (self.chunks == MOST_CHUNKS || self.tails_are_clear())
    }
}
