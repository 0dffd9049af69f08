// Row 6: "range starts at 0, ends past 2^64 − 1 or overlaps an arena".
ghost use Rattle.std.specs.Prelude.{◌≡◌, ◌||◌, ◌+◌, ◌^◌, eqb, leb};
ghost use Rattle.layer.specs.Table.{bad_range};
ghost use Rattle.state.specs.Ready.{SoundArenas};

use arena::chunk_size::ChunkSize;
use arena::{Arena, LAST};

// Whether the range starts at 0 or ends past the last address. The end is not computed, so nothing wraps.
fn has_bad_ends(base: u64, bytes: u64) -> bool
    ensures { result ≡ (eqb base 0 || leb (2 ^ 64) (base + bytes)) }
{
    base == 0 || LAST - base < bytes
}

// Whether the range of so many bytes from base on may not be registered beside k arenas.
#[tactic(auto, unfolding(layer::specs::Table::bad_range))]
pub fn range_bad(records: &[Arena], k: usize, chunk_size: ChunkSize, base: u64, bytes: u64) -> bool
    requires { SoundArenas chunk_size.bytes records.now k }
    ensures { result ≡ bad_range chunk_size.bytes records.now k base bytes }
{
    has_bad_ends(base, bytes) || table::overlaps_one(records, k, chunk_size, base, bytes)
}
