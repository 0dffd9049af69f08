// Bytes in whole chunks, and how many chunks and arenas there may be.
ghost use Rattle.std.specs.Prelude.{◌≡◌, leb};
ghost use Rattle.layer.specs.Registering.{chunks_for, bad_count};
ghost use Rattle.registering.specs.New.{new_chunks};

use arena::MOST_CHUNKS;
use arena::chunk_size::ChunkSize;
use refusals::Refusal;

// The most arenas that a table has.
const MOST_ARENAS: usize = 32;

// So many bytes in whole chunks, rounded up.
#[tactic(auto, unfolding(layer::specs::Registering::chunks_for))]
pub fn chunks_for(size: u64, chunk_size: ChunkSize) -> u64
    ensures { result ≡ chunks_for chunk_size.bytes size }
{
    let whole = chunk_size.chunks_in(size);
    if chunk_size.divides(size) {
        return whole;
    }
    whole + 1
}

// Row 12: "chunks 0 or above 1,024".
#[tactic(auto, unfolding(layer::specs::Registering::bad_count))]
pub fn has_bad_count(chunks: u64) -> bool
    ensures { result ≡ bad_count chunks }
{
    chunks == 0 || (MOST_CHUNKS as u64) < chunks
}

// Row 13: "32 arenas stand".
pub fn is_full(k: usize) -> bool
    ensures { result ≡ leb 32 k }
{
    MOST_ARENAS <= k
}

// Rows 12 and 13 of a new arena beside k that stand: its chunks, as a record has them.
pub fn new_chunks(k: usize, chunks: u64) -> Result<usize, Refusal>
    ensures { result ≡ new_chunks k chunks }
{
    if has_bad_count(chunks) {
        return Err(Refusal::ChunkCount);
    }
    if is_full(k) {
        return Err(Refusal::TableFull);
    }
    Ok(chunks as usize)
}
