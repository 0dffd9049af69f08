// The pool of free slices: 65,536 slices of 65,536 bytes over 2,048 lent words, a set bit being a free
// slice. It knows no arena and no question; nothing here touches the memory that it tracks.
#![tactic(auto)]

ghost use Rattle.std.specs.Prelude.{◌≡◌};
ghost use Rattle.slice_pool.specs.Pool.{alloc_run, free_range};

use refusals::Refusal;

// The bytes of a slice; there are as many slices as a slice has bytes.
const SLICE_SIZE: u64 = 65536;

const SLOTS: usize = 65536;

const WORDS: usize = 2048;

// Takes the lowest run of so many free slices: its address, or why there is none.
#[tactic(auto, unfolding(crate::specs::Pool::alloc_run))]
pub fn alloc_run(lent: &mut [u32], slices: u64) -> Result<u64, Refusal>
    ensures { (result ≡ (alloc_run lent.old slices).answer) × (lent.new ≡ (alloc_run lent.old slices).words) }
{
    if lent.len() != WORDS {
        return Err(Refusal::Broken);
    }
    if slices == 0 {
        return Err(Refusal::Zero);
    }
    let n = slices as usize;
    let s = bitmap::runs::lowest_run(lent, false, SLOTS, n).ok_or(Refusal::NoRun)?;
    bitmap::rows::clear_run(lent, s, n);
    Ok((s as u64) * SLICE_SIZE)
}

// Returns the slices of base .. base + size to the pool, free already or not.
#[tactic(auto, unfolding(crate::specs::Pool::free_range))]
pub fn free_range(lent: &mut [u32], base: u64, size: u64) -> Result<(), Refusal>
    ensures { (result ≡ (free_range lent.old base size).answer) × (lent.new ≡ (free_range lent.old base size).words) }
{
    if lent.len() != WORDS {
        return Err(Refusal::Broken);
    }
    if size == 0 {
        return Err(Refusal::Zero);
    }
    if base % SLICE_SIZE != 0 || size % SLICE_SIZE != 0 {
        return Err(Refusal::NotWhole);
    }
    if base < SLICE_SIZE {
        return Err(Refusal::NotInside);
    }
    let start = base / SLICE_SIZE;
    let n = size / SLICE_SIZE;
    if 65536 < start + n {
        return Err(Refusal::PastEnd);
    }
    bitmap::rows::set_run(lent, start as usize, n as usize);
    Ok(())
}
