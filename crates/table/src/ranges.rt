// An arena's range, where it is sound: how it lies to an address or to another range. The end of a sound range fits 64 bits,
// so it is computed.
ghost use Rattle.std.specs.Prelude.{◌≡◌, true, ◌&&◌, ◌+◌, ◌^◌, ◌<◌, leb, ltb};
ghost use Rattle.arena.specs.Place.{bytes_of};
ghost use Rattle.arena.specs.Soundness.{sound_range};
ghost use Rattle.layer.specs.Registering.{grows};

use arena::{Arena, MOST_CHUNKS};

#[derive(Clone, Copy)]
pub struct Range {
    pub base: u64,
    pub bytes: u64,
    pub ghost ends: { base + bytes < 2 ^ 64 },
}

impl Range {
    // The range of an arena.
    #[tactic(auto, unfolding(arena::specs::Soundness::sound_range, arena::specs::Place::bytes_of))]
    pub fn of(a: &Arena, chunk_size: u64) -> Range
        requires { sound_range chunk_size a.now.base a.now.chunks ≡ true }
        ensures { (result.base ≡ a.now.base) × (result.bytes ≡ bytes_of chunk_size a.now) }
    {
        Range {
            base: a.base,
            bytes: (a.chunks as u64) * chunk_size,
        }
    }

    // The first address past it.
    pub fn end(self) -> u64
        ensures { result ≡ self.base + self.bytes }
    {
        self.base + self.bytes
    }

    // Whether an address lies in it.
    pub fn holds(self, address: u64) -> bool
        ensures { result ≡ (leb self.base address && ltb address (self.base + self.bytes)) }
    {
        self.base <= address && address < self.end()
    }

    // Whether it shares an address with the range of so many bytes from base on. The end of that range may not
    // fit, so it is not computed.
    pub fn meets(self, base: u64, bytes: u64) -> bool
        ensures { result ≡ (ltb 0 bytes && (ltb base (self.base + self.bytes) && ltb self.base (base + bytes))) }
    {
        if self.end() <= base {
            return false;
        }
        if self.base < base {
            return 0 < bytes;
        }
        self.base - base < bytes
    }
}

// Whether a block of n chunks at an address continues the arena: "the owned, non-exclusive arena that ends at the
// block [..] if at most 1,024 result".
#[tactic(auto, unfolding(layer::specs::Registering::grows, arena::specs::Soundness::sound_range, arena::specs::Place::end_of, arena::specs::Place::bytes_of))]
pub fn grows_at(a: &Arena, chunk_size: u64, address: u64, n: u64) -> bool
    requires { sound_range chunk_size a.now.base a.now.chunks ≡ true }
    ensures { result ≡ grows chunk_size a.now address n }
{
    arena::is_on(a.owned)
        && !arena::is_on(a.exclusive)
        && Range::of(a, chunk_size).end() == address
        && n <= ((MOST_CHUNKS - a.chunks) as u64)
}
