// S, the bytes of a chunk: a number within the bounds of the arithmetic, and what is whole chunks.
ghost use Rattle.std.specs.Prelude.{◌≡◌, ◌/◌, ◌%◌, ◌*◌, ◌^◌, ◌<◌, eqb};
ghost use Rattle.arena.specs.ChunkSize.{IsChunkSize};

#[derive(Clone, Copy)]
pub struct ChunkSize {
    pub bytes: u64,
    pub ghost in_bounds: { IsChunkSize bytes },
}

impl ChunkSize {
    // Whether an address, or so many bytes, is whole chunks.
    pub fn divides(self, x: u64) -> bool
        ensures { result ≡ eqb (x % self.bytes) 0 }
    {
        x % self.bytes == 0
    }

    // How many whole chunks so many bytes hold.
    pub fn chunks_in(self, bytes: u64) -> u64
        ensures { result ≡ bytes / self.bytes }
    {
        bytes / self.bytes
    }
}
