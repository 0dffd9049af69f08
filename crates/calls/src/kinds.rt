// The calls of the layer with their own arguments, one value for each entry point, grouped as the rules group
// them: what is done where no question is open, queries, and the host's answer. No code stands here.
use arena::Commitment;
use layer::Kind;

// Memory is registered.
#[derive(Clone, Copy)]
pub enum MemoryCall {
    Reserve {
        size: u64,
        commit: bool,
        allow_large: bool,
        exclusive: bool,
    },
    Manage {
        start: u64,
        size: u64,
        is_committed: bool,
        is_large: bool,
        is_zero: bool,
        node: i32,
        exclusive: bool,
        mapped: bool,
        reserved: bool,
    },
    Adopt {
        address: u64,
        size: u64,
    },
}

// Chunks are claimed.
#[derive(Clone, Copy)]
pub enum ClaimCall {
    ChunkAlloc { id: i32 },
    ChunkClaim { id: i32 },
    ChunkAllocN { id: i32, n: usize },
}

// Chunks are released, or arenas swept.
#[derive(Clone, Copy)]
pub enum FreeCall {
    ChunkRelease {
        address: u64,
        n: usize,
        told: Commitment,
        pending: bool,
    },
    PurgeDue {
        force: bool,
    },
}

// What is done where no question is open.
#[derive(Clone, Copy)]
pub enum ActCall {
    Memory(MemoryCall),
    Claim(ClaimCall),
    Free(FreeCall),
}

#[derive(Clone, Copy)]
pub enum QueryCall {
    Owns { address: u64 },
    ArenaArea { id: i32 },
}

#[derive(Clone, Copy)]
pub enum Call {
    Act(ActCall),
    Query(QueryCall),
    Answer { kind: Kind, yes: bool, base: u64 },
}
