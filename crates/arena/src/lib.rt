// The record of one arena, and registering and growth by value. The other changes that a call makes to a
// record stand in `arena_runs` and `arena_sweeps`; what is asked of it there and in `soundness`, `asks` and `waits`,
// where it lies. It knows no table, no other arena and no question.
#![tactic(auto)]

pub mod arena_runs;
pub mod arena_sweeps;
pub mod asks;
pub mod chunk_size;
pub mod purge;
pub mod soundness;
pub mod waits;

ghost use Rattle.std.specs.Prelude.{◌≡◌, ◌+◌, ◌≤◌};
ghost use Rattle.arena.specs.Flags.{is_on, as_flag};
ghost use Rattle.arena.specs.Registering.{each_bit, new_arena, reserved_arena, managed_arena, adopted_arena, grown_arena};

// The most chunks that an arena has.
pub const MOST_CHUNKS: usize = 1024;

// The last address of all.
pub const LAST: u64 = 18446744073709551615;

// A registered range of chunks. Bit j % 32 of word j / 32 of each map is chunk j. It is lent across the C
// surface, so its layout is C's, with no byte between two fields, and every value of a field is one that the code
// reads: a flag is a number, on unless it is 0. Registering writes 0 or 1.
#[repr(C)]
#[derive(Clone, Copy)]
pub struct Arena {
    pub base: u64,
    pub chunks: usize,
    // A flag: serves only claims that name its id.
    pub exclusive: u32,
    // A flag: the range is the layer's own, and not managed for the host.
    pub owned: u32,
    // The NUMA node, only stored.
    pub node: i32,
    // When the earliest pending chunk falls due, in milliseconds of the wrapping clock; 0: none.
    pub deadline: u32,
    pub used: [u32; 32],
    pub dirty: [u32; 32],
    pub committed: [u32; 32],
    pub pending: [u32; 32],
}

// What a release tells of its run: nothing, or whether the memory is now committed in full. Three named cases say more than an
// Option of a flag.
#[derive(Clone, Copy)]
pub enum Commitment {
    Untold,
    Committed,
    Uncommitted,
}

// By what a sweep judges a chunk: whether it is forced, the clock and the delay in milliseconds.
#[derive(Clone, Copy)]
pub struct Timing {
    pub force: bool,
    pub now: u32,
    pub delay: u32,
}

// ---- flags

// As it is read: on unless 0.
pub fn is_on(x: u32) -> bool
    ensures { result ≡ is_on x }
{
    x != 0
}

// As it is written: 1 or 0.
pub fn as_flag(b: bool) -> u32
    ensures { result ≡ as_flag b }
{
    b as u32
}

// ---- registering

// A bitmap of an arena of so many chunks, each chunk's bit being `on`.
fn each_bit(chunks: usize, on: bool) -> [u32; 32]
    requires { chunks ≤ 1024 }
    ensures { result ≡ each_bit chunks on }
{
    let none = [0u32; 32];
    if on {
        return bitmap::rows::row_set(none, 0, chunks);
    }
    none
}

impl Arena {
    // A new arena: the whole record is written, with no chunk used or pending and no deadline. Inlined, and `adopted` too, so that it is
    // made where it is stored: of a call LLVM copies what comes back, by a name that the archive would need from outside.
    #[inline(always)]
    #[tactic(auto, unfolding(crate::specs::Registering::new_arena))]
    fn new(
        base: u64,
        chunks: usize,
        exclusive: bool,
        owned: bool,
        node: i32,
        dirty: bool,
        committed: bool,
    ) -> Arena
        requires { chunks ≤ 1024 }
        ensures { result ≡ new_arena base chunks exclusive owned node dirty committed }
    {
        Arena {
            base,
            chunks,
            exclusive: as_flag(exclusive),
            owned: as_flag(owned),
            node,
            deadline: 0,
            used: [0u32; 32],
            dirty: each_bit(chunks, dirty),
            committed: each_bit(chunks, committed),
            pending: [0u32; 32],
        }
    }

    // Memory that the layer reserved: untouched, and committed if that was asked.
    #[tactic(auto, unfolding(crate::specs::Registering::reserved_arena))]
    pub fn reserved(base: u64, chunks: usize, commit: bool, exclusive: bool) -> Arena
        requires { chunks ≤ 1024 }
        ensures { result ≡ reserved_arena base chunks commit exclusive }
    {
        Arena::new(base, chunks, exclusive, true, -1, false, commit)
    }

    // Memory that the host manages: nothing is known of what it holds.
    #[tactic(auto, unfolding(crate::specs::Registering::managed_arena))]
    pub fn managed(base: u64, chunks: usize, exclusive: bool, node: i32) -> Arena
        requires { chunks ≤ 1024 }
        ensures { result ≡ managed_arena base chunks exclusive node }
    {
        Arena::new(base, chunks, exclusive, false, node, true, true)
    }

    // A block that was in use before.
    #[inline(always)]
    #[tactic(auto, unfolding(crate::specs::Registering::adopted_arena))]
    pub fn adopted(base: u64, chunks: usize) -> Arena
        requires { chunks ≤ 1024 }
        ensures { result ≡ adopted_arena base chunks }
    {
        Arena::new(base, chunks, false, true, -1, true, true)
    }

    // n adopted chunks more, at the arena's end.
    #[tactic(auto, unfolding(crate::specs::Registering::grown_arena))]
    pub fn grow(self, n: usize) -> Arena
        requires { self.chunks + n ≤ 1024 }
        ensures { result ≡ grown_arena self n }
    {
        Arena {
            chunks: self.chunks + n,
            dirty: bitmap::rows::row_set(self.dirty, self.chunks, n),
            committed: bitmap::rows::row_set(self.committed, self.chunks, n),
            ..self
        }
    }
}
