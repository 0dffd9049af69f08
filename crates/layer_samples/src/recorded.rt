// The call that a line of a recorded sample is of: kinds 4 to 6 register, 7 to 9 claim, 10 releases, 11 sweeps, 12
// answers, and 13 asks. x and y are the two numbers that the line before carries.
ghost use Rattle.std.specs.Prelude.{◌≡◌, ◌<◌};
ghost use Rattle.bitmap.specs.Bits.{bit};
ghost use Rattle.layer_samples.specs.Recorded.{reserve_of, manage_of, memory_of, claim_of, release_of, free_of, answer_of, query_of, recorded_of};

use calls::kinds::{ActCall, Call, ClaimCall, FreeCall, MemoryCall, QueryCall};
use samples::lines::Line;

// A flag, of the number that flags are added up to.
#[tactic(auto, unfolding(bitmap::specs::Bits::bit))]
pub fn bit(x: u64, i: u32) -> bool
    requires { i < 64 }
    ensures { result ≡ bit x i }
{
    (x >> i) % 2 == 1
}

fn reserve_of(l: Line) -> MemoryCall
    ensures { result ≡ reserve_of l }
{
    MemoryCall::Reserve {
        size: l.a,
        commit: bit(l.b, 0),
        allow_large: bit(l.b, 1),
        exclusive: bit(l.b, 2),
    }
}

fn manage_of(l: Line, x: u64, y: u64) -> MemoryCall
    ensures { result ≡ manage_of l x y }
{
    MemoryCall::Manage {
        start: l.a,
        size: l.b,
        is_committed: bit(y, 0),
        is_large: bit(y, 1),
        is_zero: bit(y, 2),
        node: samples::signed::narrow(x),
        exclusive: bit(y, 3),
        mapped: bit(y, 4),
        reserved: bit(y, 5),
    }
}

fn memory_of(l: Line, x: u64, y: u64) -> MemoryCall
    ensures { result ≡ memory_of l x y }
{
    match l.kind {
        4 => reserve_of(l),
        5 => manage_of(l, x, y),
        _ => MemoryCall::Adopt {
            address: l.a,
            size: l.b,
        },
    }
}

fn claim_of(l: Line) -> ClaimCall
    ensures { result ≡ claim_of l }
{
    let id = samples::signed::narrow(l.a);
    match l.kind {
        7 => ClaimCall::ChunkAlloc { id },
        8 => ClaimCall::ChunkClaim { id },
        _ => ClaimCall::ChunkAllocN {
            id,
            n: l.b as usize,
        },
    }
}

fn release_of(l: Line, x: u64, y: u64) -> FreeCall
    ensures { result ≡ release_of l x y }
{
    FreeCall::ChunkRelease {
        address: l.a,
        n: l.b as usize,
        told: surface::told::told_of(samples::signed::narrow(x)),
        pending: bit(y, 0),
    }
}

fn free_of(l: Line, x: u64, y: u64) -> FreeCall
    ensures { result ≡ free_of l x y }
{
    if l.kind == 10 {
        return release_of(l, x, y);
    }
    FreeCall::PurgeDue { force: bit(l.a, 0) }
}

fn answer_of(l: Line) -> Call
    ensures { result ≡ answer_of l }
{
    Call::Answer {
        kind: surface::told::kind_of((l.a % 256) as u32),
        yes: bit(l.a / 256, 0),
        base: l.b,
    }
}

fn query_of(l: Line) -> QueryCall
    ensures { result ≡ query_of l }
{
    if l.a == 0 {
        return QueryCall::Owns { address: l.b };
    }
    QueryCall::ArenaArea {
        id: samples::signed::narrow(l.b),
    }
}

#[tactic(auto, unfolding(crate::specs::Recorded::recorded_of))]
pub fn recorded(l: Line, x: u64, y: u64) -> Call
    ensures { result ≡ recorded_of l x y }
{
    match l.kind {
        0..=6 => Call::Act(ActCall::Memory(memory_of(l, x, y))),
        7..=9 => Call::Act(ActCall::Claim(claim_of(l))),
        10..=11 => Call::Act(ActCall::Free(free_of(l, x, y))),
        12 => answer_of(l),
        _ => Call::Query(query_of(l)),
    }
}
