// Our answer to a recorded call, as a number.
ghost use Rattle.std.specs.Prelude.{◌≡◌, cond, ◌%◌};
ghost use Rattle.clock.specs.Clock.{delay_ms};
ghost use Rattle.samples.specs.Signed.{signed_of};
ghost use Rattle.replay.specs.Answers.{address_of, done_of, of_numbers, of_pool, left_pool, agrees_on, leaves};

use crate::pool;
use samples::lines::Line;

// The low 32 bits.
fn low(x: u64) -> u32
    ensures { result ≡ x % 4294967296 }
{
    (x % 4294967296) as u32
}

// The delay of a number in two's complement.
fn delay_of(x: u64) -> u64
    ensures { result ≡ delay_ms (signed_of x) }
{
    clock::delay_ms(samples::signed::wide(x)) as u64
}

// Kinds 1 to 6, on numbers alone.
#[tactic(auto, unfolding(crate::specs::Answers::of_numbers))]
fn of_numbers(kind: u64, a: u64, b: u64) -> u64
    ensures { result ≡ of_numbers kind a b }
{
    match kind {
        1 => sizes::bins::is_aligned_to(a, b) as u64,
        2 => sizes::os::page_align_up(a, b),
        3 => clock::arm(low(a), low(b)) as u64,
        4 => clock::is_due(low(a), low(b)) as u64,
        5 => clock::now_ms(a) as u64,
        _ => delay_of(a),
    }
}

// Kinds 7 to 10, on the slice pool: a run's address, the largest number where there is none; 1 for done, 0 for refused; whether the
// hash is the recorded one; and the words cleared.
#[tactic(auto, unfolding(crate::specs::Answers::of_pool, crate::specs::Answers::left_pool))]
fn of_pool(kind: u64, a: u64, b: u64, words: &mut [u32]) -> u64
    ensures { (result ≡ of_pool kind a b words.old) × (words.new ≡ left_pool kind a b words.old) }
{
    match kind {
        7 => slice_pool::alloc_run(words, a).unwrap_or(u64::MAX),
        8 => slice_pool::free_range(words, a, b).is_ok() as u64,
        9 => (pool::hash(words) as u64 == a) as u64,
        _ => {
            words.fill(0);
            1
        }
    }
}

// Whether our answer is the recorded one.
#[tactic(auto, unfolding(crate::specs::Answers::agrees_on, crate::specs::Answers::leaves))]
pub fn agrees(l: Line, words: &mut [u32]) -> bool
    ensures { (result ≡ agrees_on l words.old) × (words.new ≡ leaves l words.old) }
{
    if l.kind <= 6 {
        return of_numbers(l.kind, l.a, l.b) == l.r;
    }
    of_pool(l.kind, l.a, l.b, words) == l.r
}
