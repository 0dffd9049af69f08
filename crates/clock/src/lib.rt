// The wrapping clock of 32-bit milliseconds: `now_ms`, `delay_ms`, `arm` and the due test of `purge_due` (arena.rs).
#![tactic(auto)]

ghost use Rattle.std.specs.Prelude.{◌≡◌};
ghost use Rattle.clock.specs.Clock.{or_one, now_ms, delay_ms, never_purges, armed, is_due, age_of, due_at};

// A longer delay than this counts as this: a quarter of the clock's round.
const LONGEST_DELAY: i64 = 1073741823;

// Half of the clock's round: a wrapping difference above it lies in the past.
const HALF_ROUND: u32 = 2147483647;

// 0 means that no deadline is set, so the clock and a deadline say 1 for it.
#[tactic(auto, unfolding(crate::specs::Clock::or_one))]
fn or_one(x: u32) -> u32
    ensures { result ≡ or_one x }
{
    x.max(1)
}

// The clock's reading, in milliseconds, of a number of nanoseconds.
#[tactic(auto, unfolding(crate::specs::Clock::now_ms))]
pub fn now_ms(ns: u64) -> u32
    ensures { result ≡ now_ms ns }
{
    or_one((ns / 1_000_000 % 4_294_967_296) as u32)
}

// The purge delay (option 15), in the range that the wrapping compares can tell apart.
#[tactic(auto, unfolding(crate::specs::Clock::delay_ms))]
pub fn delay_ms(delay: i64) -> u32
    ensures { result ≡ delay_ms delay }
{
    delay.clamp(0, LONGEST_DELAY) as u32
}

// Whether the purge delay says that nothing is purged: −1 does, and every other negative one.
#[tactic(auto, unfolding(crate::specs::Clock::never_purges))]
pub fn never_purges(delay: i64) -> bool
    ensures { result ≡ never_purges delay }
{
    delay < 0
}

// The deadline after `due` is armed over it: the earlier of the two, 0 being none.
#[tactic(auto, unfolding(crate::specs::Clock::armed, crate::specs::Clock::keeps))]
pub fn arm(deadline: u32, due: u32) -> u32
    ensures { result ≡ armed deadline due }
{
    let at = or_one(due);
    if deadline != 0 && deadline.wrapping_sub(at) > HALF_ROUND {
        deadline
    } else {
        at
    }
}

// Whether the deadline `due` has come at `now`.
#[tactic(auto, unfolding(crate::specs::Clock::is_due))]
pub fn is_due(due: u32, now: u32) -> bool
    ensures { result ≡ is_due due now }
{
    due == now || due.wrapping_sub(now) >= HALF_ROUND
}

// How long ago `stamp` was, at `now`.
pub fn age_ms(now: u32, stamp: u32) -> u32
    ensures { result ≡ age_of now stamp }
{
    now.wrapping_sub(stamp)
}

// The deadline `delay` milliseconds after `now`.
pub fn due_at(now: u32, delay: u32) -> u32
    ensures { result ≡ due_at now delay }
{
    now.wrapping_add(delay)
}
