// `chunk_release_list`: releases by lent lists of addresses and counts, with each item's number in a lent list of
// answers. Document 02, wish 3: "It leaves what single releases in list order at the same clock and settings would
// leave". Rows 1, 2 and 19 are looked at once: a release keeps the table sound and puts no question, so behind them
// each item is the release's core.
#![tactic(auto)]

ghost use Rattle.std.specs.Prelude.{◌≡◌, ◌&&◌, eqb, leb, length};
ghost use Rattle.layer.specs.World.{world_of};
ghost use Rattle.layer.specs.Listing.{items, item_number, release_item, release_each, release_list, LeavesList};
ghost use Rattle.release_lists.specs.Passed.{Passed, LeavesItem};

use arena::{Arena, Commitment};
use layer::{Answer, Reply, Settings, State};
use refusals::Refusal;

// The list is lent as three slices of one length, as the C side has it. This is the longest.
const MOST: usize = 32768;

// "19 when the three lengths differ or pass 32,768"
fn fits(addresses: usize, counts: usize, answers: usize) -> bool
    ensures { result ≡ (eqb counts addresses && (eqb answers addresses && leb addresses 32768)) }
{
    counts == addresses && answers == addresses && addresses <= MOST
}

// ---- one item

// The number of an item's answer: 0 if it is granted.
fn number_of(answer: Answer) -> u32
    ensures { result ≡ item_number answer }
{
    match answer {
        Answer::Refused(why) => u32::from(why),
        _ => 0,
    }
}

// The item's release by the core, "it says nothing of commitment"; its number.
fn release_item(
    records: &mut [Arena],
    stamps: &mut [u32],
    state: State,
    ns: u64,
    settings: Settings,
    address: u64,
    count: u32,
    pending: bool,
) -> u32
    requires { Passed records.old stamps.old state settings }
    ensures { LeavesItem (release_item ns settings «pending» (world_of records.old stamps.old state) address count) result records.new stamps.new }
{
    let r = releasing::release(
        records,
        stamps,
        state,
        ns,
        settings,
        address,
        count as usize,
        Commitment::Untold,
        pending,
    );
    number_of(r.answer)
}

// ---- item after item

fn release_each(
    records: &mut [Arena],
    stamps: &mut [u32],
    addresses: &[u64],
    counts: &[u32],
    answers: &mut [u32],
    state: State,
    ns: u64,
    settings: Settings,
    pending: bool,
)
    requires { Passed records.old stamps.old state settings × (length counts.now ≡ length addresses.now) × (length answers.old ≡ length addresses.now) }
    ensures { (records.new ≡ (release_each ns settings «pending» (world_of records.old stamps.old state) addresses.now counts.now).whole.world.records)
        × (stamps.new ≡ (release_each ns settings «pending» (world_of records.old stamps.old state) addresses.now counts.now).whole.world.stamps)
        × (answers.new ≡ (release_each ns settings «pending» (world_of records.old stamps.old state) addresses.now counts.now).numbers) }
{
    for j in 0..addresses.len() {
        answers[j] = release_item(
            records,
            stamps,
            state,
            ns,
            settings,
            addresses[j],
            counts[j],
            pending,
        );
    }
}

// ---- the entry point

// Releases in list order, each answered at its place; all pending, or none. It says nothing of commitment.
pub fn chunk_release_list(
    records: &mut [Arena],
    stamps: &mut [u32],
    addresses: &[u64],
    counts: &[u32],
    answers: &mut [u32],
    state: State,
    ns: u64,
    settings: Settings,
    pending: bool,
) -> Reply
    ensures { LeavesList (release_list (world_of records.old stamps.old state) ns settings (items addresses.now counts.now answers.old pending)) result records.new stamps.new answers.new }
{
    if let Err(why) = table::rows_one_and_two(records, stamps.len(), state, settings.page) {
        return state::refuse(why, state);
    }
    if !fits(addresses.len(), counts.len(), answers.len()) {
        return state::refuse(Refusal::ListLength, state);
    }
    release_each(
        records, stamps, addresses, counts, answers, state, ns, settings, pending,
    );
    releasing::released(state)
}
