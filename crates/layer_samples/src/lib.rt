// What a replay keeps between two lines, and what a line makes of it.
#![tactic(auto)]

pub mod recorded;
pub mod state_hash;

ghost use Rattle.std.specs.Prelude.{◌≡◌};
ghost use Rattle.layer.specs.World.{reply_in, Leaves};
ghost use Rattle.layer_samples.specs.StateHash.{hash_of};
ghost use Rattle.layer_samples.specs.Replaying.{stepped_of, replayed_of};
ghost use Rattle.layer_samples.specs.Session.{no_line, line_of, is_call, is_hash, none, counted, skipped, word_of, said_of, called_of, hashed_of, with_clock, with_settings, with_more, carried_of, state_after, carrying, says_so, noted_of};

use arena::Arena;
use layer::{Question, Reply, Settings, State};
use samples::lines::Line;
use samples::tally::Tally;
use surface::reply::ReplyNumbers;

// What the next call carries: clock, settings, two more numbers.
#[derive(Clone, Copy)]
pub struct Carried {
    pub ns: u64,
    pub settings: Settings,
    pub x: u64,
    pub y: u64,
}

// What the last call said: address, bytes, and the word of the rest.
#[derive(Clone, Copy)]
pub struct Said {
    pub address: u64,
    pub bytes: u64,
    pub word: u64,
}

#[derive(Clone, Copy)]
pub struct Session {
    pub state: State,
    pub carried: Carried,
    pub said: Said,
    pub tally: Tally,
}

// ---- lines

// The kinds of what is no line: a malformed one, and the end of the input. Numbers, since `noted` says what a line of either does.
const BAD: u64 = 16;

const END: u64 = 17;

fn no_line(kind: u64) -> Line
    ensures { result ≡ no_line kind }
{
    Line {
        kind,
        a: 0,
        b: 0,
        r: 0,
    }
}

pub fn bad() -> Line
    ensures { result ≡ no_line 16 }
{
    no_line(BAD)
}

pub fn line_of(p: Option<Line>) -> Line
    ensures { result ≡ line_of p }
{
    p.unwrap_or(bad())
}

pub fn is_call(l: Line) -> bool
    ensures { result ≡ is_call l }
{
    4 <= l.kind && l.kind <= 13
}

pub fn is_hash(l: Line) -> bool
    ensures { result ≡ is_hash l }
{
    l.kind == 15
}

// ---- a session

// The state of the empty layer.
fn empty() -> State
    ensures { result ≡ none.state }
{
    State {
        count: 0,
        mark: false,
        question: Question::Idle,
    }
}

// Nothing is carried, said or counted yet.
pub fn start() -> Session
    ensures { result ≡ none }
{
    Session {
        state: empty(),
        carried: Carried {
            ns: 0,
            settings: Settings {
                delay: 0,
                decommits: false,
                off: false,
                reserve: 0,
                page: 0,
            },
            x: 0,
            y: 0,
        },
        said: Said {
            address: 0,
            bytes: 0,
            word: 0,
        },
        tally: Tally::none_yet(),
    }
}

// ---- what is counted

// The session with one line more that was replayed.
fn counted(s: Session, same: bool) -> Session
    ensures { result ≡ counted s same }
{
    Session {
        tally: s.tally.answered(same),
        ..s
    }
}

// The session with one line more that was not.
fn skipped(s: Session) -> Session
    ensures { result ≡ skipped s }
{
    Session {
        tally: s.tally.malformed(),
        ..s
    }
}

// ---- what a call said

#[tactic(auto, unfolding(crate::specs::Session::word_of))]
fn word_of(
    kind: u32,
    fresh: bool,
    committed: bool,
    owns: bool,
    decommit: bool,
    commit: bool,
    large: bool,
    id: usize,
    count: usize,
) -> u64
    ensures { result ≡ word_of kind fresh committed owns decommit commit large id count }
{
    let granted = (fresh as u64) << 8 | (committed as u64) << 9 | (owns as u64) << 10;
    let asked = (decommit as u64) << 11 | (commit as u64) << 12 | (large as u64) << 13;
    let numbers = (id as u64) << 16 | (count as u64) << 32;
    kind as u64 | granted | asked | numbers
}

#[tactic(auto, unfolding(crate::specs::Session::said_of))]
fn said_of(x: ReplyNumbers) -> Said
    ensures { result ≡ said_of x }
{
    let word = word_of(
        x.kind,
        x.fresh,
        x.committed,
        x.owns,
        x.decommit,
        x.commit,
        x.large,
        x.id,
        x.count,
    );
    Said {
        address: x.address,
        bytes: x.bytes,
        word,
    }
}

// After a call, whose number is held against the recorded one.
#[tactic(auto, unfolding(crate::specs::Session::called_of))]
pub fn called(s: Session, l: Line, r: Reply) -> Session
    ensures { result ≡ called_of s l r }
{
    let x = ReplyNumbers::from(r);
    Session {
        state: r.state,
        said: said_of(x),
        tally: s.tally.answered(x.number as u64 == l.r),
        ..s
    }
}

// After the hash of the state, which is held against the recorded one.
#[tactic(auto, unfolding(crate::specs::Session::hashed_of))]
pub fn hashed(s: Session, l: Line, h: u32) -> Session
    ensures { result ≡ hashed_of s l h }
{
    counted(s, h as u64 == l.a && l.r == 1)
}

// ---- other lines

fn with_clock(c: Carried, ns: u64, delay: i64) -> Carried
    ensures { result ≡ with_clock c ns delay }
{
    let settings = Settings {
        delay,
        ..c.settings
    };
    Carried { ns, settings, ..c }
}

fn with_settings(c: Carried, a: u64, reserve: u64) -> Carried
    ensures { result ≡ with_settings c a reserve }
{
    let settings = Settings {
        decommits: crate::recorded::bit(a, 0),
        off: crate::recorded::bit(a, 1),
        reserve,
        page: a / 256,
        ..c.settings
    };
    Carried { settings, ..c }
}

fn with_more(c: Carried, x: u64, y: u64) -> Carried
    ensures { result ≡ with_more c x y }
{
    Carried { x, y, ..c }
}

#[tactic(auto, unfolding(crate::specs::Session::carried_of))]
fn carried_after(c: Carried, l: Line) -> Carried
    ensures { result ≡ carried_of c l }
{
    match l.kind {
        1 => with_clock(c, l.a, samples::signed::wide(l.b)),
        2 => with_settings(c, l.a, l.b),
        3 => with_more(c, l.a, l.b),
        _ => c,
    }
}

#[tactic(auto, unfolding(crate::specs::Session::state_after))]
fn state_after(z: State, l: Line) -> State
    ensures { result ≡ state_after z l }
{
    if l.kind == 0 {
        return empty();
    }
    z
}

// A line that the next calls carry.
fn carrying(s: Session, l: Line) -> Session
    ensures { result ≡ carrying s l }
{
    Session {
        state: state_after(s.state, l),
        carried: carried_after(s.carried, l),
        tally: s.tally.answered(l.r == 1),
        ..s
    }
}

// Whether a line is what the last call said.
fn says_so(said: Said, l: Line) -> bool
    ensures { result ≡ says_so said l }
{
    said.address == l.a && said.bytes == l.b && said.word == l.r
}

// After a line that is no call and no hash.
#[tactic(auto, unfolding(crate::specs::Session::noted_of))]
pub fn noted(s: Session, l: Line) -> Session
    ensures { result ≡ noted_of s l }
{
    match l.kind {
        14 => counted(s, says_so(s.said, l)),
        BAD => skipped(s),
        END => s,
        _ => carrying(s, l),
    }
}

// ---- a line replayed on the table that its session is of

// The call of a line is made, with what the session carries.
fn reply_line(records: &mut [Arena], stamps: &mut [u32], s: Session, l: Line) -> Reply
    ensures { Leaves (stepped_of records.old stamps.old s l) result records.new stamps.new }
{
    let Carried { ns, settings, x, y } = s.carried;
    let call = crate::recorded::recorded(l, x, y);
    calls::call(records, stamps, s.state, ns, settings, call)
}

fn call_line(records: &mut [Arena], stamps: &mut [u32], s: Session, l: Line) -> Session
    ensures { (result ≡ called_of s l (reply_in (stepped_of records.old stamps.old s l))) × (records.new ≡ (stepped_of records.old stamps.old s l).world.records) × (stamps.new ≡ (stepped_of records.old stamps.old s l).world.stamps) }
{
    let r = reply_line(records, stamps, s, l);
    called(s, l, r)
}

fn hash_line(records: &[Arena], stamps: &[u32], s: Session, l: Line) -> Session
    ensures { result ≡ hashed_of s l (hash_of records.now stamps.now s.state) }
{
    hashed(s, l, crate::state_hash::hash(records, stamps, s.state))
}

#[tactic(auto, unfolding(crate::specs::Replaying::replayed_of))]
pub fn replay_line(records: &mut [Arena], stamps: &mut [u32], s: Session, l: Line) -> Session
    ensures { (result ≡ (replayed_of records.old stamps.old s l).session) × (records.new ≡ (replayed_of records.old stamps.old s l).records) × (stamps.new ≡ (replayed_of records.old stamps.old s l).stamps) }
{
    if is_call(l) {
        return call_line(records, stamps, s, l);
    }
    if is_hash(l) {
        return hash_line(records, stamps, s, l);
    }
    noted(s, l)
}
