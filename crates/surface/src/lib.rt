// The layer's state in numbers: what the C surface hands in and out, since an enum cannot be exported.
// include/sirqobal.h declares the struct.
#![tactic(auto)]

pub mod joins;
pub mod reply;
pub mod told;

ghost use Rattle.std.specs.Prelude.{◌≡◌, cond, Ok, Err};
ghost use Rattle.refusals.specs.declared.Refusal.TheVariants.{Broken};
ghost use Rattle.surface.specs.Numbers.{sweep_in, waiting_of, cause_of, question_of, state_of, waiting_number, waiting_chunks, waiting_commits, cause_number, numbers_of, is_state};
ghost use Rattle.surface.specs.Fields.{no_place, no_memory, no_waiting, no_sweep, is_waiting, is_cause, is_calm, is_placed, is_of_memory};

use layer::{Question, State, Sweep, Unusable, Waiting};
use refusals::Refusal;

// The state. A flag is 0 or 1; a field that the open question does not use is 0.
#[repr(C)]
#[derive(Clone, Copy)]
pub struct StateNumbers {
    pub count: usize,
    pub mark: u32,
    // 0 none, 1 commit, 2 purge, 3 memory, 4 give back
    pub question: u32,
    pub id: usize,
    pub start: usize,
    pub n: usize,
    pub chunks: u64,
    pub bytes: u64,
    pub commit: u32,
    pub exclusive: u32,
    // 0 a reserve waits, 1 a claim
    pub waiting: u32,
    pub commits: u32,
    pub cause: u32,
    pub force: u32,
    pub now: u32,
    pub delay: u32,
    pub decommit: u32,
    pub purged: usize,
}

// A state of which nothing is said: no arena, no mark and no question.
const ZEROS: StateNumbers = StateNumbers {
    count: 0,
    mark: 0,
    question: 0,
    id: 0,
    start: 0,
    n: 0,
    chunks: 0,
    bytes: 0,
    commit: 0,
    exclusive: 0,
    waiting: 0,
    commits: 0,
    cause: 0,
    force: 0,
    now: 0,
    delay: 0,
    decommit: 0,
    purged: 0,
};

// ---- the state, read from numbers

fn sweep_of(f: StateNumbers) -> Sweep
    ensures { result ≡ sweep_in f }
{
    Sweep {
        force: f.force == 1,
        now: f.now,
        delay: f.delay,
        decommit: f.decommit == 1,
        purged: f.purged,
    }
}

fn waiting_of(f: StateNumbers) -> Waiting
    ensures { result ≡ waiting_of f }
{
    match f.waiting {
        1 => Waiting::Claim {
            n: f.n,
            commits: f.commits == 1,
        },
        _ => Waiting::Reserve,
    }
}

fn cause_of(cause: u32) -> Unusable
    ensures { result ≡ cause_of cause }
{
    match cause {
        12 => Unusable::Count,
        7 => Unusable::Misaligned,
        _ => Unusable::Full,
    }
}

fn question_of(f: StateNumbers) -> Question
    ensures { result ≡ question_of f }
{
    match f.question {
        1 => Question::Committing {
            id: f.id,
            start: f.start,
            n: f.n,
        },
        2 => Question::Purging {
            id: f.id,
            chunk: f.start,
            sweep: sweep_of(f),
        },
        3 => Question::Reserving {
            chunks: f.chunks,
            bytes: f.bytes,
            commit: f.commit == 1,
            exclusive: f.exclusive == 1,
            waiting: waiting_of(f),
        },
        4 => Question::GivingBack {
            cause: cause_of(f.cause),
            waiting: waiting_of(f),
        },
        _ => Question::Idle,
    }
}

// Of numbers that are no state's too.
#[tactic(auto, unfolding(crate::specs::Numbers::state_of))]
pub fn state_of(f: StateNumbers) -> State
    ensures { result ≡ state_of f }
{
    State {
        count: f.count,
        mark: f.mark == 1,
        question: question_of(f),
    }
}

// Numbers that are no state's are a broken table's.
impl TryFrom<StateNumbers> for State {
    type Error = Refusal;

    ghost try_from_gives = { λ f r. r ≡ cond (is_state f) (Ok (state_of f)) (Err Broken) };

    fn try_from(f: StateNumbers) -> Result<State, Refusal> {
        if !is_state(f) {
            return Err(Refusal::Broken);
        }
        Ok(state_of(f))
    }
}

// ---- the state, written in numbers

// 12, 7 or 13.
fn cause_number(cause: Unusable) -> u32
    ensures { result ≡ cause_number cause }
{
    match cause {
        Unusable::Count => 12,
        Unusable::Misaligned => 7,
        Unusable::Full => 13,
    }
}

// With who waits for memory.
fn with_waiting(f: StateNumbers, w: Waiting) -> StateNumbers
    ensures { result ≡ record f { n = waiting_chunks w; waiting = waiting_number w; commits = waiting_commits w } }
{
    match w {
        Waiting::Reserve => StateNumbers {
            n: 0,
            waiting: 0,
            commits: 0,
            ..f
        },
        Waiting::Claim { n, commits } => StateNumbers {
            n,
            waiting: 1,
            commits: arena::as_flag(commits),
            ..f
        },
    }
}

impl From<State> for StateNumbers {
    ghost from_gives = { λ s f. f ≡ numbers_of s };

    #[tactic(auto, unfolding(crate::specs::Numbers::numbers_of))]
    fn from(s: State) -> StateNumbers {
        let calm = StateNumbers {
            count: s.count,
            mark: arena::as_flag(s.mark),
            ..ZEROS
        };
        match s.question {
            Question::Idle => calm,
            Question::Committing { id, start, n } => StateNumbers {
                question: 1,
                id,
                start,
                n,
                ..calm
            },
            Question::Purging { id, chunk, sweep } => StateNumbers {
                question: 2,
                id,
                start: chunk,
                force: arena::as_flag(sweep.force),
                now: sweep.now,
                delay: sweep.delay,
                decommit: arena::as_flag(sweep.decommit),
                purged: sweep.purged,
                ..calm
            },
            Question::Reserving {
                chunks,
                bytes,
                commit,
                exclusive,
                waiting,
            } => {
                let asks = StateNumbers {
                    question: 3,
                    chunks,
                    bytes,
                    commit: arena::as_flag(commit),
                    exclusive: arena::as_flag(exclusive),
                    ..calm
                };
                with_waiting(asks, waiting)
            }
            Question::GivingBack { cause, waiting } => {
                let gives_back = StateNumbers {
                    question: 4,
                    cause: cause_number(cause),
                    ..calm
                };
                with_waiting(gives_back, waiting)
            }
        }
    }
}

// ---- whether numbers are a state's: by the question, the fields that it uses are in order and the rest are 0

fn no_place(f: StateNumbers) -> bool
    ensures { result ≡ no_place f }
{
    (f.id == 0) & (f.start == 0)
}

fn no_memory(f: StateNumbers) -> bool
    ensures { result ≡ no_memory f }
{
    (f.chunks == 0) & (f.bytes == 0) & (f.commit == 0) & (f.exclusive == 0)
}

fn no_waiting(f: StateNumbers) -> bool
    ensures { result ≡ no_waiting f }
{
    (f.waiting == 0) & (f.commits == 0) & (f.cause == 0)
}

fn no_sweep(f: StateNumbers) -> bool
    ensures { result ≡ no_sweep f }
{
    let flags = (f.force == 0) & (f.decommit == 0);
    let ages = (f.now == 0) & (f.delay == 0);
    flags & ages & (f.purged == 0)
}

// Who waits for memory: a reserve, or a claim of n chunks.
fn is_waiting(f: StateNumbers) -> bool
    ensures { result ≡ is_waiting f }
{
    let waiting = f.waiting;
    if waiting == 1 {
        return f.commits <= 1;
    }
    (waiting == 0) & (f.commits == 0) & (f.n == 0)
}

fn is_cause(cause: u32) -> bool
    ensures { result ≡ is_cause cause }
{
    (cause == 12) | (cause == 7) | (cause == 13)
}

// No question is open.
fn is_calm(f: StateNumbers) -> bool
    ensures { result ≡ is_calm f }
{
    let place = no_place(f);
    let memory = no_memory(f);
    let waiting = no_waiting(f);
    let sweep = no_sweep(f);
    place & (f.n == 0) & memory & waiting & sweep
}

// A question about chunks of an arena.
fn is_placed(f: StateNumbers) -> bool
    ensures { result ≡ is_placed f }
{
    let memory = no_memory(f);
    let waiting = no_waiting(f);
    if f.question == 1 {
        let sweep = no_sweep(f);
        return memory & waiting & sweep;
    }
    let flags = (f.force <= 1) & (f.decommit <= 1);
    memory & waiting & flags & (f.n == 0)
}

// A question about memory.
fn is_of_memory(f: StateNumbers) -> bool
    ensures { result ≡ is_of_memory f }
{
    let place = no_place(f);
    let waiting = is_waiting(f);
    let sweep = no_sweep(f);
    let others = place & waiting & sweep;
    if f.question == 3 {
        let flags = (f.commit <= 1) & (f.exclusive <= 1);
        return others & flags & (f.cause == 0);
    }
    let memory = no_memory(f);
    let cause = is_cause(f.cause);
    others & memory & cause
}

#[tactic(auto, using(crate::proofs::FieldLaws::state_by_fields))]
pub fn is_state(f: StateNumbers) -> bool
    ensures { result ≡ is_state f }
{
    let kind = f.question;
    let marked = f.mark <= 1;
    if kind == 0 {
        let calm = is_calm(f);
        return marked & calm;
    }
    if kind <= 2 {
        let placed = is_placed(f);
        return marked & placed;
    }
    let asks = is_of_memory(f);
    marked & ((kind <= 4) & asks)
}
