// The types of the layer's calls: what a call carries, what it answers, and the state that goes in and
// comes out. Its rules are the definitions in specs/. The code stands in the crates above.
// Records and stamps are two lent slices beside the state, as document 01 and the C side have them, so no struct joins them.
#![tactic(auto)]

// S, the bytes of a chunk in the product: 32 MiB. The definitions are of any S.
pub const CHUNK: u64 = 33554432;

// What each call carries beside the clock.
#[derive(Clone, Copy)]
pub struct Settings {
    // the purge delay in milliseconds (option 15)
    pub delay: i64,
    // whether a purge decommits (option 5)
    pub decommits: bool,
    // arenas serve only claims that name them (option 27)
    pub off: bool,
    // the default reserve in bytes (option 23)
    pub reserve: u64,
    // the host's page size
    pub page: u64,
}

// Who waits for memory: an explicit reserve, or a claim of n chunks that missed. No Option: somebody waits in either case.
#[derive(Clone, Copy)]
pub enum Waiting {
    Reserve,
    Claim { n: usize, commits: bool },
}

// Why a block that the host gave cannot be registered: 12, 7 or 13.
#[derive(Clone, Copy)]
pub enum Unusable {
    Count,
    Misaligned,
    Full,
}

// A sweep keeps its first clock and settings until it ends, and counts the yes answers.
#[derive(Clone, Copy)]
pub struct Sweep {
    pub force: bool,
    pub now: u32,
    pub delay: u32,
    pub decommit: bool,
    pub purged: usize,
}

// The open question, with what resumes the call that put it.
#[derive(Clone, Copy)]
pub enum Question {
    Idle,
    Committing {
        id: usize,
        start: usize,
        n: usize,
    },
    Purging {
        id: usize,
        chunk: usize,
        sweep: Sweep,
    },
    Reserving {
        chunks: u64,
        bytes: u64,
        commit: bool,
        exclusive: bool,
        waiting: Waiting,
    },
    GivingBack {
        cause: Unusable,
        waiting: Waiting,
    },
}

// The layer's own state: how many arenas stand, whether default reserves were given up, and the question.
#[derive(Clone, Copy)]
pub struct State {
    pub count: usize,
    pub mark: bool,
    pub question: Question,
}

// What the host is asked.
#[derive(Clone, Copy)]
pub enum Ask {
    AskCommit {
        address: u64,
        bytes: u64,
    },
    AskPurge {
        address: u64,
        bytes: u64,
        decommit: bool,
    },
    AskMemory {
        bytes: u64,
        align: u64,
        commit: bool,
        large: bool,
    },
    AskGiveBack {
        address: u64,
        bytes: u64,
    },
}

// The kind of question that an answer is for.
#[derive(Clone, Copy)]
pub enum Kind {
    ForCommit,
    ForPurge,
    ForMemory,
    ForGiveBack,
    ForNone,
}

// What a call answers: document 01's named answers. A refusal is one of eight, and leaves a state as the others do, so it is no Err.
#[derive(Clone, Copy)]
pub enum Answer {
    Refused(refusals::Refusal),
    Asks(Ask),
    Registered(usize),
    Claimed {
        address: u64,
        fresh: bool,
        committed: bool,
    },
    Released,
    Swept(usize),
    Owns(bool),
    Area {
        base: u64,
        bytes: u64,
    },
}

// An answer with the state that the call leaves.
#[derive(Clone, Copy)]
pub struct Reply {
    pub answer: Answer,
    pub state: State,
}

// What a join of two tables answers: by how much the ids of the second's arenas rise, or why it is turned down;
// with the two states that it leaves.
#[derive(Clone, Copy)]
pub struct JoinReply {
    pub answer: Result<usize, refusals::Refusal>,
    pub first: State,
    pub second: State,
}
