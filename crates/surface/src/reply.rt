// The layer's answers in numbers: what the C surface hands out. include/sirqobal.h declares the struct.
ghost use Rattle.std.specs.Prelude.{◌≡◌};
ghost use Rattle.surface.specs.Replies.{ask_numbers, answer_numbers, broken_numbers, reply_of};

use crate::StateNumbers;
use layer::{Answer, Ask, Reply};
use refusals::Refusal;

// The answer, with the state that is left. What does not belong to the answer is 0.
#[repr(C)]
#[derive(Clone, Copy)]
pub struct ReplyNumbers {
    pub number: u32,
    pub kind: u32,
    pub address: u64,
    pub bytes: u64,
    pub align: u64,
    pub id: usize,
    pub count: usize,
    pub fresh: bool,
    pub committed: bool,
    pub owns: bool,
    pub decommit: bool,
    pub commit: bool,
    pub large: bool,
    // always 0: it stands where C would leave two bytes unwritten
    pub spare: u16,
    pub state: StateNumbers,
}

// A grant of nothing, on the state of which nothing is said.
const NOTHING: ReplyNumbers = ReplyNumbers {
    number: 0,
    kind: 0,
    address: 0,
    bytes: 0,
    align: 0,
    id: 0,
    count: 0,
    fresh: false,
    committed: false,
    owns: false,
    decommit: false,
    commit: false,
    large: false,
    spare: 0,
    state: crate::ZEROS,
};

fn ask_numbers(ask: Ask, state: StateNumbers) -> ReplyNumbers
    ensures { result ≡ ask_numbers ask state }
{
    let asks = ReplyNumbers {
        number: 255,
        state,
        ..NOTHING
    };
    match ask {
        Ask::AskCommit { address, bytes } => ReplyNumbers {
            kind: 1,
            address,
            bytes,
            ..asks
        },
        Ask::AskPurge {
            address,
            bytes,
            decommit,
        } => ReplyNumbers {
            kind: 2,
            address,
            bytes,
            decommit,
            ..asks
        },
        Ask::AskMemory {
            bytes,
            align,
            commit,
            large,
        } => ReplyNumbers {
            kind: 3,
            bytes,
            align,
            commit,
            large,
            ..asks
        },
        Ask::AskGiveBack { address, bytes } => ReplyNumbers {
            kind: 4,
            address,
            bytes,
            ..asks
        },
    }
}

fn answer_numbers(answer: Answer, state: StateNumbers) -> ReplyNumbers
    ensures { result ≡ answer_numbers answer state }
{
    let done = ReplyNumbers { state, ..NOTHING };
    match answer {
        Answer::Refused(why) => ReplyNumbers {
            number: u32::from(why),
            ..done
        },
        Answer::Asks(ask) => ask_numbers(ask, state),
        Answer::Registered(id) => ReplyNumbers { id, ..done },
        Answer::Claimed {
            address,
            fresh,
            committed,
        } => ReplyNumbers {
            address,
            fresh,
            committed,
            ..done
        },
        Answer::Released => done,
        Answer::Swept(count) => ReplyNumbers { count, ..done },
        Answer::Owns(owns) => ReplyNumbers { owns, ..done },
        Answer::Area { base, bytes } => ReplyNumbers {
            address: base,
            bytes,
            ..done
        },
    }
}

// The numbers that came are no state's: row 1, with all as it came.
pub fn no_state(f: StateNumbers) -> ReplyNumbers
    ensures { result ≡ broken_numbers f }
{
    answer_numbers(Answer::Refused(Refusal::Broken), f)
}

// The answer of a call that leaves the state as it came, in those numbers.
pub fn answered(r: Reply, f: StateNumbers) -> ReplyNumbers
    ensures { result ≡ answer_numbers r.answer f }
{
    answer_numbers(r.answer, f)
}

impl From<Reply> for ReplyNumbers {
    ghost from_gives = { λ r n. n ≡ reply_of r };

    #[tactic(auto, unfolding(crate::specs::Replies::reply_of))]
    fn from(r: Reply) -> ReplyNumbers {
        answer_numbers(r.answer, StateNumbers::from(r.state))
    }
}
