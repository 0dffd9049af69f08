// The open question taken apart: whether an answer is for it, and what a memory question carries.
ghost use Rattle.std.specs.Prelude.{◌≡◌};
ghost use Rattle.layer.specs.Answering.{is_for};

use layer::{Kind, Question, Waiting};

// The memory that is asked for, and who waits for it.
#[derive(Clone, Copy)]
pub struct MemoryQuestion {
    pub chunks: u64,
    pub bytes: u64,
    pub commit: bool,
    pub exclusive: bool,
    pub waiting: Waiting,
}

// Row 3: whether the answer is for the question.
#[tactic(auto, unfolding(layer::specs::Answering::is_for))]
pub fn is_for(question: Question, kind: Kind) -> bool
    ensures { result ≡ is_for question kind }
{
    match (question, kind) {
        (Question::Committing { .. }, Kind::ForCommit) => true,
        (Question::Purging { .. }, Kind::ForPurge) => true,
        (Question::Reserving { .. }, Kind::ForMemory) => true,
        (Question::GivingBack { .. }, Kind::ForGiveBack) => true,
        _ => false,
    }
}
