// Why a call is turned down: one variant for each row of document 01's table "Turned down", and for each refusal
// that document 02 adds.
#![tactic(auto)]

ghost use Rattle.std.specs.Prelude.{◌≡◌};
ghost use Rattle.refusals.specs.Number.{number, number_in};

#[derive(Clone, Copy)]
pub enum Refusal {
    // 1: a slice of a wrong length, an unsound page size, or a broken table
    Broken,
    // 2: a question is open
    QuestionOpen,
    // 3: no question is open, or one of another kind
    NoSuchQuestion,
    // 4: n or size is 0
    Zero,
    // 5: arenas are off and the id is negative
    ArenasOff,
    // 6: the range starts at 0, ends past 2^64 - 1 or overlaps an arena
    Range,
    // 7: an address or a size is not whole
    NotWhole,
    // 8: in no arena; a slice base below 65,536
    NotInside,
    // 9: the run passes the end
    PastEnd,
    // 10: no such run
    NoRun,
    // 11: the commit was answered no
    CommitRefused,
    // 12: 0 chunks, or above 1,024
    ChunkCount,
    // 13: 32 arenas stand
    TableFull,
    // 14: the memory was answered no
    MemoryRefused,
    // 15: start 0, a sum past 2^64 - 1, or no whole chunk
    NoWholeChunk,
    // 16: in the segment map already, or not reserved
    HostRefused,
    // 17: a range of one table overlaps a range of the other
    TablesOverlap,
    // 18: more than 32 arenas would result
    TooManyArenas,
    // 19: the lengths of a lent list differ, or pass 32,768
    ListLength,
}

// The number by which the papers and the C side name a refusal.
impl From<Refusal> for u32 {
    ghost from_gives = { λ why n. n ≡ number why };

    fn from(why: Refusal) -> u32 {
        match why {
            Refusal::Broken => 1,
            Refusal::QuestionOpen => 2,
            Refusal::NoSuchQuestion => 3,
            Refusal::Zero => 4,
            Refusal::ArenasOff => 5,
            Refusal::Range => 6,
            Refusal::NotWhole => 7,
            Refusal::NotInside => 8,
            Refusal::PastEnd => 9,
            Refusal::NoRun => 10,
            Refusal::CommitRefused => 11,
            Refusal::ChunkCount => 12,
            Refusal::TableFull => 13,
            Refusal::MemoryRefused => 14,
            Refusal::NoWholeChunk => 15,
            Refusal::HostRefused => 16,
            Refusal::TablesOverlap => 17,
            Refusal::TooManyArenas => 18,
            Refusal::ListLength => 19,
        }
    }
}

// The number that an answer hands out: that of the refusal, and 0 for a grant.
pub fn number_in<T: Drop>(answer: Result<T, Refusal>) -> u32
    ensures { result ≡ number_in answer }
{
    match answer {
        Ok(_) => 0,
        Err(why) => u32::from(why),
    }
}
