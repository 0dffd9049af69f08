// A join of two tables in numbers: what the C surface hands out. include/sirqobal.h declares the struct.
ghost use Rattle.std.specs.Prelude.{◌≡◌};
ghost use Rattle.surface.specs.Joins.{join_answer_numbers, broken_join, join_reply_of};

use crate::StateNumbers;
use layer::JoinReply;
use refusals::Refusal;

// The answer, with the states that are left of the two tables: 0 and by how much the second's ids rise, or the
// refusal and 0.
#[repr(C)]
#[derive(Clone, Copy)]
pub struct JoinNumbers {
    pub number: u32,
    // always 0: it stands where C would leave four bytes unwritten
    pub spare: u32,
    pub rise: usize,
    pub first: StateNumbers,
    pub second: StateNumbers,
}

fn join_answer_numbers(
    answer: Result<usize, Refusal>,
    first: StateNumbers,
    second: StateNumbers,
) -> JoinNumbers
    ensures { result ≡ join_answer_numbers answer first second }
{
    match answer {
        Err(why) => JoinNumbers {
            number: u32::from(why),
            spare: 0,
            rise: 0,
            first,
            second,
        },
        Ok(rise) => JoinNumbers {
            number: 0,
            spare: 0,
            rise,
            first,
            second,
        },
    }
}

// The numbers that came of the one table or of the other are no state's: row 1, with all as it came.
pub fn no_join(f: StateNumbers, g: StateNumbers) -> JoinNumbers
    ensures { result ≡ broken_join f g }
{
    join_answer_numbers(Err(Refusal::Broken), f, g)
}

impl From<JoinReply> for JoinNumbers {
    ghost from_gives = { λ r n. n ≡ join_reply_of r };

    #[tactic(auto, unfolding(crate::specs::Joins::join_reply_of))]
    fn from(r: JoinReply) -> JoinNumbers {
        let first = StateNumbers::from(r.first);
        let second = StateNumbers::from(r.second);
        join_answer_numbers(r.answer, first, second)
    }
}
