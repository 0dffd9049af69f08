// The cases that were run, counted.
ghost use Rattle.std.specs.Prelude.{◌≡◌};
ghost use Rattle.worked_parts.specs.Tally.{none, counted};

// How many cases were run, and in how many the two answers differ.
#[derive(Clone, Copy)]
pub struct Tally {
    pub cases: u64,
    pub differ: u64,
}

impl Tally {
    pub fn none_yet() -> Tally
        ensures { result ≡ none }
    {
        Tally {
            cases: 0,
            differ: 0,
        }
    }

    // One case more, in which the two answers are the same or not; the largest number stays as it is.
    #[tactic(auto, unfolding(crate::specs::Tally::counted))]
    pub fn count(self, same: bool) -> Tally
        ensures { result ≡ counted self same }
    {
        let cases = self.cases.saturating_add(1);
        if same {
            return Tally { cases, ..self };
        }
        Tally {
            cases,
            differ: self.differ.saturating_add(1),
        }
    }
}
