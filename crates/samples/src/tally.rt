// What is counted.
ghost use Rattle.std.specs.Prelude.{◌≡◌, not};
ghost use Rattle.samples.specs.Counting.{none, after_answer, after_malformed, after_end};

// The lines so far, the answers replayed, how many of them differ and the line of the first that does
// (0: none), the malformed lines, and whether the input has ended.
#[derive(Clone, Copy)]
pub struct Tally {
    pub lines: u64,
    pub answers: u64,
    pub differences: u64,
    pub first: u64,
    pub malformed: u64,
    pub over: bool,
}

impl Tally {
    pub fn none_yet() -> Tally
        ensures { result ≡ none }
    {
        Tally {
            lines: 0,
            answers: 0,
            differences: 0,
            first: 0,
            malformed: 0,
            over: false,
        }
    }

    // A line that was replayed.
    #[tactic(auto, unfolding(crate::specs::Counting::after_answer))]
    pub fn answered(self, same: bool) -> Tally
        ensures { result ≡ after_answer self same }
    {
        let lines = self.lines.saturating_add(1);
        let answers = self.answers.saturating_add(1);
        if same {
            return Tally {
                lines,
                answers,
                ..self
            };
        }
        Tally {
            lines,
            answers,
            differences: self.differences.saturating_add(1),
            first: if self.first == 0 { lines } else { self.first },
            ..self
        }
    }

    // A line that was not.
    pub fn malformed(self) -> Tally
        ensures { result ≡ after_malformed self }
    {
        Tally {
            lines: self.lines.saturating_add(1),
            malformed: self.malformed.saturating_add(1),
            ..self
        }
    }

    // The input has ended.
    pub fn ended(self) -> Tally
        ensures { result ≡ after_end self }
    {
        Tally { over: true, ..self }
    }

    pub fn goes_on(self) -> bool
        ensures { result ≡ not self.over }
    {
        !self.over
    }
}
