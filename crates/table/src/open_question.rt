// The open question, by value: which chunks it is about, and what of it can be told without the arena's maps.
ghost use Rattle.std.specs.Prelude.{◌≡◌, Option, ◌+◌, ◌*◌, ◌<◌, ◌≤◌};
ghost use Rattle.table.specs.Questions.{asked_run, sound_count};

use layer::Question;

// A run of chunks in the arena of an id.
#[derive(Clone, Copy)]
pub struct AskedRun {
    pub id: usize,
    pub start: usize,
    pub n: usize,
}

// The chunks that the question is about, if it is about an arena's.
pub fn asked_run(question: Question) -> Option<AskedRun>
    ensures { result ≡ asked_run question }
{
    match question {
        Question::Committing { id, start, n } => Some(AskedRun { id, start, n }),
        Question::Purging {
            id,
            chunk: start,
            ..
        } => Some(AskedRun { id, start, n: 1 }),
        Question::Idle | Question::Reserving { .. } | Question::GivingBack { .. } => None,
    }
}

// Whether an open sweep has purged no more chunks than come before the one that it asks about.
pub fn count_is_sound(question: Question, run: AskedRun) -> bool
    requires { (run.id < 32) × (run.start ≤ 1024) }
    ensures { result ≡ sound_count question run }
{
    match question {
        Question::Purging { sweep, .. } => sweep.purged <= 1024 * run.id + run.start,
        _ => true,
    }
}
