// What a call of the C surface is told in numbers: the settings, the commitment of a run, the kind of an
// answer. include/sirqobal.h declares the struct.
ghost use Rattle.std.specs.Prelude.{◌≡◌};
ghost use Rattle.surface.specs.Told.{settings_of, commitment_of, kind_of};

use arena::Commitment;
use layer::{Kind, Settings};

// The settings. A flag is on unless it is 0.
#[repr(C)]
#[derive(Clone, Copy)]
pub struct SettingsNumbers {
    pub delay: i64,
    pub decommits: u32,
    pub off: u32,
    pub reserve: u64,
    pub page: u64,
}

impl From<SettingsNumbers> for Settings {
    ghost from_gives = { λ s t. t ≡ settings_of s };

    #[tactic(auto, unfolding(crate::specs::Told::settings_of))]
    fn from(s: SettingsNumbers) -> Settings {
        Settings {
            delay: s.delay,
            decommits: arena::is_on(s.decommits),
            off: arena::is_on(s.off),
            reserve: s.reserve,
            page: s.page,
        }
    }
}

// The next two are no `From`: neither of their types is of this crate.

// Negative: nothing is said of the run's commitment; 0: it is not committed; positive: it is.
pub fn told_of(told: i32) -> Commitment
    ensures { result ≡ commitment_of told }
{
    if told < 0 {
        return Commitment::Untold;
    }
    if told > 0 {
        return Commitment::Committed;
    }
    Commitment::Uncommitted
}

pub fn kind_of(kind: u32) -> Kind
    ensures { result ≡ kind_of kind }
{
    match kind {
        1 => Kind::ForCommit,
        2 => Kind::ForPurge,
        3 => Kind::ForMemory,
        4 => Kind::ForGiveBack,
        _ => Kind::ForNone,
    }
}
