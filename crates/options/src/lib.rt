// What the options and the page size let pass. The settings come with each call, so nothing is kept here.
#![tactic(auto)]

ghost use Rattle.std.specs.Prelude.{◌≡◌};
ghost use Rattle.options.specs.Options.{arena_allowed, page_size_sound};

// Whether a claim at id may use an arena. With arenas off (option 27) only a claim that names its arena may: a negative id names none.
pub fn arena_allowed(arenas_off: bool, id: i32) -> bool
    ensures { result ≡ arena_allowed arenas_off id }
{
    !arenas_off || id >= 0
}

// Whether the host's page size is one that the layer takes.
pub fn page_size_sound(page: u64) -> bool
    ensures { result ≡ page_size_sound page }
{
    matches!(page, 4096 | 8192 | 16384 | 32768 | 65536)
}
