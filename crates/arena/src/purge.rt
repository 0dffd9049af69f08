// The stamps, which say since when each chunk is pending. One arena's are a part of the lent slice of all.
ghost use Rattle.std.specs.Prelude.{◌≡◌, ◌+◌, ◌*◌, ◌<◌, ◌≤◌, length};
ghost use Rattle.arena.specs.Moving.{overwritten};
ghost use Rattle.arena.specs.Releasing.{stamp_run};
ghost use Rattle.arena.specs.Stamps.{stamps_of, no_stamps};

// How many stamps an arena has.
const STAMPS: usize = 1024;

// The arena's own stamps.
pub fn stamps_of(stamps: &[u32], id: usize) -> &[u32]
    requires { (id < 32) × (length stamps.now ≡ 32768) }
    ensures { (result.now ≡ stamps_of stamps.now id) × (length result.now ≡ 1024) }
{
    &stamps[STAMPS * id..STAMPS * (id + 1)]
}

// The n stamps from s on made `at`.
pub fn stamp_run(stamps: &mut [u32], s: usize, n: usize, at: u32)
    requires { s + n ≤ length stamps.old }
    ensures { stamps.new ≡ stamp_run stamps.old s n at }
{
    stamps[s..s + n].fill(at);
}

// The n stamps from s on of the arena `id` made `at`.
pub fn stamp_run_of(stamps: &mut [u32], id: usize, s: usize, n: usize, at: u32)
    requires { (id < 32) × (s + n ≤ 1024) × (length stamps.old ≡ 32768) }
    ensures { stamps.new ≡ stamp_run stamps.old (1024 * id + s) n at }
{
    stamp_run(stamps, STAMPS * id + s, n, at);
}

// ---- a join

// The stamps of the second table's first c arenas, written behind those of the first's k.
pub fn move_stamps(stamps: &mut [u32], second: &[u32], k: usize, c: usize)
    requires { (k + c ≤ 32) × (length stamps.old ≡ 32768) × (length second.now ≡ 32768) }
    ensures { stamps.new ≡ overwritten stamps.old (1024 * k) second.now (1024 * c) }
{
    stamps[STAMPS * k..STAMPS * (k + c)].copy_from_slice(&second[..STAMPS * c]);
}

// All stamps of a table made 0.
pub fn empty_stamps(stamps: &mut [u32])
    requires { length stamps.old ≡ 32768 }
    ensures { stamps.new ≡ no_stamps }
{
    stamps.fill(0);
}
