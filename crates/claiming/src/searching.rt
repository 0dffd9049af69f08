// A claim's search over the lent records: the one place where a run is looked for. The map of used chunks is looked at where
// it lies.
ghost use Rattle.std.specs.Prelude.{◌≡◌, ◌<◌, ◌≤◌, length};
ghost use Rattle.layer.specs.Claiming.{eligible};
ghost use Rattle.claiming.specs.Search.{run_in, search_from, Searchable};

use arena::Arena;

// A run in a table: its arena, and where it starts there.
#[derive(Clone, Copy)]
pub struct Place {
    pub id: usize,
    pub start: usize,
}

// Whether a claim at the id means arena i: a negative id means every arena that is not exclusive.
fn is_eligible(id: i32, i: usize, a: &Arena) -> bool
    ensures { result ≡ eligible id i a.now }
{
    if id < 0 {
        return !arena::is_on(a.exclusive);
    }
    i == (id as usize)
}

// Where arena i has the lowest run of n, n being 1 at least, for a claim that means it.
#[tactic(auto, unfolding(crate::specs::Search::run_in))]
fn run_in(a: &Arena, i: usize, id: i32, n: usize) -> Option<usize>
    requires { (a.now.chunks ≤ 1024) × (0 < n) }
    ensures { result ≡ run_in id n i a.now }
{
    if !is_eligible(id, i, a) || a.chunks < n {
        return None;
    }
    a.find_run(n)
}

// The first of the k arenas, by id, that has a run of n for the claim, n being 1 at least.
pub fn search(records: &[Arena], k: usize, id: i32, n: usize) -> Option<Place>
    requires { Searchable records.now k × (0 < n) }
    ensures { result ≡ search_from records.now id n 0 k }
{
    for (i, a) in records[..k].iter().enumerate() {
        if let Some(start) = run_in(a, i, id, n) {
            return Some(Place { id: i, start });
        }
    }
    None
}

// The same for a claim of no chunks: a run of none starts at the first chunk of the first of the k arenas that the claim means.
pub fn search_none(records: &[Arena], k: usize, id: i32) -> Option<Place>
    requires { k ≤ length records.now }
    ensures { result ≡ search_from records.now id 0 0 k }
{
    for (i, a) in records[..k].iter().enumerate() {
        if is_eligible(id, i, a) {
            return Some(Place { id: i, start: 0 });
        }
    }
    None
}
