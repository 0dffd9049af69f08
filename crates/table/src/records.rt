// The lent slice of records: the few functions that read or write one of them.

ghost use Rattle.std.specs.Prelude.{◌≡◌, ◌<◌, length, get_or, set};
ghost use Rattle.layer.specs.World.{blank};

use arena::Arena;

// A record with nothing in it.
pub fn blank_arena() -> Arena
    ensures { result ≡ blank }
{
    Arena {
        base: 0,
        chunks: 0,
        exclusive: 0,
        owned: 0,
        node: 0,
        deadline: 0,
        used: [0; 32],
        dirty: [0; 32],
        committed: [0; 32],
        pending: [0; 32],
    }
}

// The record at an id of the table.
pub fn load(records: &[Arena], i: usize) -> Arena
    requires { i < length records.now }
    ensures { result ≡ get_or records.now i blank }
{
    let at = i;
    records[at]
}

// The record at an id of the table is written.
pub fn store(records: &mut [Arena], id: usize, v: Arena)
    requires { id < length records.old }
    ensures { records.new ≡ set records.old id v }
{
    let at = id;
    records[at] = v;
}

// The record at an id; a blank one past the end.
pub fn load_or(records: &[Arena], id: usize) -> Arena
    ensures { result ≡ get_or records.now id blank }
{
    if id < records.len() {
        return load(records, id);
    }
    blank_arena()
}
