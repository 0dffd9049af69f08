// The answer to a commit question: one load, and a store of what each answer makes of the record.
ghost use Rattle.std.specs.Prelude.{◌≡◌, List, ℕ};
ghost use Rattle.layer.specs.World.{size_of, Leaves};
ghost use Rattle.layer.specs.Answering.{answer_commit};
ghost use Rattle.claiming.specs.Search.{RunAt};

use arena::Arena;
use claiming::searching::Place;
use layer::{Answer, Reply, State};
use refusals::Refusal;

// The n chunks at a place: after a yes the run is committed and dirty, and granted; after a no, row 11, its chunks are free
// again.
pub fn answer_commit(
    records: &mut [Arena],
    state: State,
    place: Place,
    n: usize,
    granted: bool,
) -> Reply
    requires { RunAt (size_of state) records.old place.id place.start n }
    ensures { (stamps : List ℕ) → Leaves (answer_commit (size_of state) records.old stamps state.count state.mark place.id place.start n granted) result records.new stamps }
{
    let Place { id, start } = place;
    let a = table::records::load(records, id);
    if !granted {
        table::records::store(records, id, a.give_back_run(start, n));
        let answer = Answer::Refused(Refusal::CommitRefused);
        return state::settled(answer, state.count, state.mark);
    }
    let address = records[id].address_of(start, state::chunk_size(state));
    let fresh = records[id].run_fresh(start, n);
    table::records::store(records, id, a.finish_grant(start, n));
    claiming::grants::granted(state, address, fresh, true)
}
