// A run that the search found, taken in its record: granted, or its commit asked for.
ghost use Rattle.std.specs.Prelude.{◌≡◌, ◌*◌, ◌^◌, ◌<◌, set};
ghost use Rattle.layer.specs.declared.Ask.TheVariants.{AskCommit};
ghost use Rattle.layer.specs.declared.Answer.TheVariants.{Asks, Claimed};
ghost use Rattle.layer.specs.declared.Question.TheVariants.{Committing};
ghost use Rattle.layer.specs.World.{size_of, state_with, reply, calm};
ghost use Rattle.layer.specs.Table.{at};
ghost use Rattle.layer.specs.Claiming.{grant_arena, grant_reply};
ghost use Rattle.claiming.specs.Search.{RunAt};

use crate::searching::Place;
use arena::Arena;
use layer::{Answer, Ask, Question, Reply, State};

// The question for the commit of a run of n, which starts at that address.
fn commit_question(state: State, place: Place, n: usize, address: u64) -> Reply
    requires { n * size_of state < 2 ^ 64 }
    ensures { result ≡ reply (Asks (AskCommit address (n * size_of state))) (state_with state.count state.mark (Committing place.id place.start n)) }
{
    let bytes = (n as u64) * state::chunk_size(state).bytes;
    let ask = Ask::AskCommit { address, bytes };
    let question = Question::Committing {
        id: place.id,
        start: place.start,
        n,
    };
    state::asked(Answer::Asks(ask), state.count, state.mark, question)
}

// The run at that address, granted.
pub fn granted(state: State, address: u64, fresh: bool, committed: bool) -> Reply
    ensures { result ≡ reply (Claimed address fresh committed) (calm state.count state.mark) }
{
    let answer = Answer::Claimed {
        address,
        fresh,
        committed,
    };
    state::settled(answer, state.count, state.mark)
}

// The run of n at a place. What is only read of the record is read where it lies.
pub fn grant(records: &mut [Arena], state: State, place: Place, n: usize, commits: bool) -> Reply
    requires { RunAt (size_of state) records.old place.id place.start n }
    ensures { (result ≡ grant_reply (size_of state) state.count state.mark place.id (at records.old place.id) place.start n commits) × (records.new ≡ set records.old place.id (grant_arena (at records.old place.id) place.start n commits)) }
{
    let Place { id, start } = place;
    let address = records[id].address_of(start, state::chunk_size(state));
    let committed = records[id].run_committed(start, n);
    let a = table::records::load(records, id);
    if commits && !committed {
        table::records::store(records, id, a.take_run(start, n));
        return commit_question(state, place, n, address);
    }
    let fresh = records[id].run_fresh(start, n);
    table::records::store(records, id, a.grant_run(start, n));
    granted(state, address, fresh, committed)
}
