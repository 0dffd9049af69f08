// Answers as the numbers that are shown.
ghost use Rattle.std.specs.Prelude.{◌≡◌};
ghost use Rattle.refusals.specs.Number.{number_in};
ghost use Rattle.worked_parts.specs.Numbers.{start_of, address_of, rise_of};

use refusals::Refusal;

// Where the run starts; the largest number where there is none.
pub fn start_of(found: Option<usize>) -> u64
    ensures { result ≡ start_of found }
{
    match found {
        Some(s) => s as u64,
        None => u64::MAX,
    }
}

// The run's address; the largest number where there is none.
pub fn address_of(a: Result<u64, Refusal>) -> u64
    ensures { result ≡ address_of a }
{
    match a {
        Ok(at) => at,
        Err(_) => u64::MAX,
    }
}

// The number of the refusal, of a run, a free or a join; 0 where there is none.
pub fn refusal_in<T: Drop>(answer: Result<T, Refusal>) -> u64
    ensures { result ≡ number_in answer }
{
    refusals::number_in(answer) as u64
}

// By how much the second's ids rise; 0 where the tables are not joined.
pub fn rise_of(a: Result<usize, Refusal>) -> u64
    ensures { result ≡ rise_of a }
{
    match a {
        Ok(rise) => rise as u64,
        Err(_) => 0,
    }
}
