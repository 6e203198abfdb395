// How many requests a run answers.
ghost use Rattle.std.specs.Prelude.{◌≡◌, ◌≤◌};
ghost use Rattle.bench_run.specs.Limit.{most, complete_in};

use lent_calls::DECORATED_REQUEST;

// The requests that a run answers.
pub const MOST: usize = 4096;

// The requests that can be answered now: the whole ones in so many bytes, as far as the run goes.
pub fn complete(held: usize, answered: usize) -> usize
    requires { answered ≤ most }
    ensures { result ≡ complete_in held answered }
{
    let whole = held / DECORATED_REQUEST;
    whole.min(MOST - answered)
}
