// The reply that ends a run.
ghost use Rattle.std.specs.Prelude.{◌≡◌};
ghost use Rattle.bench_run.specs.Run.{last_reply};

use lent_calls::{NUMBER_AT, REPLY};

// The reply that says a number alone: the number, place 0, and no answer.
pub fn last_reply(number: u8) -> [u8; REPLY]
    ensures { result ≡ last_reply number }
{
    let mut reply = [0u8; REPLY];
    reply[NUMBER_AT] = number;
    reply
}
