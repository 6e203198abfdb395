// Chunks of decorated requests, which lie one behind the other: nineteen bytes for each.
ghost use Rattle.std.specs.Prelude.{◌*◌, ◌/◌, ◌≤◌, length};
ghost use Rattle.request_laws.specs.Chunk.{request_size, reply_size, Chunk, Replied};

use lent_calls::{ANSWER_AT, DECORATED_REQUEST, NUMBER_AT, PLACE_AT, REPLY, number_and_place};
use lent_intervals::DECORATED;
use requests::request_decorated;

// The reply to one request, or to bytes that are none.
fn reply(request: &[u8]) -> [u8; REPLY]
    ensures { Replied request.now result }
{
    let mut answer = [0u8; DECORATED];
    let (number, place) = number_and_place(request_decorated(request, &mut answer));
    let mut reply = [0u8; REPLY];
    reply[NUMBER_AT] = number;
    reply[PLACE_AT] = place;
    reply[ANSWER_AT..].copy_from_slice(&answer);
    reply
}

// Answers each request by the reply at its own place.
pub fn answer_chunk(requests: &[u8], replies: &mut [u8])
    requires { reply_size * (length requests.now / request_size) ≤ length replies.old }
    ensures { Chunk (length requests.now / request_size) requests.now replies.old replies.new }
{
    let (chunk, _) = requests.as_chunks::<DECORATED_REQUEST>();
    // By index, since `chunks_exact_mut` doesn't say what is written through its pieces.
    for (i, request) in chunk.iter().enumerate() {
        let at = REPLY * i;
        replies[at..at + REPLY].copy_from_slice(&reply(request));
    }
}
