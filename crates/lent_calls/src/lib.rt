// What calls on lent bytes share: how long their bytes are, how a state is written, and a refusal packed. It stands on the sizes of
// intervals (`lent_intervals`).
#![tactic(auto)]

mod number;
mod state;

use lent_intervals::{BARE, DECORATED};
pub use number::{number_and_place, packed, packed_numbers};
pub use state::write_state;

// Where the number stands, of the operation in a request and of the refusal in a reply.
pub const NUMBER_AT: usize = 0;

// Where the first operand of a request starts.
pub const FIRST_AT: usize = 1;

// The bytes of a bare request: an operation number and two operands.
pub const BARE_REQUEST: usize = FIRST_AT + 2 * BARE;

// The bytes of a decorated request.
pub const DECORATED_REQUEST: usize = FIRST_AT + 2 * DECORATED;

// Where the place stands in a reply of the bench program, and where the answer starts.
pub const PLACE_AT: usize = 1;

pub const ANSWER_AT: usize = 2;

// The bytes of the reply.
pub const REPLY: usize = ANSWER_AT + DECORATED;
