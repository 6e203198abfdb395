// One turn of a run of the bench program on two lent buffers: it answers the whole requests in the bytes that are held and those
// that arrived, and keeps the rest. It stands on the decorated request and on `bench_run`.
#![tactic(auto)]

mod chunk;
mod one_turn;

pub use one_turn::{Run, TurnEnd, turn};
