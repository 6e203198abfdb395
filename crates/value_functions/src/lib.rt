// Functions that take apart, make and ask about intervals by value, by number. They stand on those of `interval`, `dec_interval`
// and `interchange`.
#![tactic(auto)]

pub mod bare;
pub mod decorated;
pub mod from_bytes;
