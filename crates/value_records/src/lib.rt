// A record of a call by value, and the reply to it. It stands on the answers of the functions that can be called.
#![tactic(auto)]

pub mod replies;
pub mod values;
