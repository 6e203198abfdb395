// What operations share: operands that are wrong are refused, NaI is found, and answers are decorated. It stands on intervals
// by value, and every operation stands on it.
#![tactic(auto)]

mod answer;
mod judging;
mod sound;

pub use answer::decorate;
pub use judging::judge_two;
pub use sound::{one_operand, two_operands};
