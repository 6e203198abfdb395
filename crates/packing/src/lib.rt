// Brackets of exact values, and magnitudes of any binary format: taken apart, brought to full length, and packed.
#![tactic(auto)]

pub mod bracket;
mod digits;
pub mod format;
pub mod magnitude;
pub mod pack;
