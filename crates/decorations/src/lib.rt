// Decorations: their order, which of them go with two ends, and which one `set_dec` gives to them. They stand on tests of two
// ends (`end_pairs`) and on why a call is refused (`refusals`).
#![tactic(auto)]

mod bytes;
mod order;
mod settling;
mod types;
mod validity;

pub use order::lower_decoration;
pub use settling::settled;
pub use types::Decoration;
pub use validity::judge_dec;
