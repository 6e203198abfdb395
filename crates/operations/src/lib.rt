// The operations by name, on intervals that were judged already, bare and decorated. They stand on the operations by their ends
// (`arith`, `set_op`, `absmax`, `integer`) and on the steps that all share (`operation_steps`).
#![tactic(auto)]

mod bare;
mod decorated;

pub use bare::{combine, image};
pub use decorated::{combine_dec, image_dec};
