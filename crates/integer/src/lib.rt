// The functions whose results are whole numbers, on bare intervals, by their ends, which were judged already. They stand on
// the same functions of one pattern (`wholes`).
#![tactic(auto)]

mod decoration;
mod ends;
mod image;
mod jumps;

pub use decoration::allowed;
pub use image::image_of;
pub use wholes::Function;
