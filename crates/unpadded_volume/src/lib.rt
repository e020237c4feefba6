//! The part of a volume off its pad's layer: its points and planes by coordinates that do not count the layer, and the part as
//! a file, raw or in print.
#![tactic(auto)]

mod places;
mod raw_file;
mod rows;
mod text_file;

pub use places::{layer_of, place_in, plane_in};
pub use raw_file::write_volume;
pub use text_file::{write_hex, write_text};
