//! The lines of meshes in four formats, ASCII PLY, Wavefront OBJ, OFF and VTK, gathered in a block on the stack and written to a sink.
#![tactic(auto)]

mod centre_texts;
mod line_buffer;
mod row_texts;
mod style;

pub use centre_texts::CentreTexts;
pub use line_buffer::LineBuffer;
pub use row_texts::RowTexts;
pub use style::{Origin, Style};
