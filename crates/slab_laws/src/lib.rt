//! Laws of slabs: the mesh of a volume is what its slabs own, one behind the other. A call says its law and does nothing
//! else.
#![tactic(auto)]

mod texts;
mod volumes;

pub use texts::text_by_slabs;
pub use volumes::slices_are_slabs;
