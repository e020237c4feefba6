//! Counts of what cells have.

/// How many centres and how many triangles some cells have.
#[derive(Clone, Copy)]
pub struct Counts {
    pub centres: u32,
    pub faces: u32,
}
