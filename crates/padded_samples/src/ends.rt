//! The ends of a slab of slices.

/// At which ends of a slab there is a layer of the pad.
#[derive(Clone, Copy)]
pub struct Ends {
    /// Below its first slice: the slab is the lowest one.
    pub below: bool,
    /// Above its last slice: it is the last one.
    pub above: bool,
}
