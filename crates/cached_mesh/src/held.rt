//! The slices of bricks that are held for the rows of a walk.
//!
//! A walk asks for the rows of a slice of a row of bricks before it goes on to others, and these are no more than have
//! places: bricks that the cache keeps by their cases, others by their sign bytes.
ghost use Rattle.std.specs.Prelude.{All};
ghost use Rattle.cached_mesh.specs.Held.{HoldsNone, IsNoSlice};
ghost use Rattle.cached_mesh.specs.Slices.{AreNone};

use crate::slices::{SLICE_BRICKS, Slices};
use brick_mesh::SignSlice;

/// A place for the sign bytes of a slice of each brick.
pub type SignSlices = [SignSlice; SLICE_BRICKS as usize];

/// Room for slices of kept bricks and of others. Both lie where their owner has them, since together they are too large to be moved.
#[derive(Drop)]
pub struct Held<'a> {
    pub slices: &'a mut [Slices; SLICE_BRICKS as usize],
    pub signed: &'a mut SignSlices,
}

impl<'a> Held<'a> {
    /// Room in which no slice is held.
    pub fn new(
        slices: &'a mut [Slices; SLICE_BRICKS as usize],
        signed: &'a mut SignSlices,
    ) -> Held<'a>
        requires slices { All AreNone slices.old }
        requires signed { All IsNoSlice signed.old }
        ensures { HoldsNone result }
    {
        Held { slices, signed }
    }
}

/// No sign bytes, in each place.
#[inline(always)]
pub fn no_signs() -> SignSlices
    ensures { All IsNoSlice result }
{
    [SignSlice::none(); SLICE_BRICKS as usize]
}

/// Lets the sign bytes in each place go, one by one: no list of them is made on the stack.
#[inline(never)]
pub fn clear_signs(signed: &mut SignSlices)
    ensures { All IsNoSlice signed.new }
{
    for place in 0..SLICE_BRICKS as usize {
        signed[place] = SignSlice::none();
    }
}
