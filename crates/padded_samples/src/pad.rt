//! Samples in a pad, of which no list is made.
ghost use Rattle.std.specs.Prelude.{◌≡◌, ℤ, ◌↔◌, Err, IfOk, length};
ghost use Rattle.iso_defs.specs.Grid.{point_count};
ghost use Rattle.iso_base.specs.Volume.{IsSample, sized, grown};
ghost use Rattle.iso_base.specs.declared.sizes.SizeFault.{SizeFault};
ghost use Rattle.padded_samples.specs.Pads.{InPad, IsInPad, padded_list};

use crate::ends::Ends;
use crate::slab::PaddedSlab;
use iso_base::{Level, Point, SizeFault, Sizes};
use samples::{Packed, Samples};
use std::marker::Model;

/// Samples with one more layer on each of the six sides of their grid, all of whose samples are the pad: a slab with a layer at
/// both ends. Contracts see the grid without the layer, its samples and the pad.
#[derive(Drop)]
pub struct Padded<'a, S: Samples> {
    slab: PaddedSlab<'a, S>,
}

impl<'a, S: Samples> Model for Padded<'a, S> {
    ghost use Rattle.std.specs.Prelude.{◌≡◌};
    ghost use Rattle.padded_samples.specs.Pads.{InPad};
    ghost use Rattle.padded_samples.specs.PaddedSlabs.{both, in_both};

    ghost Value = { InPad };

    ghost view = { λ p. in_both p.slab };

    ghost invariant = { λ p. p.slab.ends ≡ both };
}

impl<'a, S: Samples> Padded<'a, S> {
    /// The samples of a grid in a pad. It is refused exactly where the sizes grown by two are.
    pub fn new(inner: &'a S, sizes: Sizes, pad: i64) -> Result<Padded<'a, S>, SizeFault>
        requires count { length (S.list inner.now) ≡ point_count sizes }
        requires range { IsSample pad }
        ensures ok { IfOk result (λ p. p ≡ record { grid = sizes; samples = S.list inner.now; pad = pad }) }
        ensures size { (fault : SizeFault) → (result ≡ Err fault) ↔ (sized (grown sizes) ≡ Err fault) }
    {
        let both = Ends {
            below: true,
            above: true,
        };
        let slab = PaddedSlab::new(inner, sizes, pad, both)?;
        Ok(Padded { slab })
    }

    /// The sizes of the grid with the layer.
    pub fn sizes(&self) -> Sizes
        ensures value { result ≡ grown self.now.grid }
        ensures valid { IsInPad self.now }
    {
        self.slab.sizes()
    }
}

impl<'a, S: Samples> Samples for Padded<'a, S> {
    ghost list = { padded_list };

    #[inline(always)]
    fn at(&self, index: u32) -> i64 {
        self.slab.at(index)
    }

    #[inline(always)]
    fn at_point(&self, sizes: &Sizes, point: Point) -> i64 {
        self.slab.at_point(sizes, point)
    }

    #[inline(always)]
    fn corners_at_once(&self, sizes: &Sizes, low: Point) -> Option<[i64; 8]> {
        self.slab.corners_at_once(sizes, low)
    }

    #[inline(always)]
    fn copy_row<T: Packed>(&self, sizes: &Sizes, point: Point, into: &mut [T]) {
        self.slab.copy_row(sizes, point, into);
    }

    #[inline(always)]
    fn fill_signs(&self, start: u32, level: Level, into: &mut [u8]) {
        self.slab.fill_signs(start, level, into);
    }
}
