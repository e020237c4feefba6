//! A volume in bricks: how it is made, asked and changed.
//!
//! Why: DECISIONS.md, "A store is the volume that it stands for".

ghost use Rattle.std.specs.Prelude.{◌≡◌, ℕ, ◌+◌, ◌<◌, ◌≤◌, All, IfOk, IfSome, length, map, slice_set, true};
ghost use Rattle.std.specs.List.{filter};
ghost use Rattle.iso_defs.specs.Lists.{below};
ghost use Rattle.iso_defs.specs.Grid.{is_cell, point_count, is_outer};
ghost use Rattle.iso_defs.specs.Cell.{cell_values};
ghost use Rattle.iso_defs.specs.Bricks.{brick_count, brick_start};
ghost use Rattle.iso_base.specs.Points.{IsPoint, index_of};
ghost use Rattle.iso_base.specs.Volume.{IsOfKind, IsSample, IsInner, IsVolume, Volume, sample};
ghost use Rattle.brick_store.specs.Holding.{IsCellOf, brick_of, holds_point, local_of, points_along};
ghost use Rattle.brick_store.specs.Copies.{AreAllCopies, AreCopiesOf};
ghost use Rattle.packed_samples.specs.Runs.{row_set, run_width, samples_in};
ghost use Rattle.packed_samples.specs.Widths.{width_of};
ghost use Rattle.brick_store.specs.Boxes.{AreAsMany, AreOfKind, IsInnerArea, boxed};

use crate::boxes::Values;
use crate::copy_list::Kept;
use crate::numbering::{self, BrickId};
use arrayvec::ArrayVec;
use iso_base::{CellName, Memory, Point, SampleKind, Sizes};
use packed_samples::PackedRun;
use samples::{Packed, Samples};
use std::alloc::Global;
use std::marker::Model;
use voxel_list::{FillBox, VoxelList};

/// A volume in bricks of 8x8x8 cells, in the order of their numbers. Each has 729 samples of its own: those at the corners of its
/// cells, and zeros behind the end of the grid. They are kept in the narrowest width that has room for all samples of the kind and for the
/// pad: one, two, four or eight bytes each. Contracts see a store as the volume that it stands for.
#[derive(Drop)]
pub struct BrickStore {
    sizes: Sizes,
    kind: SampleKind,
    pad: Option<i64>,
    copies: Kept,
}

impl Model for BrickStore {
    ghost use Rattle.iso_base.specs.Volume.{Volume};
    ghost use Rattle.brick_store.specs.Copies.{volume_of};
    ghost use Rattle.brick_store.specs.Kept.{IsStored, copies_in};

    ghost Value = { Volume };

    ghost view = { λ s. volume_of s.sizes s.kind s.pad (copies_in s.copies) };

    ghost invariant = { λ s. IsStored s.sizes s.kind s.pad s.copies };
}

impl BrickStore {
    /// The bricks of a volume, which is dropped, also where memory is refused.
    pub fn of(alloc: Global, volume: VoxelList) -> Result<BrickStore, Memory>
        ensures { IfOk result (λ b. b ≡ volume) }
    {
        let (sizes, kind, pad) = (volume.sizes(), volume.kind(), volume.pad());
        BrickStore::of_samples(alloc, sizes, kind, pad, &volume)
    }

    /// The bricks of the volume of these sizes, kind, pad and samples. Each row of a brick is copied from the list, so that
    /// it may lie in a file.
    pub fn of_samples<S: Samples>(
        alloc: Global,
        sizes: Sizes,
        kind: SampleKind,
        pad: Option<i64>,
        samples: &S,
    ) -> Result<BrickStore, Memory>
        requires { IsVolume (record { grid = sizes; kind = kind; pad = pad; samples = S.list samples.now }) }
        ensures { IfOk result (λ b. b ≡ record { grid = sizes; kind = kind; pad = pad; samples = S.list samples.now }) }
    {
        let copies = Kept::of_samples(alloc, &sizes, kind, pad, samples)?;
        Ok(BrickStore {
            sizes,
            kind,
            pad,
            copies,
        })
    }

    /// The sizes of the stored grid, with the pad's layer.
    pub fn sizes(&self) -> Sizes
        ensures value { result ≡ self.now.grid }
        ensures volume { IsVolume self.now }
    {
        // Reading a field brings in what is true of every volume.
        let _ = &self.kind;
        self.sizes
    }

    /// The kind of the samples.
    pub fn kind(&self) -> SampleKind
        ensures { result ≡ self.now.kind }
    {
        self.kind
    }

    /// The pad; none says that there is no pad.
    pub fn pad(&self) -> Option<i64>
        ensures value { result ≡ self.now.pad }
        ensures range { IfSome result IsSample }
    {
        self.pad
    }

    /// The number of bricks.
    pub fn brick_count(&self) -> u32
        ensures { result ≡ brick_count self.now.grid }
    {
        numbering::brick_count(&self.sizes)
    }

    /// The sample of a point of the stored grid.
    pub fn get(&self, p: Point) -> i64
        requires { IsPoint self.now.grid p }
        ensures value { result ≡ sample self.now.samples (index_of self.now.grid p) }
        ensures range { IsSample result }
    {
        self.copies.get(&self.sizes, p)
    }

    /// Replaces the sample of a point of the stored grid in each brick that holds it:
    /// a point of the pad's layer by the pad again, any other by a sample of the kind.
    pub fn set(&mut self, p: Point, value: i64)
        requires point { IsPoint self.old.grid p }
        requires pad { IfSome self.old.pad (λ pad. is_outer self.old.grid (index_of self.old.grid p) ≡ true → value
            ≡ pad) }
        requires kind { IsInner self.old (index_of self.old.grid p) → IsOfKind self.old.kind value }
        ensures { self.new ≡ record self.old { samples = slice_set self.old.samples (index_of self.old.grid p) value } }
    {
        self.copies.set(&self.sizes, p, value);
    }

    /// Replaces samples of a row, along x from a point of the stored grid on, in each brick that holds them.
    /// None of them is of the pad's layer. The cost is that of the row: a piece of it is copied into each such brick.
    pub fn set_row(&mut self, p: Point, values: &[i64])
        requires point { IsPoint self.old.grid p }
        requires some { 0 < length values.now }
        requires fits { p.x + length values.now ≤ self.old.grid.nx }
        requires inner { (k : ℕ) → k < length values.now → IsInner self.old (index_of self.old.grid p + k) }
        requires kind { All (IsOfKind self.old.kind) values.now }
        ensures { self.new ≡ record self.old {
          samples = row_set (index_of self.old.grid p) values.now
              self.old.samples;
        } }
    {
        self.copies.set_row(&self.sizes, p, values);
    }

    /// Replaces the samples of a box of the stored grid, which holds no pad: each brick that holds a point of it is written once.
    /// The cost is that of these bricks' part of the box.
    pub fn set_box(&mut self, area: &FillBox, values: Values)
        requires high { IsPoint self.old.grid area.now.high }
        requires inner { IsInnerArea self.old area.now }
        requires count { AreAsMany area.now values }
        requires kind { AreOfKind self.old.kind values }
        ensures { self.new ≡ record self.old { samples = boxed self.old.grid area.now values.entry self.old.samples } }
    {
        // Reading a corner brings in that the box's corners are in order.
        let _ = area.low();
        self.copies.set_box(&self.sizes, area, values);
    }

    /// The samples at the corners of a cell, by corner: corner c lies c % 2 points on along x, c / 2 % 2 along y and c / 4 along z.
    pub fn cell_values(&self, cell: CellName) -> [i64; 8]
        requires index { cell.0 < point_count self.now.grid }
        requires cell { is_cell self.now.grid cell.0 ≡ true }
        ensures value { result ≡ cell_values self.now.grid (sample self.now.samples) cell.0 }
        ensures range { All IsSample result }
    {
        self.copies.cell_values(&self.sizes, cell)
    }

    /// The brick that has a cell: each cell is in one brick.
    pub fn brick_of(&self, cell: CellName) -> BrickId
        requires index { cell.0 < point_count self.now.grid }
        requires cell { is_cell self.now.grid cell.0 ≡ true }
        ensures value { result.0 ≡ brick_of self.now.grid cell.0 }
        ensures has { IsCellOf self.now.grid result.0 cell.0 (local_of self.now.grid cell.0) }
        ensures only { (brick local : ℕ) → IsCellOf self.now.grid brick cell.0 local → brick ≡ result.0 }
    {
        numbering::brick_of(&self.sizes, cell)
    }

    /// The bricks that hold a copy of a point, ascending: at most two along each axis.
    pub fn bricks_holding(&self, p: Point) -> ArrayVec<BrickId, 8>
        requires { IsPoint self.now.grid p }
        ensures { map (λ b. b.0) result.items ≡ filter (holds_point self.now.grid p)
            (below (brick_count self.now.grid)) }
    {
        numbering::bricks_holding(&self.sizes, p)
    }

    /// The first point of a brick: the least one along each axis.
    pub fn first_point(&self, brick: BrickId) -> Point
        requires { brick.0 < brick_count self.now.grid }
        ensures x { result.x ≡ brick_start self.now.grid brick.0 0 }
        ensures y { result.y ≡ brick_start self.now.grid brick.0 1 }
        ensures z { result.z ≡ brick_start self.now.grid brick.0 2 }
    {
        numbering::first_point(&self.sizes, brick)
    }

    /// How many points a brick has along x, y and z, at most nine along each.
    pub fn points_along(&self, brick: BrickId) -> [u8; 3]
        requires { brick.0 < brick_count self.now.grid }
        ensures { result ≡ map (points_along self.now.grid brick.0) (below 3) }
    {
        numbering::points_along(&self.sizes, brick)
    }

    /// The copies that all bricks keep, those of a brick behind those of the brick before it, where they lie in memory, in the
    /// narrowest width that has room for all samples of the kind and for the pad.
    #[inline(always)]
    pub fn copies(&self) -> PackedRun<'_>
        ensures copies { AreAllCopies self.now.grid self.now.samples (samples_in result) }
        ensures width { run_width result ≡ width_of self.now.kind self.now.pad }
    {
        // Reading a size brings in that the sizes are those of a grid.
        let _ = self.sizes.nx();
        self.copies.lent()
    }

    /// The copies of a brick among those of all, nine along each axis with x fastest and z slowest: of each of its points that
    /// lies in the grid the sample.
    #[inline(always)]
    pub fn brick_in<'c, T: Packed>(&self, copies: &'c [T], brick: BrickId) -> &'c [T]
        requires copies { AreAllCopies self.now.grid self.now.samples (map T.value copies.now) }
        requires brick { brick.0 < brick_count self.now.grid }
        ensures { AreCopiesOf self.now.grid self.now.samples brick.0 (map T.value result.now) }
    {
        // Reading a size brings in that the sizes are those of a grid.
        let _ = self.sizes.nx();
        let start = 729 * brick.0 as usize;
        &copies[start..start + 729]
    }

    /// The copies that a brick keeps, nine along each axis with x fastest and z slowest, where they lie in memory: of each of
    /// its points that lies in the grid the sample.
    #[inline(always)]
    pub fn brick(&self, brick: BrickId) -> PackedRun<'_>
        requires { brick.0 < brick_count self.now.grid }
        ensures { AreCopiesOf self.now.grid self.now.samples brick.0 (samples_in result) }
    {
        self.copies().part(729 * brick.0 as usize, 729)
    }

    /// Copies the samples from a point of the stored grid on, along x, so many as there is room for.
    pub fn copy_row(&self, p: Point, into: &mut [i64])
        requires point { IsPoint self.now.grid p }
        requires fits { p.x + length into.old ≤ self.now.grid.nx }
        ensures { into.new ≡ map (λ d. sample self.now.samples (index_of self.now.grid p + d))
            (below (length into.old)) }
    {
        self.copies.copy_row(&self.sizes, p, into);
    }

    /// The volume as one list of samples. The store stays.
    pub fn flat(&self, alloc: Global) -> Result<VoxelList, Memory>
        ensures { IfOk result (λ v. v ≡ self.now) }
    {
        let samples = self.copies.flat(alloc, &self.sizes)?;
        Ok(VoxelList::new(self.sizes, self.kind, self.pad, samples))
    }
}
