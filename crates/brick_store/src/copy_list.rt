//! The list that a store keeps its copies of samples in.
//!
//! Copies have the narrowest width that has room for the type and the padding, chosen when a store is made. Below that
//! choice the code is generic over the number that a sample is kept as.
ghost use Rattle.std.specs.Prelude.{◌≡◌, ◌+◌, ◌*◌, ◌<◌, ◌≤◌, All, IfOk, length, map, slice_set, true};
ghost use Rattle.iso_defs.specs.Lists.{below};
ghost use Rattle.iso_defs.specs.Grid.{is_cell, point_count};
ghost use Rattle.iso_defs.specs.Cell.{cell_values};
ghost use Rattle.iso_defs.specs.Bricks.{brick_count};
ghost use Rattle.iso_base.specs.Points.{IsPoint, index_of};
ghost use Rattle.iso_base.specs.Volume.{IsVolume, sample};
ghost use Rattle.packed_samples.specs.Runs.{row_set, run_width, samples_in};
ghost use Rattle.packed_samples.specs.Widths.{HasRoom, width_of};
ghost use Rattle.brick_store.specs.Boxes.{AreAsMany, AreFitting, boxed};
ghost use Rattle.brick_store.specs.Copies.{AreCopies, samples_of};
ghost use Rattle.brick_store.specs.Gathered.{first_copies};
ghost use Rattle.brick_store.specs.Kept.{copies_in, kept_width};

use crate::boxes::Values;
use crate::{boxes, copies, filling, flat, numbering, row_samples, rows};
use iso_base::{CellName, Point, SampleKind, Sizes};
use packed_samples::{PackedRun, Width};
use samples::Samples;
use std::alloc::{AllocError, Global};
use voxel_list::FillBox;

/// Copies of samples in as few bytes as serve, by the kind and the pad of their volume.
#[derive(Drop)]
pub enum Kept {
    U8(Vec<u8>),
    I16(Vec<i16>),
    U16(Vec<u16>),
    I32(Vec<i32>),
    I64(Vec<i64>),
}

impl Kept {
    /// The copies of the bricks of a volume.
    pub fn of_samples<S: Samples>(
        alloc: Global,
        sizes: &Sizes,
        kind: SampleKind,
        pad: Option<i64>,
        samples: &S,
    ) -> Result<Kept, AllocError>
        requires { IsVolume (record { grid = sizes.now; kind = kind; pad = pad; samples = S.list samples.now }) }
        ensures copies { IfOk result (λ k. copies_in k
            ≡ first_copies sizes.now (S.list samples.now) (729 * brick_count sizes.now)) }
        ensures width { IfOk result (λ k. kept_width k ≡ width_of kind pad) }
    {
        Ok(match Width::of(kind, pad) {
            Width::U8 => Kept::U8(filling::all_bricks(alloc, sizes, samples)?),
            Width::I16 => Kept::I16(filling::all_bricks(alloc, sizes, samples)?),
            Width::U16 => Kept::U16(filling::all_bricks(alloc, sizes, samples)?),
            Width::I32 => Kept::I32(filling::all_bricks(alloc, sizes, samples)?),
            Width::I64 => Kept::I64(filling::all_bricks(alloc, sizes, samples)?),
        })
    }

    /// The copies where they lie in memory.
    #[inline(always)]
    pub fn lent(&self) -> PackedRun<'_>
        ensures copies { samples_in result ≡ copies_in self.now }
        ensures width { run_width result ≡ kept_width self.now }
    {
        match self {
            Kept::U8(copies) => PackedRun::U8(copies),
            Kept::I16(copies) => PackedRun::I16(copies),
            Kept::U16(copies) => PackedRun::U16(copies),
            Kept::I32(copies) => PackedRun::I32(copies),
            Kept::I64(copies) => PackedRun::I64(copies),
        }
    }

    /// The sample of a point.
    pub fn get(&self, sizes: &Sizes, p: Point) -> i64
        requires copies { AreCopies sizes.now (copies_in self.now) }
        requires point { IsPoint sizes.now p }
        ensures { result ≡ sample (samples_of sizes.now (copies_in self.now)) (index_of sizes.now p) }
    {
        match self {
            Kept::U8(copies) => copies::get(sizes, copies, p),
            Kept::I16(copies) => copies::get(sizes, copies, p),
            Kept::U16(copies) => copies::get(sizes, copies, p),
            Kept::I32(copies) => copies::get(sizes, copies, p),
            Kept::I64(copies) => copies::get(sizes, copies, p),
        }
    }

    /// Replaces the sample of a point.
    pub fn set(&mut self, sizes: &Sizes, p: Point, value: i64)
        requires copies { AreCopies sizes.now (copies_in self.old) }
        requires point { IsPoint sizes.now p }
        requires room { HasRoom (kept_width self.old) value }
        ensures copies { AreCopies sizes.now (copies_in self.new) }
        ensures samples { samples_of sizes.now (copies_in self.new)
            ≡ slice_set (samples_of sizes.now (copies_in self.old)) (index_of sizes.now p) value }
        ensures width { kept_width self.new ≡ kept_width self.old }
    {
        match self {
            Kept::U8(copies) => copies::set(sizes, copies, p, value),
            Kept::I16(copies) => copies::set(sizes, copies, p, value),
            Kept::U16(copies) => copies::set(sizes, copies, p, value),
            Kept::I32(copies) => copies::set(sizes, copies, p, value),
            Kept::I64(copies) => copies::set(sizes, copies, p, value),
        }
    }

    /// Replaces samples of a row, along x from a point on.
    pub fn set_row(&mut self, sizes: &Sizes, p: Point, values: &[i64])
        requires copies { AreCopies sizes.now (copies_in self.old) }
        requires point { IsPoint sizes.now p }
        requires some { 0 < length values.now }
        requires inside { p.x + length values.now ≤ sizes.now.nx }
        requires room { All (HasRoom (kept_width self.old)) values.now }
        ensures copies { AreCopies sizes.now (copies_in self.new) }
        ensures samples { samples_of sizes.now (copies_in self.new)
            ≡ row_set (index_of sizes.now p) values.now (samples_of sizes.now (copies_in self.old)) }
        ensures width { kept_width self.new ≡ kept_width self.old }
    {
        match self {
            Kept::U8(copies) => rows::write_row(sizes, copies, p, values),
            Kept::I16(copies) => rows::write_row(sizes, copies, p, values),
            Kept::U16(copies) => rows::write_row(sizes, copies, p, values),
            Kept::I32(copies) => rows::write_row(sizes, copies, p, values),
            Kept::I64(copies) => rows::write_row(sizes, copies, p, values),
        }
    }

    /// Replaces the samples of a box.
    pub fn set_box(&mut self, sizes: &Sizes, area: &FillBox, values: Values)
        requires copies { AreCopies sizes.now (copies_in self.old) }
        requires high { IsPoint sizes.now area.now.high }
        requires count { AreAsMany area.now values }
        requires room { AreFitting (HasRoom (kept_width self.old)) values }
        ensures copies { AreCopies sizes.now (copies_in self.new) }
        ensures samples { samples_of sizes.now (copies_in self.new)
            ≡ boxed sizes.now area.now values.entry (samples_of sizes.now (copies_in self.old)) }
        ensures width { kept_width self.new ≡ kept_width self.old }
    {
        match self {
            Kept::U8(copies) => boxes::write_box(sizes, copies, area, values),
            Kept::I16(copies) => boxes::write_box(sizes, copies, area, values),
            Kept::U16(copies) => boxes::write_box(sizes, copies, area, values),
            Kept::I32(copies) => boxes::write_box(sizes, copies, area, values),
            Kept::I64(copies) => boxes::write_box(sizes, copies, area, values),
        }
    }

    /// The samples at the corners of a cell, by corner.
    pub fn cell_values(&self, sizes: &Sizes, cell: CellName) -> [i64; 8]
        requires copies { AreCopies sizes.now (copies_in self.now) }
        requires index { cell.0 < point_count sizes.now }
        requires cell { is_cell sizes.now cell.0 ≡ true }
        ensures { result ≡ cell_values sizes.now (sample (samples_of sizes.now (copies_in self.now))) cell.0 }
    {
        match self {
            Kept::U8(copies) => copies::cell_values(sizes, copies, cell),
            Kept::I16(copies) => copies::cell_values(sizes, copies, cell),
            Kept::U16(copies) => copies::cell_values(sizes, copies, cell),
            Kept::I32(copies) => copies::cell_values(sizes, copies, cell),
            Kept::I64(copies) => copies::cell_values(sizes, copies, cell),
        }
    }

    /// Copies the samples of a row from a point on along x, so many as there is room for.
    pub fn copy_row(&self, sizes: &Sizes, p: Point, into: &mut [i64])
        requires copies { AreCopies sizes.now (copies_in self.now) }
        requires point { IsPoint sizes.now p }
        requires fits { p.x + length into.old ≤ sizes.now.nx }
        ensures { into.new ≡ map (λ d. sample (samples_of sizes.now (copies_in self.now))
            (index_of sizes.now p + d)) (below (length into.old)) }
    {
        match self {
            Kept::U8(copies) => row_samples::copy_row(sizes, copies, p, into),
            Kept::I16(copies) => row_samples::copy_row(sizes, copies, p, into),
            Kept::U16(copies) => row_samples::copy_row(sizes, copies, p, into),
            Kept::I32(copies) => row_samples::copy_row(sizes, copies, p, into),
            Kept::I64(copies) => row_samples::copy_row(sizes, copies, p, into),
        }
    }

    /// The samples that the copies stand for.
    pub fn flat(&self, alloc: Global, sizes: &Sizes) -> Result<Vec<i64>, AllocError>
        requires { AreCopies sizes.now (copies_in self.now) }
        ensures { IfOk result (λ v. v.items ≡ samples_of sizes.now (copies_in self.now)) }
    {
        match self {
            Kept::U8(copies) => flat::all_samples(alloc, sizes, copies),
            Kept::I16(copies) => flat::all_samples(alloc, sizes, copies),
            Kept::U16(copies) => flat::all_samples(alloc, sizes, copies),
            Kept::I32(copies) => flat::all_samples(alloc, sizes, copies),
            Kept::I64(copies) => flat::all_samples(alloc, sizes, copies),
        }
    }
}
