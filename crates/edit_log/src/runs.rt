//! Values of a box, kept as runs of equal ones or each by itself.
//!
//! Why: DECISIONS.md, "A change notes what it replaced".

ghost use Rattle.std.specs.Prelude.{◌≡◌, ℕ, ◌+◌, ◌^◌, ◌<◌, ◌≤◌, [], ◌∷◌, ◌++◌, All, IfOk, IfSome, OnOk, drop, length, take};
ghost use Rattle.std.specs.Bool.{OnTrue};
ghost use Rattle.iso_base.specs.Points.{IsPoint};
ghost use Rattle.iso_base.specs.Volume.{IsOfKind, sample};
ghost use Rattle.voxel_list.specs.Areas.{area_count};
ghost use Rattle.brick_store.specs.Boxes.{AreOne};
ghost use Rattle.edit_log.specs.Log.{IsInnerArea, area_samples, restored, row_samples};
ghost use Rattle.edit_log.specs.Runs.{gathered, values_left, values_of};

use crate::boxes::{PIECE_SAMPLES, area_count, area_point, fill_area, piece_of_row};
use brick_store::{BrickStore, Values};
use iso_base::{Memory, Point};
use std::alloc::{AllocError, Global};
use std::marker::Model;
use voxel_list::FillBox;

/// A value and how often it stands in a row.
#[derive(Clone, Copy)]
struct Run {
    value: i64,
    count: u32,
}

/// Values one after another, in the way that takes less.
#[derive(Drop)]
enum StoredValues {
    Equal(Vec<Run>),
    Each(Vec<i64>),
}

/// Values one after another, kept as runs of equal ones, or each by itself where such runs are short. Contracts see the list
/// of the values.
#[derive(Drop)]
pub struct Runs {
    kept: StoredValues,
}

impl Model for Runs {
    ghost use Rattle.std.specs.Prelude.{List, ℤ};
    ghost use Rattle.edit_log.specs.Runs.{kept_values};

    ghost Value = { List ℤ };

    ghost view = { λ r. kept_values r.kept };
}

/// Puts one more value behind the others: into the run that goes on, or into a new one.
fn extend(runs: &mut Vec<Run>, run: &mut Run, value: &i64) -> Result<(), AllocError>
    requires { run.old.count + 1 < 2 ^ 32 }
    ensures values { OnOk result (gathered runs.new.items run.new ≡ gathered runs.old.items run.old ++ value.now ∷ []) }
    ensures count { OnOk result (run.new.count ≤ run.old.count + 1) }
{
    if *value == run.value {
        run.count += 1;
        return Ok(());
    }
    runs.push(*run)?;
    *run = Run {
        value: *value,
        count: 1,
    };
    Ok(())
}

/// Whether eight values from a place on are all one value. Their number is known, so that they are compared without a loop.
#[inline(always)]
fn are_eight(values: &[i64], start: usize, value: &i64) -> bool
    requires { start + 8 ≤ length values.now }
    ensures { OnTrue result ((k : ℕ) → start ≤ k → k < start + 8 → sample values.now k ≡ value.now) }
{
    for k in start..start + 8 {
        if values[k] != *value {
            return false;
        }
    }
    true
}

/// Whether values are all one value: eights of them, and those that are left.
fn are_all(values: &[i64], value: &i64) -> bool
    ensures { OnTrue result ((k : ℕ) → k < length values.now → sample values.now k ≡ value.now) }
{
    let eights = values.len() / 8;
    for k in 0..eights {
        if !are_eight(values, 8 * k, value) {
            return false;
        }
    }
    for at in 8 * eights..values.len() {
        if values[at] != *value {
            return false;
        }
    }
    true
}

/// Puts values behind the others. Where all of them go on with the run, they are counted at once.
fn extend_all(runs: &mut Vec<Run>, run: &mut Run, values: &[i64]) -> Result<(), AllocError>
    requires { run.old.count + length values.now < 2 ^ 32 }
    ensures values { OnOk result (gathered runs.new.items run.new ≡ gathered runs.old.items run.old ++ values.now) }
    ensures count { OnOk result (run.new.count ≤ run.old.count + length values.now) }
{
    if are_all(values, &run.value) {
        run.count += values.len() as u32;
        return Ok(());
    }
    for value in values {
        extend(runs, run, value)?;
    }
    Ok(())
}

/// Whether so many values began so many runs that each is better kept by itself: a run takes twice the memory of a value, and
/// its end is a branch that is not foreseen.
fn are_short(runs: usize, values: u32) -> bool {
    runs > 64 + values as usize / 4
}

/// The samples of a box as runs of equal ones; none where these are short.
fn equal_samples(
    alloc: Global,
    store: &BrickStore,
    area: &FillBox,
) -> Result<Option<Vec<Run>>, AllocError>
    requires { IsPoint store.now.grid area.now.high }
    ensures { IfOk result (λ r. IfSome r (λ runs. values_of runs.items
        ≡ area_samples store.now.grid area.now store.now.samples)) }
{
    let sizes = store.sizes();
    let count = area_count(&sizes, area);
    let mut row = [0; PIECE_SAMPLES as usize];
    let mut runs = Vec::new(alloc);
    let mut run = Run {
        value: store.get(area.low()),
        count: 0,
    };
    let mut k = 0;
    while k < count {
        if are_short(runs.len(), k) {
            return Ok(None);
        }
        let piece = piece_of_row(area, k, count);
        let values = &mut row[..piece as usize];
        store.copy_row(area_point(&sizes, area, k), values);
        extend_all(&mut runs, &mut run, values)?;
        k += piece;
    }
    runs.push(run)?;
    Ok(Some(runs))
}

/// Puts the samples of a row behind the others, where they are copied to at once.
fn add_row(
    store: &BrickStore,
    p: Point,
    count: u32,
    values: &mut Vec<i64>,
) -> Result<(), AllocError>
    requires point { IsPoint store.now.grid p }
    requires fits { p.x + count ≤ store.now.grid.nx }
    ensures { OnOk result (values.new.items ≡ values.old.items ++ row_samples store.now p count) }
{
    let before = values.len();
    values.resize(before + count as usize, 0)?;
    store.copy_row(p, &mut values[before..]);
    Ok(())
}

/// The samples of a box, each by itself.
fn each_sample(alloc: Global, store: &BrickStore, area: &FillBox) -> Result<Vec<i64>, AllocError>
    requires { IsPoint store.now.grid area.now.high }
    ensures { IfOk result (λ v. v.items ≡ area_samples store.now.grid area.now store.now.samples) }
{
    let sizes = store.sizes();
    let count = area_count(&sizes, area);
    let mut values = Vec::with_capacity(alloc, count as usize)?;
    let mut k = 0;
    while k < count {
        let piece = piece_of_row(area, k, count);
        add_row(store, area_point(&sizes, area, k), piece, &mut values)?;
        k += piece;
    }
    Ok(values)
}

/// What is left of the values: so much of a run, and the runs from a place on.
#[derive(Clone, Copy)]
struct Rest {
    run: Run,
    next: usize,
}

/// Passes over what has ended, where values are left: then some of a run are.
fn pass_ended(runs: &[Run], rest: &mut Rest)
    requires { 0 < length (values_left runs.now rest.old) }
    ensures same { values_left runs.now rest.new ≡ values_left runs.now rest.old }
    ensures some { 0 < rest.new.run.count }
{
    while rest.run.count == 0 {
        rest.run = runs[rest.next];
        rest.next += 1;
    }
}

/// Takes as many values as there is room for, a run at a time.
fn take_values(runs: &[Run], rest: &mut Rest, values: &mut [i64])
    requires { length values.old ≤ length (values_left runs.now rest.old) }
    ensures values { values.new ≡ take (length values.old) (values_left runs.now rest.old) }
    ensures rest { values_left runs.now rest.new ≡ drop (length values.old) (values_left runs.now rest.old) }
{
    let mut done = 0;
    while done < values.len() {
        pass_ended(runs, rest);
        let count = (rest.run.count as usize).min(values.len() - done);
        values[done..done + count].fill(rest.run.value);
        rest.run.count -= count as u32;
        done += count;
    }
}

/// Gives the points of a box the values of some runs.
fn write_runs(store: &mut BrickStore, area: &FillBox, runs: &[Run])
    requires high { IsPoint store.old.grid area.now.high }
    requires inner { IsInnerArea store.old area.now }
    requires count { length (values_of runs.now) ≡ area_count area.now }
    requires kind { All (IsOfKind store.old.kind) (values_of runs.now) }
    ensures { store.new ≡ record store.old {
      samples = restored store.old.grid area.now (values_of runs.now)
          store.old.samples;
    } }
{
    let sizes = store.sizes();
    let count = area_count(&sizes, area);
    let mut values = [0; PIECE_SAMPLES as usize];
    let run = Run { value: 0, count: 0 };
    let mut rest = Rest { run, next: 0 };
    let mut k = 0;
    while k < count {
        let piece = piece_of_row(area, k, count);
        let row = &mut values[..piece as usize];
        take_values(runs, &mut rest, row);
        store.set_row(area_point(&sizes, area, k), row);
        k += piece;
    }
}

/// Gives the points of a box the values of some runs: where it is one, all at once.
fn write_equal(store: &mut BrickStore, area: &FillBox, runs: &[Run])
    requires high { IsPoint store.old.grid area.now.high }
    requires inner { IsInnerArea store.old area.now }
    requires count { length (values_of runs.now) ≡ area_count area.now }
    requires kind { All (IsOfKind store.old.kind) (values_of runs.now) }
    ensures { store.new ≡ record store.old {
      samples = restored store.old.grid area.now (values_of runs.now)
          store.old.samples;
    } }
{
    if runs.len() == 1 {
        // Reading both brings in what is true of every volume and of every box.
        let _ = (store.sizes(), area.low());
        fill_area(store, area, &runs[0].value);
    } else {
        write_runs(store, area, runs);
    }
}

impl Runs {
    /// The samples of a box of the stored grid, in the order of their indices. Of a row, what one brick has is taken at once.
    pub fn of(alloc: Global, store: &BrickStore, area: &FillBox) -> Result<Runs, Memory>
        requires { IsPoint store.now.grid area.now.high }
        ensures { IfOk result (λ r. r ≡ area_samples store.now.grid area.now store.now.samples) }
    {
        if let Some(runs) = equal_samples(alloc, store, area)? {
            let kept = StoredValues::Equal(runs);
            return Ok(Runs { kept });
        }
        let kept = StoredValues::Each(each_sample(alloc, store, area)?);
        Ok(Runs { kept })
    }

    /// The samples of a box that are all one value. No sample is looked at.
    pub fn of_one(
        alloc: Global,
        store: &BrickStore,
        area: &FillBox,
        value: &i64,
    ) -> Result<Runs, Memory>
        requires high { IsPoint store.now.grid area.now.high }
        requires same { AreOne store.now.grid area.now value.now store.now.samples }
        ensures { IfOk result (λ r. r ≡ area_samples store.now.grid area.now store.now.samples) }
    {
        let count = area_count(&store.sizes(), area);
        let mut runs = Vec::with_capacity(alloc, 1)?;
        runs.push(Run {
            value: *value,
            count,
        })?;
        let kept = StoredValues::Equal(runs);
        Ok(Runs { kept })
    }

    /// Gives the points of a box these values, in the order of their indices, and leaves all others. The box lies in
    /// the grid and holds no pad. The cost is that of the box. Takes no memory.
    pub fn write_back(&self, store: &mut BrickStore, area: &FillBox)
        requires high { IsPoint store.old.grid area.now.high }
        requires inner { IsInnerArea store.old area.now }
        requires count { length self.now ≡ area_count area.now }
        requires kind { All (IsOfKind store.old.kind) self.now }
        ensures { store.new ≡ record store.old {
          samples = restored store.old.grid area.now self.now
              store.old.samples;
        } }
    {
        match &self.kept {
            StoredValues::Equal(runs) => write_equal(store, area, runs),
            StoredValues::Each(values) => store.set_box(area, Values::Each(values)),
        }
    }
}
