//! Boxes that are filled and put back, and the log of changes.
ghost use Rattle.std.specs.Prelude.{◌≡◌, IfOk, None};
ghost use Rattle.iso_base.specs.declared.kind.SampleKind.TheVariants.{U8};
ghost use Rattle.iso_base.specs.Points.{IsPoint};

use crate::stores::sizes_of;
use brick_store::BrickStore;
use edit_log::{Change, EditLog, Runs, fill_area};
use iso_base::{Level, Memory, Point, SampleKind, Sizes, VoxelData};
use std::alloc::Global;
use std::process::Abort;
use voxel_list::{FillBox, VoxelList};

/// Samples 0 to 11 on a grid of 3, 2 and 2 points.
fn store(alloc: Global, sizes: Sizes) -> Result<BrickStore, Memory>
    requires { sizes ≡ record { nx = 3; ny = 2; nz = 2 } }
    ensures grid { IfOk result (λ v. v.grid ≡ record { nx = 3; ny = 2; nz = 2 }) }
    ensures kind { IfOk result (λ v. v.kind ≡ U8) }
    ensures pad { IfOk result (λ v. v.pad ≡ None) }
{
    let samples = vec![in alloc; 0, 1, 2, 3, 4, 5, 6, 7, 8, 9, 10, 11]?;
    BrickStore::of(
        alloc,
        VoxelList::of(VoxelData::new(sizes, SampleKind::U8, samples)),
    )
}

/// The samples of the first point of a box and of its last one.
fn ends(store: &BrickStore, area: &FillBox) -> (i64, i64)
    requires high { IsPoint store.now.grid area.now.high }
    requires low { IsPoint store.now.grid area.now.low }
{
    (store.get(area.low()), store.get(area.high()))
}

/// Whether a box of a volume without a pad, filled and put back, has its samples again, and whether it was filled.
fn is_put_back(alloc: Global, store: &mut BrickStore, area: &FillBox) -> Result<bool, Memory>
    requires high { IsPoint store.old.grid area.now.high }
    requires low { IsPoint store.old.grid area.now.low }
    requires kind { store.old.kind ≡ U8 }
    requires pad { store.old.pad ≡ None }
{
    let _ = (store.sizes(), area.low());
    let before = ends(store, area);
    let old = Runs::of(alloc, store, area)?;
    fill_area(store, area, &7);
    let filled = ends(store, area);
    old.write_back(store, area);
    Ok(filled == (7, 7) && ends(store, area) == before)
}

/// Whether a box of six of the twelve samples is filled and put back.
fn box_is_put_back(alloc: Global) -> Result<bool, Memory> {
    let Some(sizes) = sizes_of(3, 2, 2) else {
        return Err(Memory);
    };
    let low = Point { x: 2, y: 0, z: 1 };
    let high = Point { x: 1, y: 1, z: 0 };
    let area = FillBox::between(&sizes, low, high);
    let mut store = store(alloc, sizes)?;
    is_put_back(alloc, &mut store, &area)
}

#[test]
fn a_box_is_filled_and_put_back(rt: HostRuntime) {
    assert_eq!(rt; box_is_put_back(rt.alloc()), Ok(true));
}

/// What a log is asked for.
#[derive(Clone, Copy, Debug)]
enum Step {
    /// To take a change from one level to another, in thousandths.
    Push(i64, i64),
    Undo,
    Redo,
}

/// What stands for a change of something else than the level.
const NO_LEVEL: i64 = -1;

/// The level that a change of the level leads back to.
fn old_level(change: Option<&Change>) -> Option<i64> {
    match change? {
        Change::LevelWas { old, .. } => Some(old.value()),
        _ => Some(NO_LEVEL),
    }
}

fn level_change(old: i64, new: i64) -> Option<Change> {
    Some(Change::LevelWas {
        old: Level::new(i128::from(old))?,
        new: Level::new(i128::from(new))?,
    })
}

/// How many changes a log has behind a push, or the level that the change that it hands out leads back to.
fn answer(log: &mut EditLog, step: Step) -> Option<i64> {
    match step {
        Step::Push(old, new) => {
            log.push(level_change(old, new)?);
            Some(i64::from(log.length()))
        }
        Step::Undo => old_level(log.undo()),
        Step::Redo => old_level(log.redo()),
    }
}

/// Steps with a new log, and what it answers.
const STEPS: [(Step, Option<i64>); 10] = [
    (Step::Undo, None),
    (Step::Push(1, 2), Some(1)),
    (Step::Push(2, 3), Some(2)),
    (Step::Undo, Some(2)),
    (Step::Undo, Some(1)),
    (Step::Undo, None),
    (Step::Redo, Some(1)),
    (Step::Push(2, 9), Some(2)),
    (Step::Redo, None),
    (Step::Undo, Some(2)),
];

fn check_steps(rt: &impl Abort, log: &mut EditLog) {
    for (step, wanted) in STEPS {
        assert_eq!(rt; answer(log, step), wanted, "{step:?}");
    }
}

#[test]
fn changes_are_undone_and_made_again(rt: HostRuntime) {
    let mut log = EditLog::new(rt.alloc()).expect(&rt, "memory suffices");
    check_steps(&rt, &mut log);
}

fn check_oldest(rt: &impl Abort, log: &mut EditLog) {
    for old in 0..129 {
        let count = answer(log, Step::Push(old, old + 1));
        assert_eq!(rt; count, Some((old + 1).min(128)));
    }
    for old in (1..129).rev() {
        assert_eq!(rt; answer(log, Step::Undo), Some(old));
    }
    assert_eq!(rt; answer(log, Step::Undo), None);
}

#[test]
fn the_oldest_of_129_is_dropped(rt: HostRuntime) {
    let mut log = EditLog::new(rt.alloc()).expect(&rt, "memory suffices");
    check_oldest(&rt, &mut log);
}
