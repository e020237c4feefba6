//! The workbench: its calls, each a step of the machine or a question to it.

ghost use Rattle.std.specs.Prelude.{◌≡◌, ◌⊎◌, ◌+◌, ◌*◌, ◌<◌, ◌≤◌, take, length, is_some, IfSome, IfNone, IsSomeAnd, None, Some, Ok, IfOk, IfErr, OnOk, IsErrOf, All};
ghost use Rattle.iso_base.specs.Volume.{IsSample, least_of, greatest_of};
ghost use Rattle.mesh_cache.specs.Cache.{IsCache};
ghost use Rattle.unpadded_volume.specs.Unpadded.{IsInside, place_of, plane_of, inner_voxels};
ghost use Rattle.measure.specs.Measures.{HasNoArea};
ghost use Rattle.part_laws.specs.Printed.{HasNoBorder, HasOneVolumeIn};
ghost use Rattle.bench_core.specs.Surface.{IsCutOfMesh, IsWatertight};
ghost use Rattle.bench_core.specs.Texts.{WritesFile, contour_of, hex_save, measure_of, text_of_state, mesh_written, obj_text, obj_written, ply_text, ply_written, raw_save, report_of, text_save};
ghost use Rattle.voxel_list.specs.Areas.{between};
ghost use Rattle.edit_log.specs.Changes.{Suits, after, area_of, before, moment};
ghost use Rattle.bench_core.specs.Machine.{IsAbovePad, IsState, IsStep, IsSureStep, area_by, begin_fault, changed, checked_level, contour_step, fill_at, fill_step, level_step, pad_fault, redo_step, set_at, set_step, three_from, undo_step};
ghost use Rattle.bench_core.specs.Keeping.{IsRightBench, Keeps, Refreshes, fill_area, first_area, first_bench, set_area, turn_steps, waiting_bricks, without_points, write_steps};
ghost use Rattle.bench_core.specs.Windows.{WritesWindow, window_area};
ghost use Rattle.window_mesh.specs.Crops.{IsWindowOfMesh};
ghost use Rattle.nrrd_read.specs.Nrrd.{nrrd_of};

use crate::contour::plane_contours;
use crate::edits::{area_change, is_in_range, one_change};
use crate::fault::BeginFault;
use crate::follow::follow;
use crate::mesh_numbers::{walked_measures, walked_numbers};
use crate::room::{forget_rows, room_of};
use crate::windows::{Window, write_window};
use brick_store::BrickStore;
use cached_mesh::{KeptVolume, MeshRoom, refresh_bricks, write_mesh};
use edit_log::{Change, EditLog};
use iso_base::{BenchFault, Level, MeshFormat, Point, SampleKind, Steps, Written};
use iso_io::Shelf;
use measure::Measures;
use mesh_cache::{Capacity, MeshCache};
use mesh_report::Report;
use mesh_text::TwoWayFormat;
use plane_contour::Contours;
use span_tree::SpanTree;
use std::alloc::Global;
use std::marker::Model;
use std::sync::ledger::Ledger;
use unpadded_volume::{place_in, plane_in, write_hex, write_text, write_volume};
use voxel_list::{FillBox, VoxelList};

/// A volume in bricks, a level, and the changes that led there or were taken back. Contracts see it as the state of the
/// machine, whose earlier and later states are those that the changes lead back and on to.
#[derive(Drop)]
pub struct Bench {
    pub(crate) alloc: Global,
    pub(crate) store: BrickStore,
    pub(crate) level: Level,
    log: EditLog,
    tree: SpanTree,
    cache: MeshCache,
    // Of use while a mesh is written.
    room: MeshRoom,
}

impl Model for Bench {
    ghost use Rattle.cached_mesh.specs.Rooms.{IsRoomFor};
    ghost use Rattle.bench_core.specs.History.{IsHistory, state_of};
    ghost use Rattle.bench_core.specs.Keeping.{IsKept, Workbench};

    ghost Value = { Workbench };

    ghost view = { λ b. record { state = state_of b.store b.level b.log; cache = b.cache } };

    ghost invariant = { λ b. IsHistory b.store b.level b.log
        × (IsKept b.store b.tree b.cache × IsRoomFor b.store b.level b.room) };
}

// How many points one `fill` may change.
const MOST_FILLED: u64 = 1_048_576;

impl Bench {
    /// A bench with neither past nor future. `LevelNotAbovePad` comes exactly where there is a pad and the level is not
    /// above it. On a refusal the volume is dropped.
    pub fn begin(
        alloc: Global,
        volume: VoxelList,
        level: Level,
        capacity: Capacity,
    ) -> Result<Bench, BeginFault>
        ensures opened { IfOk result (λ b. b ≡ first_bench volume level capacity) }
        ensures sound { IfOk result (λ b. IsState b.state) }
        ensures above { IfOk result (λ _. begin_fault volume.pad level ≡ None) }
        ensures fault { IfErr result (λ fault. (begin_fault volume.pad level ≡ Some fault)
            ⊎ ((fault ≡ BeginFault.Memory) × (begin_fault volume.pad level ≡ None))) }
    {
        // A level is refused before memory is asked for.
        if let Some(fault) = refusal_of(volume.pad(), level) {
            return Err(fault);
        }
        let store = BrickStore::of(alloc, volume)?;
        Bench::begin_over(alloc, store, level, capacity)
    }

    /// Opens a workbench on a volume that is in bricks already.
    pub fn begin_over(
        alloc: Global,
        store: BrickStore,
        level: Level,
        capacity: Capacity,
    ) -> Result<Bench, BeginFault>
        ensures opened { IfOk result (λ b. b ≡ first_bench store level capacity) }
        ensures sound { IfOk result (λ b. IsState b.state) }
        ensures above { IfOk result (λ _. begin_fault store.pad level ≡ None) }
        ensures fault { IfErr result (λ fault. (begin_fault store.pad level ≡ Some fault)
            ⊎ ((fault ≡ BeginFault.Memory) × (begin_fault store.pad level ≡ None))) }
    {
        if let Some(fault) = refusal_of(store.pad(), level) {
            return Err(fault);
        }
        let tree = SpanTree::of(alloc, &store)?;
        let cache = MeshCache::new(alloc, capacity)?;
        let log = EditLog::new(alloc)?;
        let room = room_of(alloc, &store.sizes())?;
        Ok(Bench {
            alloc,
            store,
            level,
            log,
            tree,
            cache,
            room,
        })
    }

    /// How much of the mesh may be kept. All that is kept is right for the volume, is of different bricks, and is within that.
    pub fn capacity(&self) -> Capacity
        ensures value { result ≡ self.now.cache.limits }
        ensures cache { IsCache self.now.cache }
        ensures sound { IsState self.now.state }
        ensures right { IsRightBench self.now }
    {
        self.cache.capacity()
    }

    /// Whether the volume has a pad.
    pub fn is_padded(&self) -> bool
        ensures { result ≡ is_some self.now.state.volume.pad }
    {
        self.store.pad().is_some()
    }

    /// Replaces one sample. Coordinates do not count the pad's layer. Refused, in this order: `Outside` exactly where
    /// the point is not in the unpadded volume; `ValueOutside` exactly where the value is not of the kind. Never `Memory`.
    pub fn set(&mut self, x: i64, y: i64, z: i64, value: i64) -> Result<(), BenchFault>
        ensures step { IsSureStep self.old.state self.new.state result (set_step self.old.state (x, y, z) value) }
        ensures kept { Keeps self.old self.new result (set_area self.old.state (x, y, z)) }
        ensures never_memory { IsErrOf result BenchFault.Memory → ⊥ }
        ensures not_shelf { IsErrOf result BenchFault.ShelfFailed → ⊥ }
    {
        let Some(point) = self.place(x, y, z) else {
            return Err(BenchFault::Outside);
        };
        self.set_at(point, value)
    }

    fn set_at(&mut self, point: Point, value: i64) -> Result<(), BenchFault>
        requires { IsInside self.old.state.volume point }
        ensures step { IsSureStep self.old.state self.new.state result (set_at self.old.state value (Some point)) }
        ensures kept { Keeps self.old self.new result (Some (between point point)) }
        ensures never_memory { IsErrOf result BenchFault.Memory → ⊥ }
        ensures not_shelf { IsErrOf result BenchFault.ShelfFailed → ⊥ }
    {
        let kind = self.store.kind();
        if !is_in_range(kind, value) {
            return Err(value_fault(kind));
        }
        let change = one_change(&self.store, point, &value);
        self.make(change);
        Ok(())
    }

    /// Replaces all samples of a box of two corners, x, y, z of each, in any order along each axis. Refused, in this
    /// order: `Outside` and `ValueOutside` as for `set`; `FillTooLarge` exactly where the box has more than 1,048,576
    /// points; `Memory`.
    pub fn fill(&mut self, corners: [i64; 6], value: i64) -> Result<(), BenchFault>
        ensures step { IsStep self.old.state self.new.state result
            (fill_step self.old.state (three_from corners 0) (three_from corners 3) value) }
        ensures kept { Keeps self.old self.new result
            (fill_area self.old.state (three_from corners 0) (three_from corners 3)) }
        ensures not_shelf { IsErrOf result BenchFault.ShelfFailed → ⊥ }
    {
        let [ax, ay, az, bx, by, bz] = corners;
        match self.area(ax, ay, az, bx, by, bz) {
            None => Err(BenchFault::Outside),
            Some(area) => self.fill_at(area, value),
        }
    }

    fn fill_at(&mut self, area: FillBox, value: i64) -> Result<(), BenchFault>
        requires low { IsInside self.old.state.volume area.low }
        requires high { IsInside self.old.state.volume area.high }
        ensures step { IsStep self.old.state self.new.state result (fill_at self.old.state value (Some area)) }
        ensures kept { Keeps self.old self.new result (Some area) }
        ensures not_shelf { IsErrOf result BenchFault.ShelfFailed → ⊥ }
    {
        let kind = self.store.kind();
        if !is_in_range(kind, value) {
            return Err(value_fault(kind));
        }
        let n = area.count();
        if n > MOST_FILLED {
            return Err(BenchFault::FillTooLarge { n });
        }
        let change = area_change(self.alloc, &self.store, &self.tree, area, &value)?;
        self.make(change);
        Ok(())
    }

    /// Replaces the level, given in thousandths. Refused, in this order: `LevelOutside` exactly where its absolute value is
    /// 2^33 times 1,000 or more; `LevelNotAbovePad` exactly where there is a pad and the level is not above it. Never `Memory`.
    pub fn level(&mut self, value: i128) -> Result<(), BenchFault>
        ensures step { IsSureStep self.old.state self.new.state result (level_step self.old.state value) }
        ensures kept { self.new.cache ≡ self.old.cache }
        ensures never_memory { IsErrOf result BenchFault.Memory → ⊥ }
        ensures not_shelf { IsErrOf result BenchFault.ShelfFailed → ⊥ }
    {
        // Reading the sizes brings in what is true of every volume.
        let _ = self.store.sizes();
        let old = self.level;
        let new = check_level(self.store.pad(), value)?;
        self.make(Change::LevelWas { old, new });
        Ok(())
    }

    /// Makes a change and puts it in the log. What is kept for bricks goes stale where the change has points.
    fn make(&mut self, change: Change)
        requires suits { Suits self.old.state.volume change }
        requires back { before change (after change (moment self.old.state.volume self.old.state.level))
            ≡ moment self.old.state.volume self.old.state.level }
        requires above { IsAbovePad self.old.state.volume.pad
            (after change (moment self.old.state.volume self.old.state.level)).level }
        ensures state { let next = after change (moment self.old.state.volume self.old.state.level) in
            self.new.state ≡ changed self.old.state next.volume.samples next.level
            (area_of self.old.state.volume.grid change) }
        ensures kept { self.new.cache ≡ without_points self.old.state.volume.grid
            (area_of self.old.state.volume.grid change) self.old.cache }
    {
        let area = change.area(&self.store);
        let value = change.value();
        change.make(&mut self.store, &mut self.level);
        // Reading the sizes brings in what is true of every volume.
        let _ = self.store.sizes();
        let same_area = area;
        follow(&mut self.tree, &mut self.cache, &self.store, area, value);
        forget_rows(&mut self.room, same_area);
        self.log.push(change);
    }

    /// Goes back to the newest earlier volume and level. `NothingToUndo` comes exactly where there is none. Never `Memory`.
    pub fn undo(&mut self) -> Result<(), BenchFault>
        ensures step { IsSureStep self.old.state self.new.state result (undo_step self.old.state) }
        ensures kept { Keeps self.old self.new result (first_area self.old.state.past) }
        ensures never_memory { IsErrOf result BenchFault.Memory → ⊥ }
        ensures not_shelf { IsErrOf result BenchFault.ShelfFailed → ⊥ }
    {
        let Some(change) = self.log.undo() else {
            return Err(BenchFault::NothingToUndo);
        };
        let area = change.area(&self.store);
        // Reading the sizes brings in what is true of every volume.
        let _ = self.store.sizes();
        change.take_back(&mut self.store, &mut self.level);
        let same_area = area;
        follow(&mut self.tree, &mut self.cache, &self.store, area, None);
        forget_rows(&mut self.room, same_area);
        Ok(())
    }

    /// Goes on to the next later volume and level. `NothingToRedo` comes exactly where there is none. Never `Memory`.
    pub fn redo(&mut self) -> Result<(), BenchFault>
        ensures step { IsSureStep self.old.state self.new.state result (redo_step self.old.state) }
        ensures kept { Keeps self.old self.new result (first_area self.old.state.future) }
        ensures never_memory { IsErrOf result BenchFault.Memory → ⊥ }
        ensures not_shelf { IsErrOf result BenchFault.ShelfFailed → ⊥ }
    {
        let Some(change) = self.log.redo() else {
            return Err(BenchFault::NothingToRedo);
        };
        let area = change.area(&self.store);
        let filled = change.value();
        // Reading the sizes brings in what is true of every volume.
        let _ = self.store.sizes();
        change.make(&mut self.store, &mut self.level);
        let same_area = area;
        follow(&mut self.tree, &mut self.cache, &self.store, area, filled);
        forget_rows(&mut self.room, same_area);
        Ok(())
    }

    /// A refresh turn: what is to be kept of the first `n` active bricks of which nothing is kept at the level, ascending, is
    /// offered to the cache. The counter rises by at most 512 for each.
    pub fn work<L: Ledger>(&mut self, n: u32, steps: &mut Steps<L>)
        ensures { Refreshes self.old self.new (take n (waiting_bricks self.old)) turn_steps steps.old steps.new }
    {
        let (store, tree) = (&self.store, &self.tree);
        refresh_bricks(&mut self.cache, store, tree, self.level, n, steps);
    }

    /// A refresh turn for all of these bricks.
    fn refresh_all<L: Ledger>(&mut self, steps: &mut Steps<L>)
        ensures { Refreshes self.old self.new (waiting_bricks self.old) turn_steps steps.old steps.new }
    {
        // Reading the sizes brings in what is true of every volume.
        let _ = self.store.sizes();
        self.work(u32::MAX, steps);
    }

    /// Makes the name's file the PLY text of the mesh, which is written as it is made. What waits is refreshed first, in every
    /// case; the state stays. `ShelfFailed` comes only where the shelf's count of faults rose; the file is then as before or a
    /// front of the text, and all other files are as before. The counter rises by at most 2,048 for each brick that waited. No
    /// memory is taken but what the cache keeps, and where that cannot be had the write goes on.
    pub fn write_ply<H: Shelf, L: Ledger>(
        &mut self,
        shelf: &mut H,
        name: &str,
        steps: &mut Steps<L>,
    ) -> Result<Written, BenchFault>
        ensures refreshed { Refreshes self.old self.new (waiting_bricks self.old) write_steps steps.old steps.new }
        ensures file { WritesFile (H.seen shelf.old) (H.seen shelf.new) result name.now (ply_text self.old.state)
            (ply_written self.old.state) }
        ensures surface { OnOk result (IsWatertight self.old.state.volume self.old.state.level) }
        ensures never_memory { IsErrOf result BenchFault.Memory → ⊥ }
    {
        self.write_as(shelf, name, TwoWayFormat::Ply, steps)
    }

    /// Makes the name's file the OBJ text of the mesh; all else is as for `write_ply`.
    pub fn write_obj<H: Shelf, L: Ledger>(
        &mut self,
        shelf: &mut H,
        name: &str,
        steps: &mut Steps<L>,
    ) -> Result<Written, BenchFault>
        ensures refreshed { Refreshes self.old self.new (waiting_bricks self.old) write_steps steps.old steps.new }
        ensures file { WritesFile (H.seen shelf.old) (H.seen shelf.new) result name.now (obj_text self.old.state)
            (obj_written self.old.state) }
        ensures surface { OnOk result (IsWatertight self.old.state.volume self.old.state.level) }
        ensures never_memory { IsErrOf result BenchFault.Memory → ⊥ }
    {
        self.write_as(shelf, name, TwoWayFormat::Obj, steps)
    }

    fn write_as<H: Shelf, L: Ledger>(
        &mut self,
        shelf: &mut H,
        name: &str,
        format: TwoWayFormat,
        steps: &mut Steps<L>,
    ) -> Result<Written, BenchFault>
        ensures refreshed { Refreshes self.old self.new (waiting_bricks self.old) write_steps steps.old steps.new }
        ensures file { WritesFile (H.seen shelf.old) (H.seen shelf.new) result name.now
            (text_of_state format self.old.state) (mesh_written format self.old.state) }
        ensures surface { OnOk result (IsWatertight self.old.state.volume self.old.state.level) }
        ensures never_memory { IsErrOf result BenchFault.Memory → ⊥ }
    {
        self.refresh_all(steps);
        self.write_kept(shelf, name, format, steps)
    }

    /// Writes the mesh by what is kept of it.
    fn write_kept<H: Shelf, L: Ledger>(
        &mut self,
        shelf: &mut H,
        name: &str,
        format: TwoWayFormat,
        steps: &mut Steps<L>,
    ) -> Result<Written, BenchFault>
        ensures same { self.new ≡ self.old }
        ensures file { WritesFile (H.seen shelf.old) (H.seen shelf.new) result name.now
            (text_of_state format self.old.state) (mesh_written format self.old.state) }
        ensures surface { IsWatertight self.old.state.volume self.old.state.level }
        ensures never_memory { IsErrOf result BenchFault.Memory → ⊥ }
        ensures least { steps.old ≤ steps.new }
        ensures most { steps.new ≤ steps.old + 1536 * length (waiting_bricks self.old) }
    {
        let volume = KeptVolume {
            store: &self.store,
            tree: &self.tree,
            cache: &self.cache,
            level: self.level,
        };
        let written = write_mesh(shelf, name, &volume, format, &mut self.room, steps)?;
        Ok(written)
    }

    /// Makes the name's file the volume without its pad, and says how many bytes it has. `ShelfFailed` comes only where
    /// the shelf's count of faults rose; the file is then as before or a front of the text, and all other files are as
    /// before. No memory is taken.
    pub fn save<H: Shelf>(&self, shelf: &mut H, name: &str) -> Result<u64, BenchFault>
        ensures file { WritesFile (H.seen shelf.old) (H.seen shelf.new) result name.now (raw_save self.now.state)
            (length (raw_save self.now.state)) }
        ensures read_again { nrrd_of (raw_save self.now.state) ≡ Ok (inner_voxels self.now.state.volume, 0) }
        ensures never_memory { IsErrOf result BenchFault.Memory → ⊥ }
    {
        Ok(write_volume(shelf, name, &self.store)?)
    }

    /// Makes the name's file the volume without its pad, as lines of numbers: a row of samples in a line. It is refused as
    /// `save` is, and no memory is taken.
    pub fn save_text<H: Shelf>(&self, shelf: &mut H, name: &str) -> Result<u64, BenchFault>
        ensures file { WritesFile (H.seen shelf.old) (H.seen shelf.new) result name.now (text_save self.now.state)
            (length (text_save self.now.state)) }
        ensures read_again { nrrd_of (text_save self.now.state) ≡ Ok (inner_voxels self.now.state.volume, 1) }
        ensures never_memory { IsErrOf result BenchFault.Memory → ⊥ }
    {
        Ok(write_text(shelf, name, &self.store)?)
    }

    /// Makes the name's file the volume without its pad, as lines of hex digits: a row of samples in a line, the low byte
    /// of each first. It is refused as `save` is, and no memory is taken.
    pub fn save_hex<H: Shelf>(&self, shelf: &mut H, name: &str) -> Result<u64, BenchFault>
        ensures file { WritesFile (H.seen shelf.old) (H.seen shelf.new) result name.now (hex_save self.now.state)
            (length (hex_save self.now.state)) }
        ensures read_again { nrrd_of (hex_save self.now.state) ≡ Ok (inner_voxels self.now.state.volume, 1) }
        ensures never_memory { IsErrOf result BenchFault.Memory → ⊥ }
    {
        Ok(write_hex(shelf, name, &self.store)?)
    }

    /// Makes the name's file the mesh of a box of two corners, x, y, z of each, in any order along each axis: as if its points
    /// were a volume of their own, without a pad, in its place in the unpadded volume. It is the part of the whole mesh in the
    /// box, and its cost grows with the box alone. Refused, in this order: `Outside` exactly where a corner is not in the unpadded
    /// volume; `WindowThin` exactly where the box has fewer than two points along an axis, with the first such; `Memory`;
    /// `ShelfFailed` only where the shelf's count of faults rose, the file then being as before or a front of the text, and all
    /// other files as before. Before that the shelf is not touched.
    pub fn window<H: Shelf>(
        &self,
        shelf: &mut H,
        name: &str,
        corners: [i64; 6],
        format: MeshFormat,
    ) -> Result<Written, BenchFault>
        ensures window { let v = self.now.state.volume in
            WritesWindow v self.now.state.level (window_area v corners) format (H.seen shelf.old) (H.seen shelf.new)
            result name.now }
        ensures part { let v = self.now.state.volume in
            OnOk result (IsSomeAnd (window_area v corners) (IsWindowOfMesh v self.now.state.level)) }
    {
        let Some(area) = self.box_of(corners) else {
            return Err(BenchFault::Outside);
        };
        let window = Window { area, format, name };
        write_window(self.alloc, &self.store, self.level, &window, shelf)
    }

    /// The contour lines of plane z = k, with stored coordinates; with a pad they go over the pad's ring too. They lie
    /// in the mesh. The cost grows with the plane alone. Refused, in this order: `NoSuchPlane` exactly where k is not a
    /// plane of the unpadded volume; `Memory`.
    pub fn contour(&self, k: i64) -> Result<Contours, BenchFault>
        ensures step { IsStep self.now.state self.now.state result (contour_step self.now.state k) }
        ensures lines { IfOk result (λ c. c ≡ contour_of self.now.state k) }
        ensures cut { OnOk result (IsSomeAnd (plane_of self.now.state.volume k)
            (IsCutOfMesh self.now.state.volume self.now.state.level)) }
        ensures not_shelf { IsErrOf result BenchFault.ShelfFailed → ⊥ }
    {
        let Some(plane) = self.plane(k) else {
            return Err(BenchFault::NoSuchPlane { k });
        };
        Ok(plane_contours(self.alloc, &self.store, self.level, plane)?)
    }

    /// The numbers of the mesh, and of each of its components by its least vertex. `Memory` is its only refusal.
    pub fn report(&self) -> Result<Report, BenchFault>
        ensures step { IsStep self.now.state self.now.state result (Ok self.now.state) }
        ensures numbers { IfOk result (λ r. r ≡ report_of self.now.state) }
        ensures memory { IfErr result (λ fault. fault ≡ BenchFault.Memory) }
        ensures not_shelf { IsErrOf result BenchFault.ShelfFailed → ⊥ }
    {
        Ok(walked_numbers(self.alloc, &self.store, &self.tree, &self.cache, self.level)?)
    }

    /// The signed volume, the area and the border of each component of the mesh, by its least vertex, at the positions
    /// that are printed. A component without border has no area, and its volume is the same from every point; with a
    /// pad none has a border. `Memory` is its only refusal.
    pub fn measure(&self) -> Result<Measures, BenchFault>
        ensures step { IsStep self.now.state self.now.state result (Ok self.now.state) }
        ensures measures { IfOk result (λ m. m ≡ measure_of self.now.state) }
        ensures areas { IfOk result (λ m. All HasNoArea m) }
        ensures volumes { IfOk result (λ m. All (HasOneVolumeIn self.now.state.volume self.now.state.level) m) }
        ensures closed { IfOk result (λ m. IfSome self.now.state.volume.pad (λ _. All HasNoBorder m)) }
        ensures memory { IfErr result (λ fault. fault ≡ BenchFault.Memory) }
        ensures not_shelf { IsErrOf result BenchFault.ShelfFailed → ⊥ }
    {
        Ok(walked_measures(self.alloc, &self.store, &self.tree, &self.cache, self.level)?)
    }

    /// The stored plane of one that does not count the pad's layer.
    fn plane(&self, k: i64) -> Option<u32>
        ensures plane { result ≡ plane_of self.now.state.volume k }
        ensures within { IfSome result (λ p. p < self.now.state.volume.grid.nz) }
    {
        plane_in(&self.store, k)
    }

    /// The stored point of coordinates that do not count the pad's layer.
    fn place(&self, x: i64, y: i64, z: i64) -> Option<Point>
        ensures place { result ≡ place_of self.now.state.volume (x, y, z) }
        ensures inside { IfSome result (IsInside self.now.state.volume) }
    {
        place_in(&self.store, x, y, z)
    }

    /// The stored box of two corners that do not count the pad's layer, x, y, z of each.
    fn box_of(&self, corners: [i64; 6]) -> Option<FillBox>
        ensures area { result ≡ window_area self.now.state.volume corners }
        ensures low { IfSome result (λ a. IsInside self.now.state.volume a.low) }
        ensures high { IfSome result (λ a. IsInside self.now.state.volume a.high) }
    {
        let [ax, ay, az, bx, by, bz] = corners;
        self.area(ax, ay, az, bx, by, bz)
    }

    /// The stored box of two corners that do not count the pad's layer.
    fn area(&self, ax: i64, ay: i64, az: i64, bx: i64, by: i64, bz: i64) -> Option<FillBox>
        ensures area { result ≡ area_by (place_of self.now.state.volume (ax, ay, az))
            (place_of self.now.state.volume (bx, by, bz)) }
        ensures low { IfSome result (λ a. IsInside self.now.state.volume a.low) }
        ensures high { IfSome result (λ a. IsInside self.now.state.volume a.high) }
    {
        let a = self.place(ax, ay, az)?;
        let b = self.place(bx, by, bz)?;
        Some(FillBox::between(&self.store.sizes(), a, b))
    }
}

fn value_fault(kind: SampleKind) -> BenchFault
    ensures { result ≡ BenchFault.ValueOutside (least_of kind) (greatest_of kind) }
{
    BenchFault::ValueOutside {
        least: kind.least(),
        greatest: kind.greatest(),
    }
}

/// Why a bench is not opened on a volume with this pad at a level.
fn refusal_of(pad: Option<i64>, level: Level) -> Option<BeginFault>
    requires { IfSome pad IsSample }
    ensures fault { result ≡ begin_fault pad level }
    ensures above { IfNone result (IsAbovePad pad level) }
{
    match pad {
        Some(pad) if !level.is_above_pad(pad) => Some(BeginFault::LevelNotAbovePad {
            level: level.value(),
            pad,
        }),
        _ => None,
    }
}

/// Why a bench with this pad does not take a level.
fn not_above(pad: Option<i64>, level: Level) -> Option<BenchFault>
    requires { IfSome pad IsSample }
    ensures fault { result ≡ pad_fault pad level }
    ensures not_shelf { IfSome result (λ fault. fault ≡ BenchFault.ShelfFailed → ⊥) }
    ensures above { IfNone result (IsAbovePad pad level) }
{
    match pad {
        Some(pad) if !level.is_above_pad(pad) => Some(BenchFault::LevelNotAbovePad {
            level: level.value(),
            pad,
        }),
        _ => None,
    }
}

/// A level of so many thousandths, within the limit and above the pad.
fn check_level(pad: Option<i64>, value: i128) -> Result<Level, BenchFault>
    requires { IfSome pad IsSample }
    ensures level { result ≡ checked_level pad value }
    ensures above { IfOk result (IsAbovePad pad) }
    ensures not_shelf { IsErrOf result BenchFault.ShelfFailed → ⊥ }
{
    let Some(level) = Level::new(value) else {
        return Err(BenchFault::LevelOutside);
    };
    match not_above(pad, level) {
        None => Ok(level),
        Some(fault) => Err(fault),
    }
}
