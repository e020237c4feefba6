//! What the tests ask of a bench. Each call of the workbench stands here once, in a function that promises nothing, so that a
//! test that makes many of them is proved without what each promises.

ghost use Rattle.std.specs.Prelude.{◌≡◌, ◌<◌};

use bench_core::{Bench, BenchFault, Capacity, Contours, Report};
use iso_base::{Level, Memory, MeshFormat, Steps, Written};
use iso_io::MemShelf;
use mesh_text::TwoWayFormat;
use std::alloc::Global;
use std::marker::Brand;
use std::sync::ledger::{Blank, Ledger};
use voxel_list::VoxelList;

/// A change of a bench.
#[derive(Clone, Copy, Debug)]
pub enum Edit {
    Set([i64; 3], i64),
    Fill([i64; 6], i64),
    Level(i128),
    Undo,
    Redo,
}

/// How a volume is saved.
#[derive(Clone, Copy, Debug)]
pub enum SaveAs {
    Raw,
    Text,
    Hex,
}

/// A bench at a level in thousandths.
pub fn begin(alloc: Global, volume: VoxelList, level: i128, capacity: Capacity) -> Option<Bench> {
    Bench::begin(alloc, volume, Level::new(level)?, capacity).ok()
}

pub fn change(bench: &mut Bench, asked: Edit) -> Result<(), BenchFault> {
    match asked {
        Edit::Set(at, value) => bench.set(at[0], at[1], at[2], value),
        Edit::Fill(corners, value) => bench.fill(corners, value),
        Edit::Level(value) => bench.level(value),
        Edit::Undo => bench.undo(),
        Edit::Redo => bench.redo(),
    }
}

pub fn save(
    bench: &Bench,
    shelf: &mut MemShelf,
    name: &str,
    asked: SaveAs,
) -> Result<u64, BenchFault> {
    match asked {
        SaveAs::Raw => bench.save(shelf, name),
        SaveAs::Text => bench.save_text(shelf, name),
        SaveAs::Hex => bench.save_hex(shelf, name),
    }
}

pub fn window(
    bench: &Bench,
    shelf: &mut MemShelf,
    corners: [i64; 6],
    format: MeshFormat,
) -> Result<Written, BenchFault> {
    bench.window(shelf, "w", corners, format)
}

pub fn report(bench: &Bench) -> Result<Report, BenchFault> {
    bench.report()
}

pub fn contour(bench: &Bench, k: i64) -> Result<Contours, BenchFault> {
    bench.contour(k)
}

/// Which file is written, and in which format.
#[derive(Clone, Copy)]
struct Order<'a> {
    file: &'a str,
    format: TwoWayFormat,
}

fn counted_write<L: Ledger>(
    blank: Blank,
    bench: &mut Bench,
    shelf: &mut MemShelf,
    order: &Order<'_>,
) -> Result<Written, BenchFault>
    requires name { blank.name ≡ L.name }
    requires parts { blank.parts ≡ L.parts }
    requires some { 0 < blank.parts }
{
    let (book, share) = blank.open::<L>();
    let mut steps = Steps::new(book, share);
    match order.format {
        TwoWayFormat::Ply => bench.write_ply(shelf, order.file, &mut steps),
        TwoWayFormat::Obj => bench.write_obj(shelf, order.file, &mut steps),
    }
}

/// Writes the mesh, with a counter of its own.
pub fn write(
    bench: &mut Bench,
    shelf: &mut MemShelf,
    file: &str,
    format: TwoWayFormat,
) -> Result<Written, BenchFault> {
    let order = Order { file, format };
    counted_write::<Brand>(Blank::new(1), bench, shelf, &order)
}

fn counted_work<L: Ledger>(blank: Blank, bench: &mut Bench, n: u32)
    requires name { blank.name ≡ L.name }
    requires parts { blank.parts ≡ L.parts }
    requires some { 0 < blank.parts }
{
    let (book, share) = blank.open::<L>();
    bench.work(n, &mut Steps::new(book, share));
}

/// Takes so many turns, with a counter of its own.
pub fn work(bench: &mut Bench, n: u32) {
    counted_work::<Brand>(Blank::new(1), bench, n);
}

/// A shelf whose calls of these numbers fail. No test writes more files, or longer ones, than it has room for.
pub fn shelf(alloc: Global, failing: &[u64]) -> Result<MemShelf, Memory> {
    MemShelf::new(alloc, 3, 65_536, Vec::from_slice(alloc, failing)?)
}

/// Whether a file of the shelf is this text.
pub fn has_file(shelf: &MemShelf, name: &str, text: &str) -> bool {
    match shelf.file(name) {
        Some(held) => held == text.as_bytes(),
        None => false,
    }
}
