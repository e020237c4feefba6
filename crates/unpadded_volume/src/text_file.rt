//! A volume without its pad in print, as a file of a shelf: a row of samples in a line.

ghost use Rattle.std.specs.Prelude.{◌≡◌, ◌+◌, ◌*◌, ◌<◌, ◌≤◌, length, map, take, drop, flat_map, All, Ok, IfOk};
ghost use Rattle.iso_base.specs.Volume.{inner_grid, IsOfKind};
ghost use Rattle.byte_streams.specs.Seen.{Puts, Stages};
ghost use Rattle.iso_io.specs.Shelves.{Stores};
ghost use Rattle.nrrd_read.specs.Nrrd.{nrrd_of};
ghost use Rattle.nrrd.specs.Writing.{coded_line, rows_of};
ghost use Rattle.brick_store.specs.Copies.{AreAllCopies};
ghost use Rattle.unpadded_volume.specs.Held.{AreHeld};
ghost use Rattle.unpadded_volume.specs.Unpadded.{inner_samples, inner_voxels, saved_as_hex, saved_as_text, saved_in_print};

use crate::places::inner_sizes;
use crate::rows::copy_rows;
use brick_store::BrickStore;
use iso_base::{SampleKind, Sizes};
use iso_io::{Failed, FileText, Shelf, Sink, write_all_of, write_file};
use mesh_text::Fours;
use nrrd::{coded_head_bytes, put_coded_head};
use nrrd_text::{SampleLines, gather_hex, gather_text};
use number_digits::{Counted, Digits};
use packed_samples::PackedRun;
use samples::Packed;

/// So many bytes of stack are taken to write a file in print, beyond the buffers of `write_printed`, which are in its own
/// frame: those of `Fours::new`. `tools/measure_stack.py` finds whether they are enough.
const STACK_BYTES: usize = 120_000;

/// The most samples in the rows that bricks have of a plane: nine rows of 1,026.
const HELD_SAMPLES: usize = 9_234;

/// Rows that a block holds: from one to before another.
#[derive(Clone, Copy)]
struct Held {
    first: u32,
    end: u32,
}

/// Sees to it that a block holds a row, which comes behind those that it held.
fn hold_row<T: Packed>(
    store: &BrickStore,
    copies: &[T],
    sizes: &Sizes,
    number: u32,
    held: Held,
    block: &mut [T],
) -> Held
    requires copies { AreAllCopies store.now.grid store.now.samples (map T.value copies.now) }
    requires sizes { sizes.now ≡ inner_grid store.now }
    requires number { number < sizes.now.ny * sizes.now.nz }
    requires room { length block.old ≡ 9234 }
    requires held { AreHeld store.now held (map T.value block.old) }
    requires first { held.first ≤ number }
    requires next { number ≤ held.end }
    ensures held { AreHeld store.now result (map T.value block.new) }
    ensures first { result.first ≤ number }
    ensures holds { number < result.end }
{
    // Reading a size brings in that the sizes are those of a grid.
    let _ = sizes.nx();
    if number < held.end {
        return held;
    }
    Held {
        first: number,
        end: copy_rows(store, copies, sizes, number, block),
    }
}

/// A row that a block holds.
fn held_row<'a, T: Packed>(
    store: &BrickStore,
    sizes: &Sizes,
    number: u32,
    held: Held,
    block: &'a [T],
) -> &'a [T]
    requires sizes { sizes.now ≡ inner_grid store.now }
    requires number { number < sizes.now.ny * sizes.now.nz }
    requires room { length block.now ≡ 9234 }
    requires held { AreHeld store.now held (map T.value block.now) }
    requires first { held.first ≤ number }
    requires holds { number < held.end }
    ensures value { map T.value result.now ≡ take sizes.now.nx
        (drop (number * sizes.now.nx) (inner_samples store.now)) }
    ensures each { All (IsOfKind store.now.kind) (map T.value result.now) }
{
    // Reading the sizes brings in what is true of every volume.
    let _ = store.sizes();
    let width = sizes.nx() as usize;
    let from = (number - held.first) as usize * width;
    &block[from..from + width]
}

/// Puts the line of a row behind what waits, and says how many bytes it has.
fn gather_row<K: Sink, D: Digits, T: Packed>(
    sink: &mut K,
    waiting: &mut SampleLines,
    digits: &D,
    kind: SampleKind,
    hex: bool,
    row: &[T],
) -> Result<u64, Failed>
    requires each { All (IsOfKind kind) (map T.value row.now) }
    requires few { length row.now ≤ 1026 }
    ensures line { Stages (K.seen sink.old) (K.seen sink.new) waiting.old waiting.new result
        (coded_line hex kind (map T.value row.now)) }
    ensures bytes { IfOk result (λ n. n ≡ length (coded_line hex kind (map T.value row.now))) }
    ensures bound { IfOk result (λ n. n ≤ 25000) }
{
    if hex {
        gather_hex(sink, waiting, kind, row)
    } else {
        gather_text(sink, waiting, digits, kind, row)
    }
}

/// Puts the lines of all rows off the pad's layer behind what waits, and says how many bytes they have.
fn gather_rows<K: Sink, D: Digits, T: Packed>(
    sink: &mut K,
    waiting: &mut SampleLines,
    digits: &D,
    store: &BrickStore,
    copies: &[T],
    sizes: &Sizes,
    hex: bool,
    block: &mut [T],
) -> Result<u64, Failed>
    requires copies { AreAllCopies store.now.grid store.now.samples (map T.value copies.now) }
    requires sizes { sizes.now ≡ inner_grid store.now }
    requires room { length block.old ≡ 9234 }
    ensures lines { Stages (K.seen sink.old) (K.seen sink.new) waiting.old waiting.new result
        (flat_map (coded_line hex store.now.kind) (rows_of (inner_voxels store.now))) }
    ensures bytes { IfOk result (λ n. n ≡ length
        (flat_map (coded_line hex store.now.kind) (rows_of (inner_voxels store.now)))) }
    ensures bound { IfOk result (λ n. n ≤ 25000 * (sizes.now.ny * sizes.now.nz)) }
{
    let kind = store.kind();
    let mut bytes = 0u64;
    let mut held = Held { first: 0, end: 0 };
    for number in 0..sizes.ny() * sizes.nz() {
        held = hold_row(store, copies, sizes, number, held, block);
        let row = held_row(store, sizes, number, held, block);
        bytes += gather_row(sink, waiting, digits, kind, hex, row)?;
    }
    Ok(bytes)
}

/// Writes the lines of all rows off the pad's layer, by way of a block, and says how many bytes they have.
fn put_packed<K: Sink, D: Digits, T: Packed>(
    sink: &mut K,
    digits: &D,
    store: &BrickStore,
    copies: &[T],
    sizes: &Sizes,
    hex: bool,
    block: &mut [T],
) -> Result<u64, Failed>
    requires copies { AreAllCopies store.now.grid store.now.samples (map T.value copies.now) }
    requires sizes { sizes.now ≡ inner_grid store.now }
    requires room { length block.old ≡ 9234 }
    ensures lines { Puts (K.seen sink.old) (K.seen sink.new) result
        (flat_map (coded_line hex store.now.kind) (rows_of (inner_voxels store.now))) }
    ensures bytes { IfOk result (λ n. n ≡ length
        (flat_map (coded_line hex store.now.kind) (rows_of (inner_voxels store.now)))) }
    ensures bound { IfOk result (λ n. n ≤ 25000 * (sizes.now.ny * sizes.now.nz)) }
{
    let mut waiting = SampleLines::new();
    let bytes = gather_rows(sink, &mut waiting, digits, store, copies, sizes, hex, block)?;
    write_all_of(sink, waiting.as_bytes())?;
    Ok(bytes)
}

/// Writes the lines of all rows off the pad's layer, and says how many bytes they have. Rows stay packed until they are
/// printed.
fn put_rows<K: Sink, D: Digits>(
    sink: &mut K,
    digits: &D,
    store: &BrickStore,
    sizes: &Sizes,
    hex: bool,
) -> Result<u64, Failed>
    requires { sizes.now ≡ inner_grid store.now }
    ensures lines { Puts (K.seen sink.old) (K.seen sink.new) result
        (flat_map (coded_line hex store.now.kind) (rows_of (inner_voxels store.now))) }
    ensures bytes { IfOk result (λ n. n ≡ length
        (flat_map (coded_line hex store.now.kind) (rows_of (inner_voxels store.now)))) }
    ensures bound { IfOk result (λ n. n ≤ 25000 * (sizes.now.ny * sizes.now.nz)) }
{
    match store.copies() {
        PackedRun::U8(copies) => {
            put_packed(
                sink,
                digits,
                store,
                copies,
                sizes,
                hex,
                &mut [0u8; HELD_SAMPLES],
            )
        }
        PackedRun::I16(copies) => {
            put_packed(
                sink,
                digits,
                store,
                copies,
                sizes,
                hex,
                &mut [0i16; HELD_SAMPLES],
            )
        }
        PackedRun::U16(copies) => {
            put_packed(
                sink,
                digits,
                store,
                copies,
                sizes,
                hex,
                &mut [0u16; HELD_SAMPLES],
            )
        }
        PackedRun::I32(copies) => {
            put_packed(
                sink,
                digits,
                store,
                copies,
                sizes,
                hex,
                &mut [0i32; HELD_SAMPLES],
            )
        }
        PackedRun::I64(copies) => {
            put_packed(
                sink,
                digits,
                store,
                copies,
                sizes,
                hex,
                &mut [0i64; HELD_SAMPLES],
            )
        }
    }
}

/// Appends the rows as `put_rows` does, in hex digits or as numbers. A table of the digits of numbers is made only for numbers.
fn put_coded_rows<K: Sink>(
    sink: &mut K,
    store: &BrickStore,
    sizes: &Sizes,
    hex: bool,
) -> Result<u64, Failed>
    requires { sizes.now ≡ inner_grid store.now }
    ensures lines { Puts (K.seen sink.old) (K.seen sink.new) result
        (flat_map (coded_line hex store.now.kind) (rows_of (inner_voxels store.now))) }
    ensures bytes { IfOk result (λ n. n ≡ length
        (flat_map (coded_line hex store.now.kind) (rows_of (inner_voxels store.now)))) }
    ensures bound { IfOk result (λ n. n ≤ 25000 * (sizes.now.ny * sizes.now.nz)) }
{
    if hex {
        put_rows(sink, &Counted, store, sizes, hex)
    } else {
        put_rows(sink, &Fours::new(), store, sizes, hex)
    }
}

/// Writes the volume without its pad in print, a head and its rows, and says how many bytes they have.
fn put_printed<K: Sink>(
    sink: &mut K,
    store: &BrickStore,
    sizes: &Sizes,
    hex: bool,
) -> Result<u64, Failed>
    requires { sizes.now ≡ inner_grid store.now }
    ensures text { Puts (K.seen sink.old) (K.seen sink.new) result (saved_in_print hex store.now) }
    ensures bytes { IfOk result (λ n. n ≡ length (saved_in_print hex store.now)) }
{
    // Reading a size brings in that the sizes are those of a grid.
    let _ = sizes.nx();
    let kind = store.kind();
    put_coded_head(sink, sizes, kind, hex)?;
    let bytes = put_coded_rows(sink, store, sizes, hex)?;
    Ok(coded_head_bytes(sizes, kind, hex) + bytes)
}

/// The text of the file.
#[derive(Drop)]
struct PrintedText<'a> {
    store: &'a BrickStore,
    hex: bool,
}

impl<'a> FileText for PrintedText<'a> {
    type Told = u64;

    ghost text = { λ t. saved_in_print t.hex t.store.now };

    ghost tells = { λ t bytes. bytes ≡ length (saved_in_print t.hex t.store.now) };

    ghost stays = { λ _. tt };

    fn put<K: Sink>(&mut self, sink: &mut K) -> Result<u64, Failed> {
        let sizes = inner_sizes(self.store);
        put_printed(sink, self.store, &sizes, self.hex)
    }
}

/// Makes the name's file the volume without its pad in print, and says how many bytes it has.
fn write_printed<H: Shelf>(
    shelf: &mut H,
    name: &str,
    store: &BrickStore,
    hex: bool,
) -> Result<u64, Failed>
    ensures file { Stores (H.seen shelf.old) (H.seen shelf.new) result name.now (saved_in_print hex store.now) }
    ensures bytes { IfOk result (λ n. n ≡ length (saved_in_print hex store.now)) }
    ensures read_again { nrrd_of (saved_in_print hex store.now) ≡ Ok (inner_voxels store.now, 1) }
{
    // Reading the sizes brings in what is true of every volume.
    let _ = store.sizes();
    write_file::<_, _, STACK_BYTES>(shelf, name, &mut PrintedText { store, hex })
}

/// Makes the name's file the volume without its pad as lines of numbers, and says how many bytes it has. `Failed` comes
/// only where the shelf's count rose; the file is then as before or a front of the text, and all other files are as
/// before. No memory is taken.
pub fn write_text<H: Shelf>(shelf: &mut H, name: &str, store: &BrickStore) -> Result<u64, Failed>
    ensures file { Stores (H.seen shelf.old) (H.seen shelf.new) result name.now (saved_as_text store.now) }
    ensures bytes { IfOk result (λ n. n ≡ length (saved_as_text store.now)) }
    ensures read_again { nrrd_of (saved_as_text store.now) ≡ Ok (inner_voxels store.now, 1) }
{
    write_printed(shelf, name, store, false)
}

/// Makes the name's file the volume without its pad as lines of hex digits, as `write_text` does.
pub fn write_hex<H: Shelf>(shelf: &mut H, name: &str, store: &BrickStore) -> Result<u64, Failed>
    ensures file { Stores (H.seen shelf.old) (H.seen shelf.new) result name.now (saved_as_hex store.now) }
    ensures bytes { IfOk result (λ n. n ≡ length (saved_as_hex store.now)) }
    ensures read_again { nrrd_of (saved_as_hex store.now) ≡ Ok (inner_voxels store.now, 1) }
{
    write_printed(shelf, name, store, true)
}
