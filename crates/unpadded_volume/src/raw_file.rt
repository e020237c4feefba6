//! A volume without its pad, as a file of a shelf.

ghost use Rattle.std.specs.Prelude.{◌≡◌, ◌⊎◌, ◌+◌, ◌-◌, ◌≤◌, length, map, take, All, Ok, IfOk, OnErr};
ghost use Rattle.iso_base.specs.Volume.{inner_grid, IsOfKind};
ghost use Rattle.byte_streams.specs.Seen.{Puts};
ghost use Rattle.iso_io.specs.Shelves.{Stores};
ghost use Rattle.nrrd_read.specs.Nrrd.{nrrd_of};
ghost use Rattle.nrrd.specs.Writing.{samples_text};
ghost use Rattle.brick_store.specs.Copies.{AreAllCopies};
ghost use Rattle.unpadded_volume.specs.Unpadded.{inner_samples, inner_voxels, saved_text};

use crate::places::inner_sizes;
use crate::rows::copy_rows;
use brick_store::BrickStore;
use iso_base::{SampleKind, Sizes};
use iso_io::{Failed, FileText, Shelf, Sink, write_file};
use nrrd::{put_nrrd_head, put_packed_samples, volume_bytes};
use packed_samples::PackedRun;
use samples::Packed;

/// The samples that are gathered from rows before they are written.
const BLOCK_SAMPLES: usize = 16_384;

/// Writes what a block holds where so many more have no room in it, and says how many it then holds.
fn make_room<K: Sink, T: Packed>(
    sink: &mut K,
    kind: SampleKind,
    block: &[T],
    held: usize,
    more: usize,
) -> Result<usize, Failed>
    requires held { held ≤ length block.now }
    requires more { more ≤ length block.now }
    requires each { All (IsOfKind kind) (map T.value (take held block.now)) }
    ensures room { IfOk result (λ n. n + more ≤ length block.now) }
    ensures held { IfOk result (λ n. (n ≡ 0) ⊎ (n ≡ held)) }
    ensures put { IfOk result (λ n. Puts (K.seen sink.old) (K.seen sink.new) result
        (samples_text kind (map T.value (take (held - n) block.now)))) }
    ensures failed { OnErr result (Puts (K.seen sink.old) (K.seen sink.new) result
        (samples_text kind (map T.value (take held block.now)))) }
{
    if more <= block.len() - held {
        return Ok(held);
    }
    put_packed_samples(sink, kind, &block[..held])?;
    Ok(0)
}

/// Writes the samples off the pad's layer, row by row, in blocks. They stay packed until they are written.
fn put_rows<K: Sink, T: Packed>(
    sink: &mut K,
    store: &BrickStore,
    copies: &[T],
    sizes: &Sizes,
    block: &mut [T],
) -> Result<(), Failed>
    requires copies { AreAllCopies store.now.grid store.now.samples (map T.value copies.now) }
    requires sizes { sizes.now ≡ inner_grid store.now }
    requires room { length block.old ≡ 16384 }
    ensures { Puts (K.seen sink.old) (K.seen sink.new) result (samples_text store.now.kind (inner_samples store.now)) }
{
    // Reading the sizes brings in what is true of every volume.
    let _ = store.sizes();
    let kind = store.kind();
    let width = sizes.nx() as usize;
    let (mut held, mut row) = (0, 0);
    while row < sizes.ny() * sizes.nz() {
        held = make_room(sink, kind, block, held, width * 9)?;
        let end = copy_rows(
            store,
            copies,
            sizes,
            row,
            &mut block[held..held + width * 9],
        );
        held += (end - row) as usize * width;
        row = end;
    }
    put_packed_samples(sink, kind, &block[..held])
}

/// Writes the samples off the pad's layer.
fn put_inner_samples<K: Sink>(sink: &mut K, store: &BrickStore, sizes: &Sizes) -> Result<(), Failed>
    requires { sizes.now ≡ inner_grid store.now }
    ensures { Puts (K.seen sink.old) (K.seen sink.new) result (samples_text store.now.kind (inner_samples store.now)) }
{
    match store.copies() {
        PackedRun::U8(copies) => put_rows(sink, store, copies, sizes, &mut [0u8; BLOCK_SAMPLES]),
        PackedRun::I16(copies) => put_rows(sink, store, copies, sizes, &mut [0i16; BLOCK_SAMPLES]),
        PackedRun::U16(copies) => put_rows(sink, store, copies, sizes, &mut [0u16; BLOCK_SAMPLES]),
        PackedRun::I32(copies) => put_rows(sink, store, copies, sizes, &mut [0i32; BLOCK_SAMPLES]),
        PackedRun::I64(copies) => put_rows(sink, store, copies, sizes, &mut [0i64; BLOCK_SAMPLES]),
    }
}

/// Writes the volume without its pad: a head, and the samples.
fn put_volume<K: Sink>(sink: &mut K, store: &BrickStore, sizes: &Sizes) -> Result<(), Failed>
    requires { sizes.now ≡ inner_grid store.now }
    ensures { Puts (K.seen sink.old) (K.seen sink.new) result (saved_text store.now) }
{
    put_nrrd_head(sink, sizes, store.kind())?;
    put_inner_samples(sink, store, sizes)
}

/// The number of bytes of the file.
fn saved_bytes(store: &BrickStore, sizes: &Sizes) -> u64
    requires { sizes.now ≡ inner_grid store.now }
    ensures { result ≡ length (saved_text store.now) }
{
    // Reading the sizes brings in what is true of every volume.
    let _ = store.sizes();
    volume_bytes(sizes, store.kind())
}

/// The text of the file.
#[derive(Drop)]
struct SavedText<'a> {
    store: &'a BrickStore,
}

impl<'a> FileText for SavedText<'a> {
    type Told = u64;

    ghost text = { λ t. saved_text t.store.now };

    ghost tells = { λ t bytes. bytes ≡ length (saved_text t.store.now) };

    ghost stays = { λ _. tt };

    fn put<K: Sink>(&mut self, sink: &mut K) -> Result<u64, Failed> {
        let sizes = inner_sizes(self.store);
        put_volume(sink, self.store, &sizes)?;
        Ok(saved_bytes(self.store, &sizes))
    }
}

/// Makes the name's file the volume without its pad, and says how many bytes it has. `Failed` comes only where the
/// shelf's count rose; the file is then as before or a front of the text, and all other files are as before. No memory is
/// taken.
pub fn write_volume<H: Shelf>(shelf: &mut H, name: &str, store: &BrickStore) -> Result<u64, Failed>
    ensures file { Stores (H.seen shelf.old) (H.seen shelf.new) result name.now (saved_text store.now) }
    ensures bytes { IfOk result (λ n. n ≡ length (saved_text store.now)) }
    ensures read_again { nrrd_of (saved_text store.now) ≡ Ok (inner_voxels store.now, 0) }
{
    // Reading the sizes brings in what is true of every volume.
    let _ = store.sizes();
    write_file::<_, _, 0>(shelf, name, &mut SavedText { store })
}
