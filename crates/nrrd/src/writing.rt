//! Volumes in print.
//!
//! Each of six types has a writer. Of one byte in either order the byte orders' contracts say nothing, so one trait
//! would have the two one-byte types stand beside it.
ghost use Rattle.std.specs.Prelude.{◌≡◌, ◌+◌, ◌*◌, ◌<◌, ◌≤◌, ◌++◌, length, take, All, List, [], decimal, map, pos, ℤ};
ghost use Rattle.arrayvec.specs.ArrayString.{array_string_len};
ghost use Rattle.byte_streams.specs.Seen.{Puts};
ghost use Rattle.iso_defs.specs.Grid.{point_count};
ghost use Rattle.iso_base.specs.Volume.{width_of, IsOfKind};
ghost use Rattle.nrrd.specs.Writing.{coded_by, coded_head_text, encoding_text, head_in, head_text, kind_text, order_text, samples_text, save_text, sizes_text};

use arrayvec::ArrayString;
use byte_streams::{Failed, Sink, write_all_of};
use byteorder::{ByteOrder, LittleEndian};
use iso_base::{SampleKind, Sizes};
use nrrd_read::Encoding;
use number_digits::put_number;
use samples::{Packed, sample_at};

/// The name of a kind in print.
#[tactic(auto, unfolding(crate::specs::Writing::kind_text))]
fn kind_name(kind: SampleKind) -> &'static str
    ensures text { result.now ≡ kind_text kind }
    ensures short { length result.now ≤ 6 }
{
    match kind {
        SampleKind::I8 => "int8",
        SampleKind::U8 => "uint8",
        SampleKind::I16 => "int16",
        SampleKind::U16 => "uint16",
        SampleKind::I32 => "int32",
        SampleKind::U32 => "uint32",
    }
}

/// The line of the byte order, behind its line feed, where there is one.
fn order_name(ordered: bool) -> &'static str
    ensures text { result.now ≡ order_text ordered }
    ensures short { length result.now ≤ 15 }
{
    if ordered { "\nendian: little" } else { "" }
}

/// The name of an encoding in print.
#[tactic(auto, unfolding(crate::specs::Writing::encoding_text))]
fn encoding_name(encoding: Encoding) -> &'static str
    ensures text { result.now ≡ encoding_text encoding }
    ensures short { length result.now ≤ 4 }
{
    match encoding {
        Encoding::Raw => "raw",
        Encoding::Text => "text",
        Encoding::Hex => "hex",
    }
}

/// The three sizes in print.
#[tactic(auto, unfolding(crate::specs::Writing::sizes_text))]
fn made_sizes(sizes: &Sizes) -> ArrayString<32>
    ensures text { result.bytes ≡ sizes_text sizes.now }
    ensures short { array_string_len result ≤ 32 }
{
    let mut text = ArrayString::new();
    put_number(sizes.nx(), &mut text);
    text.push_str(" ");
    put_number(sizes.ny(), &mut text);
    text.push_str(" ");
    put_number(sizes.nz(), &mut text);
    text
}

/// The whole head.
#[tactic(auto, unfolding(crate::specs::Writing::head_in))]
fn made_head(encoding: Encoding, sizes: &Sizes, kind: SampleKind) -> ArrayString<128>
    ensures { result.bytes ≡ head_in encoding sizes.now kind }
{
    let sizes = made_sizes(sizes);
    let mut text = ArrayString::new();
    text.push_str("NRRD0004\ntype: ");
    text.push_str(kind_name(kind));
    text.push_str("\ndimension: 3\nsizes: ");
    text.push_str(sizes.as_str());
    text.push_str(order_name(encoding.has_order(kind)));
    text.push_str("\nencoding: ");
    text.push_str(encoding_name(encoding));
    text.push_str("\n\n");
    text
}

/// Appends the head of a volume to a sink: type, dimension, sizes, byte order for samples of more than one byte, and encoding.
/// `Failed` comes only where the sink's count of faults rose; a front of the head was then taken. No memory is taken.
pub fn put_nrrd_head<K: Sink>(sink: &mut K, sizes: &Sizes, kind: SampleKind) -> Result<(), Failed>
    ensures { Puts (K.seen sink.old) (K.seen sink.new) result (head_text sizes.now kind) }
{
    let text = made_head(Encoding::Raw, sizes, kind);
    write_all_of(sink, text.as_bytes())
}

/// The encoding of samples in print.
fn encoding_of(hex: bool) -> Encoding
    ensures { result ≡ coded_by hex }
{
    if hex { Encoding::Hex } else { Encoding::Text }
}

/// Appends the head of a volume whose samples follow in print to a sink, as hex digits or as numbers. Digits of samples
/// wider than a byte have a byte order, which the head says: little. Numbers have none. `Failed` comes as for
/// `put_nrrd_head`. No memory is taken.
pub fn put_coded_head<K: Sink>(
    sink: &mut K,
    sizes: &Sizes,
    kind: SampleKind,
    hex: bool,
) -> Result<(), Failed>
    ensures { Puts (K.seen sink.old) (K.seen sink.new) result (coded_head_text sizes.now kind hex) }
{
    let text = made_head(encoding_of(hex), sizes, kind);
    write_all_of(sink, text.as_bytes())
}

/// The number of bytes of that head.
pub fn coded_head_bytes(sizes: &Sizes, kind: SampleKind, hex: bool) -> u64
    ensures bytes { result ≡ length (coded_head_text sizes.now kind hex) }
    ensures few { result ≤ 128 }
{
    made_head(encoding_of(hex), sizes, kind).len() as u64
}

#[inline]
fn as_i8(value: i64) -> i8
    requires { IsOfKind SampleKind.I8 value }
    ensures { result ≡ value }
{
    value as i8
}

#[inline]
fn as_i16(value: i64) -> i16
    requires { IsOfKind SampleKind.I16 value }
    ensures { result ≡ value }
{
    value as i16
}

#[inline]
fn as_i32(value: i64) -> i32
    requires { IsOfKind SampleKind.I32 value }
    ensures { result ≡ value }
{
    value as i32
}

#[inline]
fn as_u8(value: i64) -> u8
    requires { IsOfKind SampleKind.U8 value }
    ensures { pos result ≡ value }
{
    value as u8
}

#[inline]
fn as_u16(value: i64) -> u16
    requires { IsOfKind SampleKind.U16 value }
    ensures { pos result ≡ value }
{
    value as u16
}

#[inline]
fn as_u32(value: i64) -> u32
    requires { IsOfKind SampleKind.U32 value }
    ensures { pos result ≡ value }
{
    value as u32
}

fn fill_i8<T: Packed>(piece: &[T], room: &mut [u8])
    requires each { All (IsOfKind SampleKind.I8) (map T.value piece.now) }
    requires room { 1 * length piece.now ≤ length room.old }
    ensures { take (1 * length piece.now) room.new ≡ samples_text SampleKind.I8 (map T.value piece.now) }
{
    for i in 0..piece.len() {
        room[i] = as_i8(sample_at(piece, i)).cast_unsigned();
    }
}

fn fill_u8<T: Packed>(piece: &[T], room: &mut [u8])
    requires each { All (IsOfKind SampleKind.U8) (map T.value piece.now) }
    requires room { 1 * length piece.now ≤ length room.old }
    ensures { take (1 * length piece.now) room.new ≡ samples_text SampleKind.U8 (map T.value piece.now) }
{
    for i in 0..piece.len() {
        room[i] = as_u8(sample_at(piece, i));
    }
}

fn fill_i16<T: Packed>(piece: &[T], room: &mut [u8])
    requires each { All (IsOfKind SampleKind.I16) (map T.value piece.now) }
    requires room { 2 * length piece.now ≤ length room.old }
    ensures { take (2 * length piece.now) room.new ≡ samples_text SampleKind.I16 (map T.value piece.now) }
{
    for i in 0..piece.len() {
        LittleEndian::write_i16(&mut room[2 * i..], as_i16(sample_at(piece, i)));
    }
}

fn fill_u16<T: Packed>(piece: &[T], room: &mut [u8])
    requires each { All (IsOfKind SampleKind.U16) (map T.value piece.now) }
    requires room { 2 * length piece.now ≤ length room.old }
    ensures { take (2 * length piece.now) room.new ≡ samples_text SampleKind.U16 (map T.value piece.now) }
{
    for i in 0..piece.len() {
        LittleEndian::write_u16(&mut room[2 * i..], as_u16(sample_at(piece, i)));
    }
}

fn fill_i32<T: Packed>(piece: &[T], room: &mut [u8])
    requires each { All (IsOfKind SampleKind.I32) (map T.value piece.now) }
    requires room { 4 * length piece.now ≤ length room.old }
    ensures { take (4 * length piece.now) room.new ≡ samples_text SampleKind.I32 (map T.value piece.now) }
{
    for i in 0..piece.len() {
        LittleEndian::write_i32(&mut room[4 * i..], as_i32(sample_at(piece, i)));
    }
}

fn fill_u32<T: Packed>(piece: &[T], room: &mut [u8])
    requires each { All (IsOfKind SampleKind.U32) (map T.value piece.now) }
    requires room { 4 * length piece.now ≤ length room.old }
    ensures { take (4 * length piece.now) room.new ≡ samples_text SampleKind.U32 (map T.value piece.now) }
{
    for i in 0..piece.len() {
        LittleEndian::write_u32(&mut room[4 * i..], as_u32(sample_at(piece, i)));
    }
}

/// Fills the front of the room with the bytes of samples.
fn fill<T: Packed>(kind: SampleKind, piece: &[T], room: &mut [u8])
    requires each { All (IsOfKind kind) (map T.value piece.now) }
    requires room { width_of kind * length piece.now ≤ length room.old }
    ensures { take (width_of kind * length piece.now) room.new ≡ samples_text kind (map T.value piece.now) }
{
    match kind {
        SampleKind::I8 => fill_i8(piece, room),
        SampleKind::U8 => fill_u8(piece, room),
        SampleKind::I16 => fill_i16(piece, room),
        SampleKind::U16 => fill_u16(piece, room),
        SampleKind::I32 => fill_i32(piece, room),
        SampleKind::U32 => fill_u32(piece, room),
    }
}

/// The bytes that are written at once: a write of the system costs as much as thousands of bytes.
const BLOCK_BYTES: usize = 32_768;

/// How many samples fill a block.
fn samples_in_block(kind: SampleKind) -> usize
    ensures some { 0 < result }
    ensures room { width_of kind * result ≤ 32768 }
{
    BLOCK_BYTES / kind.width() as usize
}

/// Writes samples that fit into the room, by way of the room.
fn put_piece<K: Sink, T: Packed>(
    sink: &mut K,
    kind: SampleKind,
    piece: &[T],
    room: &mut [u8],
) -> Result<(), Failed>
    requires each { All (IsOfKind kind) (map T.value piece.now) }
    requires room { width_of kind * length piece.now ≤ length room.old }
    ensures { Puts (K.seen sink.old) (K.seen sink.new) result (samples_text kind (map T.value piece.now)) }
{
    fill(kind, piece, room);
    write_all_of(sink, &room[..kind.width() as usize * piece.len()])
}

/// Writes samples, a block at a time.
fn put_pieces<K: Sink, T: Packed>(
    sink: &mut K,
    kind: SampleKind,
    values: &[T],
    room: &mut [u8],
) -> Result<(), Failed>
    requires each { All (IsOfKind kind) (map T.value values.now) }
    requires room { length room.old ≡ 32768 }
    ensures { Puts (K.seen sink.old) (K.seen sink.new) result (samples_text kind (map T.value values.now)) }
{
    let most = samples_in_block(kind);
    let mut rest = values;
    while !rest.is_empty() {
        let (piece, after) = rest.split_at(rest.len().min(most));
        put_piece(sink, kind, piece, room)?;
        rest = after;
    }
    Ok(())
}

/// Appends samples to a sink, in whichever width they are packed, each in as many bytes as its kind has, in little order. The values
/// lie in the kind's range. `Failed` comes only where the sink's count of faults rose; a front of the bytes was then taken. No
/// memory is taken.
pub fn put_packed_samples<K: Sink, T: Packed>(
    sink: &mut K,
    kind: SampleKind,
    values: &[T],
) -> Result<(), Failed>
    requires { All (IsOfKind kind) (map T.value values.now) }
    ensures { Puts (K.seen sink.old) (K.seen sink.new) result (samples_text kind (map T.value values.now)) }
{
    let mut room = [0u8; BLOCK_BYTES];
    put_pieces(sink, kind, values, &mut room)
}

/// Appends samples to a sink as `put_packed_samples` does.
pub fn put_samples<K: Sink>(sink: &mut K, kind: SampleKind, values: &[i64]) -> Result<(), Failed>
    requires { All (IsOfKind kind) values.now }
    ensures { Puts (K.seen sink.old) (K.seen sink.new) result (samples_text kind values.now) }
{
    put_packed_samples(sink, kind, values)
}

/// The number of bytes of a volume in print, its head and its samples.
pub fn volume_bytes(sizes: &Sizes, kind: SampleKind) -> u64
    ensures { (samples : List ℤ) → length samples ≡ point_count sizes.now →
        result ≡ length (save_text (record { grid = sizes.now; kind = kind; samples = samples })) }
{
    let head = made_head(Encoding::Raw, sizes, kind).len() as u64;
    head + u64::from(kind.width()) * u64::from(sizes.count())
}
