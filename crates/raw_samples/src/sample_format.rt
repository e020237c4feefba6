//! How the samples of each kind and byte order lie in bytes.
ghost use Rattle.std.specs.Prelude.{◌≡◌, ◌+◌, ◌*◌, ◌≤◌, Bool, false, length, true};
ghost use Rattle.iso_base.specs.Volume.{width_of};
ghost use Rattle.iso_base.specs.declared.kind.SampleKind.{SampleKind};
ghost use Rattle.iso_base.specs.declared.kind.SampleKind.TheVariants as kinds;
ghost use Rattle.iso_base.specs.SampleBytes.{sample_of};

use byteorder::{BigEndian, ByteOrder, LittleEndian};
use samples::Packed;

/// A kind of samples in a byte order.
pub trait SampleFormat {
    /// The numbers of the kind.
    type Number: Packed;

    ghost kind: { SampleKind };

    ghost big_endian: { Bool };

    /// How many bytes a number has.
    fn width() -> usize
        ensures { result ≡ width_of kind };

    /// The number of an index.
    fn read(bytes: &[u8], index: usize) -> Self::Number
        requires { width_of kind * (index + 1) ≤ length bytes.now }
        ensures { Self.Number.value result ≡ sample_of kind big_endian bytes.now index };
}

/// Whole numbers of 8 bits.
#[derive(Clone, Copy)]
pub struct Unsigned8;

impl SampleFormat for Unsigned8 {
    type Number = u8;

    ghost kind = { kinds.U8 };

    ghost big_endian = { false };

    #[inline(always)]
    fn width() -> usize {
        1
    }

    #[inline(always)]
    fn read(bytes: &[u8], index: usize) -> u8 {
        bytes[index]
    }
}

/// Numbers in two's complement of 8 bits.
#[derive(Clone, Copy)]
pub struct Signed8;

impl SampleFormat for Signed8 {
    type Number = i8;

    ghost kind = { kinds.I8 };

    ghost big_endian = { false };

    #[inline(always)]
    fn width() -> usize {
        1
    }

    #[inline(always)]
    fn read(bytes: &[u8], index: usize) -> i8 {
        bytes[index].cast_signed()
    }
}

/// Whole numbers of 16 bits, the low byte first.
#[derive(Clone, Copy)]
pub struct Unsigned16Little;

impl SampleFormat for Unsigned16Little {
    type Number = u16;

    ghost kind = { kinds.U16 };

    ghost big_endian = { false };

    #[inline(always)]
    fn width() -> usize {
        2
    }

    #[inline(always)]
    fn read(bytes: &[u8], index: usize) -> u16 {
        LittleEndian::read_u16(&bytes[2 * index..])
    }
}

/// Whole numbers of 16 bits, the high byte first.
#[derive(Clone, Copy)]
pub struct Unsigned16Big;

impl SampleFormat for Unsigned16Big {
    type Number = u16;

    ghost kind = { kinds.U16 };

    ghost big_endian = { true };

    #[inline(always)]
    fn width() -> usize {
        2
    }

    #[inline(always)]
    fn read(bytes: &[u8], index: usize) -> u16 {
        BigEndian::read_u16(&bytes[2 * index..])
    }
}

/// Numbers in two's complement of 16 bits, the low byte first.
#[derive(Clone, Copy)]
pub struct Signed16Little;

impl SampleFormat for Signed16Little {
    type Number = i16;

    ghost kind = { kinds.I16 };

    ghost big_endian = { false };

    #[inline(always)]
    fn width() -> usize {
        2
    }

    #[inline(always)]
    fn read(bytes: &[u8], index: usize) -> i16 {
        LittleEndian::read_i16(&bytes[2 * index..])
    }
}

/// Numbers in two's complement of 16 bits, the high byte first.
#[derive(Clone, Copy)]
pub struct Signed16Big;

impl SampleFormat for Signed16Big {
    type Number = i16;

    ghost kind = { kinds.I16 };

    ghost big_endian = { true };

    #[inline(always)]
    fn width() -> usize {
        2
    }

    #[inline(always)]
    fn read(bytes: &[u8], index: usize) -> i16 {
        BigEndian::read_i16(&bytes[2 * index..])
    }
}

/// Whole numbers of 32 bits, the low byte first.
#[derive(Clone, Copy)]
pub struct Unsigned32Little;

impl SampleFormat for Unsigned32Little {
    type Number = u32;

    ghost kind = { kinds.U32 };

    ghost big_endian = { false };

    #[inline(always)]
    fn width() -> usize {
        4
    }

    #[inline(always)]
    fn read(bytes: &[u8], index: usize) -> u32 {
        LittleEndian::read_u32(&bytes[4 * index..])
    }
}

/// Whole numbers of 32 bits, the high byte first.
#[derive(Clone, Copy)]
pub struct Unsigned32Big;

impl SampleFormat for Unsigned32Big {
    type Number = u32;

    ghost kind = { kinds.U32 };

    ghost big_endian = { true };

    #[inline(always)]
    fn width() -> usize {
        4
    }

    #[inline(always)]
    fn read(bytes: &[u8], index: usize) -> u32 {
        BigEndian::read_u32(&bytes[4 * index..])
    }
}

/// Numbers in two's complement of 32 bits, the low byte first.
#[derive(Clone, Copy)]
pub struct Signed32Little;

impl SampleFormat for Signed32Little {
    type Number = i32;

    ghost kind = { kinds.I32 };

    ghost big_endian = { false };

    #[inline(always)]
    fn width() -> usize {
        4
    }

    #[inline(always)]
    fn read(bytes: &[u8], index: usize) -> i32 {
        LittleEndian::read_i32(&bytes[4 * index..])
    }
}

/// Numbers in two's complement of 32 bits, the high byte first.
#[derive(Clone, Copy)]
pub struct Signed32Big;

impl SampleFormat for Signed32Big {
    type Number = i32;

    ghost kind = { kinds.I32 };

    ghost big_endian = { true };

    #[inline(always)]
    fn width() -> usize {
        4
    }

    #[inline(always)]
    fn read(bytes: &[u8], index: usize) -> i32 {
        BigEndian::read_i32(&bytes[4 * index..])
    }
}
