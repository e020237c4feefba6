//! Slabs and their parts of a mesh as texts. The parts were worked out by an independent program.

/// 2x2x3: 10 on the first slice, 0 on the second, and one 10 at the last point of the third.
pub const SLAB: &[u8] =
    b"NRRD0004\ntype: uint8\ndimension: 3\nsizes: 2 2 3\nencoding: raw\n\n\x0a\x0a\x0a\x0a\0\0\0\0\0\0\0\x0a";

/// The same as hex digits, as text, and in 16 bits with the high byte first.
pub const SAME_SLABS: &[&[u8]] = &[
    SLAB,
    b"NRRD0004\ntype: uint8\ndimension: 3\nsizes: 2 2 3\nencoding: hex\n\n0a0a0a0a 00000000 0000000A\n",
    b"NRRD0004\ntype: int32\ndimension: 3\nsizes: 2 2 3\nencoding: text\n\n10 10 10 10\n0 0 0 0\n0 0 0 10\n",
    b"NRRD0004\ntype: int16\ndimension: 3\nsizes: 2 2 3\nendian: big\nencoding: raw\n\n\0\x0a\0\x0a\0\x0a\0\x0a\0\0\0\0\0\0\0\0\0\0\0\0\0\0\0\x0a",
];

/// 2x2x2, 10 at the first point, else 0.
pub const THIN: &[u8] =
    b"NRRD0004\ntype: uint8\ndimension: 3\nsizes: 2 2 2\nencoding: raw\n\n\x0a\0\0\0\0\0\0\0";

pub const LOWER_COUNTS: &[u8] = b"slab slices 1 edges 4 centres 1 triangles 4\n";

pub const LOWER_EDGES: &[u8] =
    b"0.000 0.000 4.500\n1.000 0.000 4.500\n0.000 1.000 4.500\n1.000 1.000 4.500\n";

pub const LOWER_CENTRES: &[u8] = b"0.500 0.500 4.500\n";

pub const LOWER_TRIANGLES: &[u8] = b"3 100 101 700\n3 101 103 700\n3 103 102 700\n3 102 100 700\n";

pub const LOWER_OBJ_EDGES: &[u8] =
    b"v 0.000 0.000 4.500\nv 1.000 0.000 4.500\nv 0.000 1.000 4.500\nv 1.000 1.000 4.500\n";

pub const LOWER_OBJ_CENTRES: &[u8] = b"v 0.500 0.500 4.500\n";

pub const LOWER_OBJ_TRIANGLES: &[u8] =
    b"f 101 102 701\nf 102 104 701\nf 104 103 701\nf 103 101 701\n";

pub const LAST_COUNTS: &[u8] = b"slab slices 3 edges 7 centres 1 triangles 5\n";

pub const LAST_EDGES: &[u8] =
    b"0.000 0.000 4.500\n1.000 0.000 4.500\n0.000 1.000 4.500\n1.000 1.000 4.500\n1.000 1.000 5.500\n1.000 0.500 6.000\n0.500 1.000 6.000\n";

pub const LAST_TRIANGLES: &[u8] =
    b"3 100 101 700\n3 101 103 700\n3 103 102 700\n3 102 100 700\n3 106 104 105\n";

/// The largest number of a vertex that a file holds is the last crossing edge's.
pub const LARGEST_TRIANGLES: &[u8] =
    b"3 2147483641 2147483642 2147483646\n3 2147483642 2147483644 2147483646\n3 2147483644 2147483643 2147483646\n3 2147483643 2147483641 2147483646\n3 2147483647 2147483645 2147483646\n";

pub const PADDED_COUNTS: &[u8] = b"slab slices 1 edges 12 centres 5 triangles 24\n";

pub const PADDED_EDGES: &[u8] =
    b"0.000 -0.500 4.000\n1.000 -0.500 4.000\n-0.500 0.000 4.000\n0.000 0.000 4.500\n1.500 0.000 4.000\n1.000 0.000 4.500\n-0.500 1.000 4.000\n0.000 1.500 4.000\n0.000 1.000 4.500\n1.500 1.000 4.000\n1.000 1.500 4.000\n1.000 1.000 4.500\n";

pub const PADDED_CENTRES: &[u8] =
    b"0.500 -0.250 4.250\n-0.250 0.500 4.250\n0.500 0.500 4.500\n1.250 0.500 4.250\n0.500 1.250 4.250\n";

pub const PADDED_TRIANGLES: &[u8] =
    b"3 102 100 103\n3 100 101 700\n3 101 105 700\n3 105 103 700\n3 103 100 700\n3 104 105 101\n3 102 103 701\n3 103 108 701\n3 108 106 701\n3 106 102 701\n3 103 105 702\n3 105 111 702\n3 111 108 702\n3 108 103 702\n3 104 109 703\n3 109 111 703\n3 111 105 703\n3 105 104 703\n3 106 108 107\n3 107 108 704\n3 108 111 704\n3 111 110 704\n3 110 107 704\n3 109 110 111\n";
