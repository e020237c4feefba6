//! Volumes and meshes as texts. The meshes were worked out by hand or by an independent program.

/// 2x2x2, 10 at the first point, else 0.
pub const CORNER: &[u8] =
    b"NRRD0004\ntype: uint8\ndimension: 3\nsizes: 2 2 2\nencoding: raw\n\n\x0a\0\0\0\0\0\0\0";

/// The same with 5 there.
pub const CORNER_AT_LEVEL: &[u8] =
    b"NRRD0004\ntype: uint8\ndimension: 3\nsizes: 2 2 2\nencoding: raw\n\n\x05\0\0\0\0\0\0\0";

/// 2x2x2, all 0.
pub const NOTHING: &[u8] =
    b"NRRD0004\ntype: uint8\ndimension: 3\nsizes: 2 2 2\nencoding: raw\n\n\0\0\0\0\0\0\0\0";

/// 10 on the lower plane, 0 on the upper one.
pub const LOWER_HALF: &[u8] =
    b"NRRD0004\ntype: uint8\ndimension: 3\nsizes: 2 2 2\nencoding: raw\n\n\x0a\x0a\x0a\x0a\0\0\0\0";

/// At level 1 each of the six faces is ambiguous, with a tie of the products.
pub const TIES: &[u8] =
    b"NRRD0004\ntype: uint8\ndimension: 3\nsizes: 2 2 2\nencoding: raw\n\n\x02\0\0\x02\0\x02\x02\0";

/// 3x3x3, 10 in the middle, else 0.
pub const MIDDLE: &[u8] =
    b"NRRD0004\ntype: uint8\ndimension: 3\nsizes: 3 3 3\nencoding: raw\n\n\0\0\0\0\0\0\0\0\0\0\0\0\0\x0a\0\0\0\0\0\0\0\0\0\0\0\0\0";

pub const NO_POINTS: &[u8] =
    b"ply\nformat ascii 1.0\nelement vertex 0\nproperty float x\nproperty float y\nproperty float z\nend_header\n";

pub const THREE_POINTS: &[u8] =
    b"ply\nformat ascii 1.0\nelement vertex 3\nproperty float x\nproperty float y\nproperty float z\nend_header\n0.500 0.000 0.000\n0.000 0.500 0.000\n0.000 0.000 0.500\n";

pub const NO_MESH: &[u8] =
    b"ply\nformat ascii 1.0\nelement vertex 0\nproperty float x\nproperty float y\nproperty float z\nelement face 0\nproperty list uchar int vertex_indices\nend_header\n";

pub const CORNER_MESH: &[u8] =
    b"ply\nformat ascii 1.0\nelement vertex 3\nproperty float x\nproperty float y\nproperty float z\nelement face 1\nproperty list uchar int vertex_indices\nend_header\n0.500 0.000 0.000\n0.000 0.500 0.000\n0.000 0.000 0.500\n3 0 1 2\n";

pub const CORNER_AT_LEVEL_MESH: &[u8] =
    b"ply\nformat ascii 1.0\nelement vertex 3\nproperty float x\nproperty float y\nproperty float z\nelement face 1\nproperty list uchar int vertex_indices\nend_header\n0.000 0.000 0.000\n0.000 0.000 0.000\n0.000 0.000 0.000\n3 0 1 2\n";

pub const LOWER_HALF_MESH: &[u8] =
    b"ply\nformat ascii 1.0\nelement vertex 5\nproperty float x\nproperty float y\nproperty float z\nelement face 4\nproperty list uchar int vertex_indices\nend_header\n0.000 0.000 0.500\n1.000 0.000 0.500\n0.000 1.000 0.500\n1.000 1.000 0.500\n0.500 0.500 0.500\n3 0 1 4\n3 1 3 4\n3 3 2 4\n3 2 0 4\n";

pub const TIES_MESH: &[u8] =
    b"ply\nformat ascii 1.0\nelement vertex 12\nproperty float x\nproperty float y\nproperty float z\nelement face 4\nproperty list uchar int vertex_indices\nend_header\n0.500 0.000 0.000\n0.000 0.500 0.000\n0.000 0.000 0.500\n1.000 0.500 0.000\n1.000 0.000 0.500\n0.500 1.000 0.000\n0.000 1.000 0.500\n1.000 1.000 0.500\n0.500 0.000 1.000\n0.000 0.500 1.000\n1.000 0.500 1.000\n0.500 1.000 1.000\n3 0 3 4\n3 5 1 6\n3 8 9 2\n3 11 10 7\n";

pub const MIDDLE_MESH: &[u8] =
    b"ply\nformat ascii 1.0\nelement vertex 6\nproperty float x\nproperty float y\nproperty float z\nelement face 8\nproperty list uchar int vertex_indices\nend_header\n1.000 1.000 0.500\n1.000 0.500 1.000\n0.500 1.000 1.000\n1.500 1.000 1.000\n1.000 1.500 1.000\n1.000 1.000 1.500\n3 2 0 1\n3 3 1 0\n3 2 4 0\n3 3 0 4\n3 2 1 5\n3 3 5 1\n3 2 5 4\n3 3 4 5\n";

/// 2x2x2, all 10.
pub const SOLID: &[u8] =
    b"NRRD0004\ntype: uint8\ndimension: 3\nsizes: 2 2 2\nencoding: raw\n\n\x0a\x0a\x0a\x0a\x0a\x0a\x0a\x0a";

/// 2x2x2 with 2 -1 -4 2 below: on the lower face both products of opposite values are 4, a tie.
pub const TIE: &[u8] =
    b"NRRD0004\ntype: int16\ndimension: 3\nsizes: 2 2 2\nendian: little\nencoding: raw\n\n\x02\0\xff\xff\xfc\xff\x02\0\xff\xff\xff\xff\xff\xff\xff\xff";

pub const TIE_MESH: &[u8] =
    b"ply\nformat ascii 1.0\nelement vertex 7\nproperty float x\nproperty float y\nproperty float z\nelement face 6\nproperty list uchar int vertex_indices\nend_header\n0.667 0.000 0.000\n0.000 0.333 0.000\n0.000 0.000 0.667\n1.000 0.333 0.000\n0.667 1.000 0.000\n1.000 1.000 0.667\n0.556 0.444 0.222\n3 0 3 6\n3 3 5 6\n3 5 4 6\n3 4 1 6\n3 1 2 6\n3 2 0 6\n";

/// The same with -5 in place of -4, so that the lower face is not joined.
pub const NO_TIE: &[u8] =
    b"NRRD0004\ntype: int16\ndimension: 3\nsizes: 2 2 2\nendian: little\nencoding: raw\n\n\x02\0\xff\xff\xfb\xff\x02\0\xff\xff\xff\xff\xff\xff\xff\xff";

pub const NO_TIE_MESH: &[u8] =
    b"ply\nformat ascii 1.0\nelement vertex 6\nproperty float x\nproperty float y\nproperty float z\nelement face 2\nproperty list uchar int vertex_indices\nend_header\n0.667 0.000 0.000\n0.000 0.286 0.000\n0.000 0.000 0.667\n1.000 0.333 0.000\n0.714 1.000 0.000\n1.000 1.000 0.667\n3 0 1 2\n3 4 3 5\n";

/// 2x2x2 with the greatest samples at the first and the fourth point: their product needs more than 64 bits.
pub const GREATEST: &[u8] =
    b"NRRD0004\ntype: uint32\ndimension: 3\nsizes: 2 2 2\nendian: little\nencoding: raw\n\n\xff\xff\xff\xff\0\0\0\0\0\0\0\0\xff\xff\xff\xff\0\0\0\0\0\0\0\0\0\0\0\0\0\0\0\0";

pub const GREATEST_MESH: &[u8] =
    b"ply\nformat ascii 1.0\nelement vertex 7\nproperty float x\nproperty float y\nproperty float z\nelement face 6\nproperty list uchar int vertex_indices\nend_header\n1.000 0.000 0.000\n0.000 1.000 0.000\n0.000 0.000 1.000\n1.000 0.000 0.000\n0.000 1.000 0.000\n1.000 1.000 1.000\n0.500 0.500 0.333\n3 0 3 6\n3 3 5 6\n3 5 4 6\n3 4 1 6\n3 1 2 6\n3 2 0 6\n";

/// MIDDLE as a widely used tool writes it.
pub const MIDDLE_BY_TOOL: &[u8] =
    b"NRRD0004\n# Complete NRRD file format specification at:\n# http://teem.sourceforge.net/nrrd/format.html\ntype: short\ndimension: 3\nspace: left-posterior-superior\nsizes: 3 3 3\nspace directions: (1,0,0) (0,1,0) (0,0,1)\nkinds: domain domain domain\nendian: little\nencoding: raw\nspace origin: (0,0,0)\n\n\0\0\0\0\0\0\0\0\0\0\0\0\0\0\0\0\0\0\0\0\0\0\0\0\0\0\x0a\0\0\0\0\0\0\0\0\0\0\0\0\0\0\0\0\0\0\0\0\0\0\0\0\0\0\0";

pub const CORNER_OBJ: &[u8] =
    b"v 0.500 0.000 0.000\nv 0.000 0.500 0.000\nv 0.000 0.000 0.500\nf 1 2 3\n";

/// The same with another encoding.
pub const GZIP: &[u8] =
    b"NRRD0004\n# Complete NRRD file format specification at:\n# http://teem.sourceforge.net/nrrd/format.html\ntype: short\ndimension: 3\nspace: left-posterior-superior\nsizes: 3 3 3\nspace directions: (1,0,0) (0,1,0) (0,0,1)\nkinds: domain domain domain\nendian: little\nencoding: gzip\nspace origin: (0,0,0)\n\n\0\0\0\0\0\0\0\0\0\0\0\0\0\0\0\0\0\0\0\0\0\0\0\0\0\0\x0a\0\0\0\0\0\0\0\0\0\0\0\0\0\0\0\0\0\0\0\0\0\0\0\0\0\0\0";

/// The same with one point along the first axis.
pub const THIN: &[u8] =
    b"NRRD0004\n# Complete NRRD file format specification at:\n# http://teem.sourceforge.net/nrrd/format.html\ntype: short\ndimension: 3\nspace: left-posterior-superior\nsizes: 1 4 4\nspace directions: (1,0,0) (0,1,0) (0,0,1)\nkinds: domain domain domain\nendian: little\nencoding: raw\nspace origin: (0,0,0)\n\n\0\0\0\0\0\0\0\0\0\0\0\0\0\0\0\0\0\0\0\0\0\0\0\0\0\0\x0a\0\0\0\0\0\0\0\0\0\0\0\0\0\0\0\0\0\0\0\0\0\0\0\0\0\0\0";

/// The same with its samples in another file.
pub const DETACHED: &[u8] =
    b"NRRD0004\n# Complete NRRD file format specification at:\n# http://teem.sourceforge.net/nrrd/format.html\ntype: short\ndata file: b.raw\ndimension: 3\nspace: left-posterior-superior\nsizes: 3 3 3\nspace directions: (1,0,0) (0,1,0) (0,0,1)\nkinds: domain domain domain\nendian: little\nencoding: raw\nspace origin: (0,0,0)\n\n\0\0\0\0\0\0\0\0\0\0\0\0\0\0\0\0\0\0\0\0\0\0\0\0\0\0\x0a\0\0\0\0\0\0\0\0\0\0\0\0\0\0\0\0\0\0\0\0\0\0\0\0\0\0\0";

/// CORNER at level 2.5.
pub const CORNER_AT_HALVES: &[u8] =
    b"ply\nformat ascii 1.0\nelement vertex 3\nproperty float x\nproperty float y\nproperty float z\nelement face 1\nproperty list uchar int vertex_indices\nend_header\n0.750 0.000 0.000\n0.000 0.750 0.000\n0.000 0.000 0.750\n3 0 1 2\n";

/// TIE at level 0.5.
pub const TIE_AT_HALF: &[u8] =
    b"ply\nformat ascii 1.0\nelement vertex 6\nproperty float x\nproperty float y\nproperty float z\nelement face 2\nproperty list uchar int vertex_indices\nend_header\n0.500 0.000 0.000\n0.000 0.250 0.000\n0.000 0.000 0.500\n1.000 0.500 0.000\n0.750 1.000 0.000\n1.000 1.000 0.500\n3 0 1 2\n3 4 3 5\n";

/// 17x17x17, all 0 but 10 at (8,8,8), at level 5.
pub const MOVED_MESH: &[u8] =
    b"ply\nformat ascii 1.0\nelement vertex 6\nproperty float x\nproperty float y\nproperty float z\nelement face 8\nproperty list uchar int vertex_indices\nend_header\n8.000 8.000 7.500\n8.000 7.500 8.000\n7.500 8.000 8.000\n8.500 8.000 8.000\n8.000 8.500 8.000\n8.000 8.000 8.500\n3 2 0 1\n3 3 1 0\n3 2 4 0\n3 3 0 4\n3 2 1 5\n3 3 5 1\n3 2 5 4\n3 3 4 5\n";

/// The same at level 4.
pub const MESH_AT_FOUR: &[u8] =
    b"ply\nformat ascii 1.0\nelement vertex 6\nproperty float x\nproperty float y\nproperty float z\nelement face 8\nproperty list uchar int vertex_indices\nend_header\n8.000 8.000 7.400\n8.000 7.400 8.000\n7.400 8.000 8.000\n8.600 8.000 8.000\n8.000 8.600 8.000\n8.000 8.000 8.600\n3 2 0 1\n3 3 1 0\n3 2 4 0\n3 3 0 4\n3 2 1 5\n3 3 5 1\n3 2 5 4\n3 3 4 5\n";

/// Two tetrahedra that meet in vertex 0.
pub const SPLIT: &[u8] =
    b"ply\nformat ascii 1.0\nelement vertex 7\nproperty float x\nelement face 8\nproperty list uchar int vertex_indices\nend_header\n0\n0\n0\n0\n0\n0\n0\n3 0 1 2\n3 0 2 3\n3 0 3 1\n3 1 3 2\n3 0 4 5\n3 0 5 6\n3 0 6 4\n3 4 6 5\n";

/// A face of four corners.
pub const FOUR_CORNERS: &[u8] =
    b"ply\nformat ascii 1.0\nelement vertex 4\nproperty float x\nproperty float y\nproperty float z\nelement face 1\nproperty list uchar int vertex_indices\nend_header\n0 0 0\n1 0 0\n0 1 0\n1 1 0\n4 0 1 2 3\n";
