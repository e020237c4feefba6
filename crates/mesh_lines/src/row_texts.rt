//! The parts that the lines of vertices on a row of points have in common, made once for the row.
//!
//! The line of a vertex is inlined twice, for a volume with padding and for one without: without padding no coordinate
//! is below zero, and the compiler removes the tests for signs. At the upper end of its edge, as every third vertex in
//! volumes of a few bits, a vertex has no decimals, and its line is put together from texts at hand.
ghost use Rattle.std.specs.Prelude.{◌≡◌, ℕ, ◌+◌, ◌*◌, ◌/◌, ◌%◌, ◌==◌, ◌<◌, ◌≤◌, ◌^◌, ◌∷◌, ◌++◌, [], All, cond, false, length, if◌then◌else◌, slice_index};
ghost use Rattle.iso_defs.specs.Bytes.{space, minus};
ghost use Rattle.iso_defs.specs.Texts.{line};
ghost use Rattle.mesh_text.specs.Pieces.{piece_text};
ghost use Rattle.mesh_lines.specs.Lines.{vertex_letter, vertex_line};
ghost use Rattle.mesh_lines.specs.RowLines.{AreFronts, AreLeast, AreParts, AreWholes, IsPiece, edge_at, front_text, is_layer, size_in_pad, whole_size, whole_text, y_text, z_text, zeros};

use crate::line_buffer::{LineBuffer, put_bytes};
use crate::style::{Origin, Style};
use iso_base::{LONGEST_ROW, MeshFormat, ROW_EDGES};
use mesh_text::{Fours, Lines, Piece};
use std::marker::Model;

/// The points of a row at most, and one more: an edge along x at the last one ends there.
pub(crate) const FRONTS: usize = LONGEST_ROW + 1;

/// An offset behind that of each edge of a row.
const ROW_END: u16 = ROW_EDGES as u16;

/// Whether a whole coordinate along an axis is that of a pad's layer: it is printed with a sign.
fn is_layer(origin: Origin, axis: usize, whole: u32) -> bool
    ensures { result ≡ is_layer origin axis whole }
{
    match origin {
        Origin::Pad => whole == 0,
        Origin::PaddedSlab(_) => axis != 2 && whole == 0,
        Origin::Volume | Origin::Window(_) => false,
    }
}

/// A whole coordinate that begins with a pad's layer as it is printed, less its sign.
fn size_in_pad(whole: u32) -> u64
    requires { whole ≤ 1027 }
    ensures value { result ≡ size_in_pad whole }
    ensures bound { result < 10 ^ 10 }
{
    if whole == 0 { 1 } else { u64::from(whole - 1) }
}

/// A whole coordinate as it is printed, less its sign.
fn whole_size(origin: Origin, axis: usize, whole: u32) -> u64
    requires axis { axis < 3 }
    requires whole { whole ≤ 1027 }
    ensures value { result ≡ whole_size origin axis whole }
    ensures bound { result < 10 ^ 10 }
{
    match origin {
        Origin::Volume => u64::from(whole),
        Origin::Pad => size_in_pad(whole),
        Origin::Window(at) => u64::from([at.x, at.y, at.z][axis]) + u64::from(whole),
        Origin::PaddedSlab(below) if axis == 2 => u64::from(below) + u64::from(whole),
        Origin::PaddedSlab(_) => size_in_pad(whole),
    }
}

/// Puts the sign of a whole coordinate behind a text.
fn push_sign(piece: &mut Piece<16>, origin: Origin, axis: usize, whole: u32)
    requires { piece.old.len ≤ 2 }
    ensures text { piece_text piece.new ≡ piece_text piece.old ++ cond (is_layer origin axis whole) (minus ∷ []) [] }
    ensures count { piece.new.len ≡ piece.old.len + (if is_layer origin axis whole then 1 else 0) }
{
    if is_layer(origin, axis, whole) {
        piece.push(b"-");
    }
}

/// Puts a whole coordinate, as it is printed, and its point behind a text.
fn push_whole(piece: &mut Piece<16>, origin: Origin, axis: usize, whole: u32, digits: &Fours)
    requires axis { axis < 3 }
    requires whole { whole ≤ 1027 }
    requires few { piece.old.len ≤ 2 }
    ensures text { piece_text piece.new ≡ piece_text piece.old ++ whole_text origin axis whole }
    ensures few { piece.new.len ≤ piece.old.len + 11 }
{
    push_sign(piece, origin, axis, whole);
    piece.push_number(digits, whole_size(origin, axis, whole));
    piece.push(b".");
}

/// A letter that begins the line of a vertex, where there is one.
fn push_letter(piece: &mut Piece<16>, format: MeshFormat)
    requires { piece.old.len ≡ 0 }
    ensures text { piece_text piece.new ≡ vertex_letter format }
    ensures few { piece.new.len ≤ 2 }
{
    match format {
        MeshFormat::Obj => piece.push(b"v "),
        MeshFormat::Ply | MeshFormat::Off | MeshFormat::Vtk => {}
    }
}

/// A line up to the decimals of its first number.
fn front_of(style: Style, x: u32, digits: &Fours) -> Piece<16>
    requires { x ≤ 1026 }
    ensures text { piece_text result ≡ front_text style x }
    ensures few { result.len ≤ 13 }
{
    let mut front = Piece::new();
    push_letter(&mut front, style.format);
    push_whole(&mut front, style.origin, 0, x, digits);
    front
}

/// A blank, a whole coordinate and its point.
fn behind_blank(origin: Origin, axis: usize, whole: u32, digits: &Fours) -> Piece<16>
    requires axis { axis < 3 }
    requires whole { whole ≤ 1027 }
    ensures text { piece_text result ≡ space ∷ whole_text origin axis whole }
    ensures few { result.len ≤ 12 }
{
    let mut piece = Piece::new();
    piece.push(b" ");
    push_whole(&mut piece, origin, axis, whole, digits);
    piece
}

/// The text of the next coordinate, out of that of a coordinate: where it ends in no nine, only its last digit is another.
fn behind_next(
    piece: &Piece<16>,
    origin: Origin,
    axis: usize,
    whole: u32,
    digits: &Fours,
) -> Piece<16>
    requires piece { IsPiece piece.now (space ∷ whole_text origin axis whole) 12 }
    requires axis { axis < 3 }
    requires whole { whole ≤ 1026 }
    ensures { IsPiece result (space ∷ whole_text origin axis (whole + 1)) 12 }
{
    let _ = whole_size(origin, axis, whole);
    let last = piece.len - 2;
    if is_layer(origin, axis, whole) || piece.bytes[last] == b'9' {
        return behind_blank(origin, axis, whole + 1, digits);
    }
    let mut next = *piece;
    next.bytes[last] += 1;
    next
}

/// The texts of a coordinate of a row of points, and of the one behind it.
pub(crate) fn wholes_of(origin: Origin, axis: usize, whole: u32, digits: &Fours) -> [Piece<16>; 2]
    requires axis { axis < 3 }
    requires whole { whole ≤ 1026 }
    ensures { AreWholes origin axis whole result }
{
    let lower = behind_blank(origin, axis, whole, digits);
    [lower, behind_blank(origin, axis, whole + 1, digits)]
}

/// Turns such texts from one coordinate to another: in most rows it is the same one or the next.
pub(crate) fn turn_wholes(
    wholes: &mut [Piece<16>; 2],
    origin: Origin,
    axis: usize,
    from: u32,
    to: u32,
    digits: &Fours,
)
    requires wholes { AreWholes origin axis from wholes.old }
    requires axis { axis < 3 }
    requires from { from ≤ 1026 }
    requires to { to ≤ 1026 }
    ensures { AreWholes origin axis to wholes.new }
{
    if to == from {
        return;
    }
    if to != from + 1 {
        *wholes = wholes_of(origin, axis, to, digits);
        return;
    }
    let lower = wholes[1];
    *wholes = [lower, behind_next(&lower, origin, axis, to, digits)];
}

/// Puts the text of a coordinate behind another: the bytes that it has at most are moved at once.
#[inline(always)]
fn push_piece(text: &mut Piece<32>, piece: &Piece<16>)
    requires piece { piece.now.len ≤ 12 }
    requires room { text.old.len + 12 ≤ 32 }
    ensures text { piece_text text.new ≡ piece_text text.old ++ piece_text piece.now }
    ensures count { text.new.len ≡ text.old.len + piece.now.len }
{
    put_bytes(&mut text.bytes, text.len, &piece.bytes[..12]);
    text.len += piece.len;
}

/// Sets what stands before the decimals of a place along x: nothing.
#[inline(always)]
fn set_middle_x(middle: &mut Piece<32>)
    ensures text { piece_text middle.new ≡ [] }
    ensures count { middle.new.len ≡ 0 }
{
    middle.len = 0;
}

/// Sets what stands before the decimals of a place along y.
#[inline(always)]
fn set_middle_y(middle: &mut Piece<32>, y: &Piece<16>)
    requires { y.now.len ≤ 12 }
    ensures text { piece_text middle.new ≡ zeros ++ piece_text y.now }
    ensures count { middle.new.len ≡ y.now.len + 3 }
{
    middle.len = 0;
    middle.push(b"000");
    push_piece(middle, y);
}

/// And of one along z.
#[inline(always)]
fn set_middle_z(middle: &mut Piece<32>, y: &Piece<16>, z: &Piece<16>)
    requires y { y.now.len ≤ 12 }
    requires z { z.now.len ≤ 12 }
    ensures text { piece_text middle.new ≡ zeros ++ (piece_text y.now ++ (zeros ++ piece_text z.now)) }
    ensures count { middle.new.len ≡ y.now.len + z.now.len + 6 }
{
    set_middle_y(middle, y);
    middle.push(b"000");
    push_piece(middle, z);
}

/// Sets what stands behind the decimals of a place along x.
#[inline(always)]
fn set_tail_x(tail: &mut Piece<32>, y: &Piece<16>, z: &Piece<16>)
    requires y { y.now.len ≤ 12 }
    requires z { z.now.len ≤ 12 }
    ensures text { piece_text tail.new ≡ piece_text y.now ++ (zeros ++ (piece_text z.now ++ line zeros)) }
    ensures count { tail.new.len ≡ y.now.len + z.now.len + 7 }
{
    tail.len = 0;
    push_piece(tail, y);
    tail.push(b"000");
    push_piece(tail, z);
    tail.push(b"000\n");
}

/// Sets what stands behind the decimals of a place along y.
#[inline(always)]
fn set_tail_y(tail: &mut Piece<32>, z: &Piece<16>)
    requires { z.now.len ≤ 12 }
    ensures text { piece_text tail.new ≡ piece_text z.now ++ line zeros }
    ensures count { tail.new.len ≡ z.now.len + 4 }
{
    tail.len = 0;
    push_piece(tail, z);
    tail.push(b"000\n");
}

/// And of one along z.
#[inline(always)]
fn set_tail_z(tail: &mut Piece<32>)
    ensures text { piece_text tail.new ≡ line [] }
    ensures count { tail.new.len ≡ 1 }
{
    tail.len = 0;
    tail.push(b"\n");
}

/// The offsets from which on no edge along an axis lies in a pad's layer.
pub(crate) fn least_of(origin: Origin, y: u32, z: u32) -> [u16; 3]
    ensures { AreLeast origin y z result }
{
    let from_second = if is_layer(origin, 0, 0) { 3 } else { 0 };
    let along_y = if is_layer(origin, 1, y) { ROW_END } else { 0 };
    let along_z = if is_layer(origin, 2, z) { ROW_END } else { 0 };
    [from_second, along_y, along_z]
}

/// The parts that lines have between their numbers, for a row of points: `middles` and `tails` stand before and behind the
/// decimals of the place on an edge along each axis.
#[derive(Drop)]
struct RowParts {
    middles: [Piece<32>; 3],
    tails: [Piece<32>; 3],
    least: [u16; 3],
}

/// Sets the parts for a row, out of the texts of its coordinates, each in its place.
fn set_parts(
    parts: &mut RowParts,
    origin: Origin,
    y: u32,
    z: u32,
    y_piece: &Piece<16>,
    z_piece: &Piece<16>,
)
    requires y { IsPiece y_piece.now (y_text origin y) 12 }
    requires z { IsPiece z_piece.now (z_text origin z) 12 }
    ensures { AreParts origin y z parts.new }
{
    set_middle_x(&mut parts.middles[0]);
    set_middle_y(&mut parts.middles[1], y_piece);
    set_middle_z(&mut parts.middles[2], y_piece, z_piece);
    set_tail_x(&mut parts.tails[0], y_piece, z_piece);
    set_tail_y(&mut parts.tails[1], z_piece);
    set_tail_z(&mut parts.tails[2]);
    parts.least = least_of(origin, y, z);
}

/// Sets the fronts of the lines of so many points, and of one more.
pub(crate) fn set_fronts(fronts: &mut [Piece<16>; FRONTS], style: Style, count: u32, digits: &Fours)
    requires { count ≤ 1026 }
    ensures { AreFronts style (count + 1) fronts.new }
{
    for x in 0..count + 1 {
        fronts[x as usize] = front_of(style, x, digits);
    }
}

/// 1 on an edge along an axis, else 0.
fn step(edge: u16, axis: u16) -> usize
    ensures value { result ≡ (if axis == edge % 3 then 1 else 0) }
    ensures bound { result ≤ 1 }
{
    if axis == edge % 3 { 1 } else { 0 }
}

/// The parts of the lines of vertices on the edges of a row of points. Contracts see how the lines are written, how many
/// points there are, and where the row is.
#[derive(Drop)]
pub struct RowTexts {
    style: Style,
    count: u32,
    y: u32,
    z: u32,
    fronts: [Piece<16>; FRONTS],
    y_texts: [Piece<16>; 2],
    z_texts: [Piece<16>; 2],
    parts: RowParts,
}

impl Model for RowTexts {
    ghost use Rattle.mesh_lines.specs.RowLines.{AreTexts, RowPlace};

    ghost Value = { RowPlace };

    ghost view = { λ t. record { style = t.style; count = t.count; y = t.y; z = t.z } };

    ghost invariant = { λ t. AreTexts (record { style = t.style; count = t.count; y = t.y; z = t.z }) t.fronts
        t.y_texts t.z_texts t.parts };
}

impl RowTexts {
    /// The parts for the first row of a slice of so many points a row.
    pub fn new(style: Style, count: u32, block: &LineBuffer) -> RowTexts
        requires { count ≤ 1026 }
        ensures { result ≡ record { style = style; count = count; y = 0; z = 0 } }
    {
        let (origin, digits) = (style.origin, block.digits());
        let mut fronts = [Piece::new(); FRONTS];
        set_fronts(&mut fronts, style, count, digits);
        let y_texts = wholes_of(origin, 1, 0, digits);
        let z_texts = wholes_of(origin, 2, 0, digits);
        let mut parts = RowParts {
            middles: [Piece::new(); 3],
            tails: [Piece::new(); 3],
            least: [0; 3],
        };
        set_parts(&mut parts, origin, 0, 0, &y_texts[0], &z_texts[0]);
        RowTexts {
            style,
            count,
            y: 0,
            z: 0,
            fronts,
            y_texts,
            z_texts,
            parts,
        }
    }

    /// Turns to a row.
    pub fn move_to(&mut self, y: u32, z: u32, block: &LineBuffer)
        requires y { y ≤ 1026 }
        requires z { z ≤ 1026 }
        ensures { self.new ≡ record { style = self.old.style; count = self.old.count; y = y; z = z } }
    {
        let (origin, digits) = (self.style.origin, block.digits());
        turn_wholes(&mut self.y_texts, origin, 1, self.y, y, digits);
        turn_wholes(&mut self.z_texts, origin, 2, self.z, z, digits);
        self.y = y;
        self.z = z;
        let (y_piece, z_piece) = (&self.y_texts[0], &self.z_texts[0]);
        set_parts(&mut self.parts, origin, y, z, y_piece, z_piece);
    }

    /// Where the vertex on an edge is in thousandths.
    fn edge_position(&self, edge: u16, place: u16) -> [u32; 3]
        requires place { place ≤ 1000 }
        ensures x { slice_index result 0 ≡ 1000 * (edge / 3) + (if 0 == edge % 3 then place else 0) }
        ensures y { slice_index result 1 ≡ 1000 * self.now.y + (if 1 == edge % 3 then place else 0) }
        ensures z { slice_index result 2 ≡ 1000 * self.now.z + (if 2 == edge % 3 then place else 0) }
    {
        let mut at = [1000 * u32::from(edge / 3), 1000 * self.y, 1000 * self.z];
        at[usize::from(edge % 3)] += u32::from(place);
        at
    }

    /// Puts the line of the vertex at the upper end of an edge behind others: it has no decimals, and its whole coordinate along
    /// the edge is the next one.
    fn gather_upper_end(&self, edge: u16, lines: &mut Lines)
        requires edge { edge < 3 * self.now.count }
        requires room { length lines.old + 64 ≤ 69632 }
        ensures line { lines.new ≡ lines.old ++ vertex_line self.now.style (0, edge_at self.now edge 1000) }
        ensures few { length lines.new ≤ length lines.old + 64 }
    {
        lines.push_thirds(
            &self.fronts[usize::from(edge / 3) + step(edge, 0)],
            &self.y_texts[step(edge, 1)],
            &self.z_texts[step(edge, 2)],
            &[0; 3],
        );
    }

    /// Puts the line of the vertex on an edge behind others, where it is not made of the row's parts: at the edge's upper end, or
    /// in a pad's layer.
    #[inline(never)]
    fn gather_edge_apart(&self, edge: u16, place: u16, lines: &mut Lines)
        requires edge { edge < 3 * self.now.count }
        requires place { place ≤ 1000 }
        requires room { length lines.old + 64 ≤ 69632 }
        ensures line { lines.new ≡ lines.old ++ vertex_line self.now.style (0, edge_at self.now edge place) }
        ensures few { length lines.new ≤ length lines.old + 64 }
    {
        if place == 1000 {
            self.gather_upper_end(edge, lines);
            return;
        }
        self.style
            .gather_vertex(&self.edge_position(edge, place), lines);
    }

    /// Puts the line of the vertex on an edge behind others, by the edge's offset in the row.
    #[inline(always)]
    pub fn gather_edge(&self, edge: u16, place: u16, lines: &mut Lines)
        requires edge { edge < 3 * self.now.count }
        requires place { place ≤ 1000 }
        requires room { length lines.old + 64 ≤ 69632 }
        ensures line { lines.new ≡ lines.old ++ vertex_line self.now.style (0, edge_at self.now edge place) }
        ensures few { length lines.new ≤ length lines.old + 64 }
    {
        let axis = usize::from(edge % 3);
        if place == 1000 || edge < self.parts.least[axis] {
            self.gather_edge_apart(edge, place, lines);
            return;
        }
        let front = &self.fronts[usize::from(edge / 3)];
        lines.push_parts(
            front,
            &self.parts.middles[axis],
            place,
            &self.parts.tails[axis],
        );
    }
}
