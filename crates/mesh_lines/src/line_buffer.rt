//! A text that is gathered in a block on the stack before it is written.
//!
//! A block goes out when it has 64 KiB, so that each write but the last covers whole pages of a file. Lines are made in
//! the block itself: made in a page and moved, they took 2.5 % more instructions on noise.
ghost use Rattle.std.specs.Prelude.{◌≡◌, ◌+◌, ◌*◌, ◌<◌, ◌≤◌, ◌^◌, ◌∷◌, ◌++◌, [], All, decimal, take, length, IfOk};
ghost use Rattle.iso_defs.specs.Bytes.{space};
ghost use Rattle.byte_streams.specs.Seen.{Puts};
ghost use Rattle.mesh_text.specs.Lines.{letter_line};
ghost use Rattle.mesh_text.specs.Numbers.{IsShort, number_text};
ghost use Rattle.mesh_lines.specs.Lines.{head_of, middle_of, vertex_line};
ghost use Rattle.mesh_lines.specs.Blocks.{Adds, Gathered, IsBehind};
ghost use Rattle.mesh_lines.specs.RowLines.{centre_at, edge_at};
ghost use Rattle.mesh_lines.specs.Triangles.{first_of, letter_of};

use crate::centre_texts::CentreTexts;
use crate::row_texts::RowTexts;
use crate::style::Style;
use byte_streams::{Failed, Sink, write_all_of};
use iso_base::MeshFormat;
use mesh_more::{off_head_text, vtk_faces_text, vtk_head_text};
use mesh_text::{Counter, Fours, Lines, Number, ply_head_text};
use std::marker::Model;

/// The bytes that are written at once, as soon as they wait, so that each write of a file but the last covers whole pages of it.
const BLOCK_BYTES: usize = 65_536;

/// The bytes of a block and of one page more, which may be put behind what is less than a block.
const SPACE_BYTES: usize = 69_632;

/// The bytes that there is room for when a call appends the lines of one cell or of one point.
const ROOM_BYTES: usize = 3_072;

/// Writes bytes from a place on.
#[inline(always)]
pub(crate) fn put_bytes(room: &mut [u8], at: usize, bytes: &[u8])
    requires { at + length bytes.now ≤ length room.old }
    ensures { take (at + length bytes.now) room.new ≡ take at room.old ++ bytes.now }
{
    room[at..at + bytes.len()].copy_from_slice(bytes);
}

/// Bytes of a text that wait to be written, and how many were written before them. Lines are made where they wait.
/// Contracts see these bytes, how many of them stand behind a whole block, and the number of all that were put, which
/// stands still at the end of its type.
#[derive(Drop)]
pub struct LineBuffer {
    lines: Lines,
    written: u64,
}

impl Model for LineBuffer {
    ghost use Rattle.std.specs.Prelude.{◌+◌, ◌-◌, length};
    ghost use Rattle.mesh_lines.specs.Blocks.{Gathered, counted};

    ghost Value = { Gathered };

    ghost view = { λ b. record {
      waiting = b.lines;
      page = length b.lines - 65536;
      total = counted (b.written + length b.lines);
    } };
}

impl LineBuffer {
    /// No bytes. Apart, so that what it moves is gone when lines are made.
    #[inline(never)]
    pub fn new() -> LineBuffer
        ensures { result ≡ record { waiting = []; page = 0; total = 0 } }
    {
        LineBuffer {
            lines: Lines::new(),
            written: 0,
        }
    }

    /// How many bytes were put in all.
    pub fn total(&self) -> u64
        ensures { result ≡ self.now.total }
    {
        self.written.saturating_add(self.lines.len() as u64)
    }

    /// Puts bytes behind the others, where there is no whole block.
    pub fn push(&mut self, bytes: &[u8])
        requires page { self.old.page ≡ 0 }
        requires room { length self.old.waiting + length bytes.now ≤ 65536 }
        ensures put { IsBehind self.old self.new bytes.now }
        ensures bytes { self.new.total ≤ self.old.total + length bytes.now }
    {
        self.lines.push(bytes);
    }

    /// Puts what stands before the vertices behind the others, where there is no whole block: nothing in OBJ.
    pub fn push_head(&mut self, format: MeshFormat, vertices: u32, faces: u32)
        requires page { self.old.page ≡ 0 }
        requires room { length self.old.waiting + 256 ≤ 65536 }
        ensures put { IsBehind self.old self.new (head_of format vertices faces) }
        ensures bytes { self.new.total ≤ self.old.total + 256 }
    {
        match format {
            MeshFormat::Ply => self.push(ply_head_text(vertices, faces).as_str().as_bytes()),
            MeshFormat::Obj => {}
            MeshFormat::Off => self.push(off_head_text(vertices, faces).as_str().as_bytes()),
            MeshFormat::Vtk => self.push(vtk_head_text(vertices).as_str().as_bytes()),
        }
    }

    /// Puts what stands between the vertices and the triangles behind the others: a line in VTK, before which all that waits is
    /// written, else nothing.
    pub fn write_middle<K: Sink>(
        &mut self,
        format: MeshFormat,
        faces: u32,
        sink: &mut K,
    ) -> Result<(), Failed>
        ensures put { Adds (K.seen sink.old) (K.seen sink.new) self.old self.new result (middle_of format faces) }
        ensures bytes { IfOk result (λ _. self.new.total ≤ self.old.total + 256) }
    {
        match format {
            MeshFormat::Ply | MeshFormat::Obj | MeshFormat::Off => {}
            MeshFormat::Vtk => {
                self.write_waiting(sink)?;
                self.push(vtk_faces_text(faces).as_str().as_bytes());
            }
        }
        Ok(())
    }

    /// Puts the line of the vertex on an edge behind the others, by the edge's offset in the row that the texts are for.
    #[inline(always)]
    pub fn push_edge(&mut self, texts: &RowTexts, edge: u16, place: u16)
        requires page { self.old.page + 64 ≤ 4096 }
        requires edge { edge < 3 * texts.now.count }
        requires place { place ≤ 1000 }
        ensures put { IsBehind self.old self.new (vertex_line texts.now.style (0, edge_at texts.now edge place)) }
        ensures few { self.new.page ≤ self.old.page + 64 }
        ensures bytes { self.new.total ≤ self.old.total + 64 }
    {
        texts.gather_edge(edge, place, &mut self.lines);
    }

    /// Puts the line of the centre of a loop behind the others, by how far its cell is along x in that row and by the place in
    /// the cell.
    #[inline(always)]
    pub fn push_centre(&mut self, texts: &CentreTexts, x: u32, at: &[u32; 3])
        requires page { self.old.page + 64 ≤ 4096 }
        requires x { x < texts.now.count }
        requires at { All (λ n. n ≤ 1000) at.now }
        ensures put { IsBehind self.old self.new (vertex_line texts.now.style (0, centre_at texts.now x at.now)) }
        ensures few { self.new.page ≤ self.old.page + 64 }
        ensures bytes { self.new.total ≤ self.old.total + 64 }
    {
        texts.gather_centre(x, at, &mut self.lines);
    }

    /// The table of digits.
    #[inline(always)]
    pub(crate) fn digits(&self) -> &Fours {
        self.lines.digits()
    }

    /// Counts corners of triangles in text, from one on.
    #[inline(always)]
    pub fn count_corners(&self, style: Style, corner: u32) -> Counter
        ensures { result ≡ first_of style.format + corner }
    {
        style.count_corners(corner, &self.lines)
    }

    /// Sets a text to that of the next corner.
    #[inline(always)]
    pub fn set_next(&self, corners: &mut Counter, number: &mut Number)
        requires { corners.old ≤ 2 ^ 32 }
        ensures text { number_text number.new ≡ decimal corners.old ++ space ∷ [] }
        ensures next { corners.new ≡ corners.old + 1 }
    {
        corners.set_next(self.lines.digits(), number);
    }

    /// Puts the line of a triangle, whose corners' texts are at hand, behind the others.
    #[inline(always)]
    pub fn push_texts(&mut self, style: Style, a: &Number, b: &Number, c: &Number)
        requires first { IsShort a.now }
        requires second { IsShort b.now }
        requires third { IsShort c.now }
        requires room { self.old.page + 64 ≤ 4096 }
        ensures put { let line = letter_line (letter_of style.format) in
            IsBehind self.old self.new (line (number_text a.now) (number_text b.now) (number_text c.now)) }
        ensures few { self.new.page ≤ self.old.page + 64 }
        ensures bytes { self.new.total ≤ self.old.total + 64 }
    {
        style.gather_texts(a, b, c, &mut self.lines);
    }

    /// Makes room for more lines: where there is too little, a whole block is written.
    #[inline(always)]
    pub fn reserve<K: Sink>(&mut self, sink: &mut K) -> Result<(), Failed>
        ensures put { Adds (K.seen sink.old) (K.seen sink.new) self.old self.new result [] }
        ensures room { IfOk result (λ _. self.new.page + 3072 ≤ 4096) }
        ensures bytes { self.new.total ≡ self.old.total }
    {
        if self.lines.len() <= SPACE_BYTES - ROOM_BYTES {
            return Ok(());
        }
        self.settle(sink)
    }

    /// Writes the whole block that waits. What stands behind it moves to the front and waits on.
    fn settle<K: Sink>(&mut self, sink: &mut K) -> Result<(), Failed>
        requires whole { 1024 < self.old.page }
        requires few { self.old.page ≤ 4096 }
        ensures put { Adds (K.seen sink.old) (K.seen sink.new) self.old self.new result [] }
        ensures room { IfOk result (λ _. self.new.page ≡ 0) }
        ensures bytes { self.new.total ≡ self.old.total }
    {
        write_all_of(sink, &self.lines.as_bytes()[..BLOCK_BYTES])?;
        self.lines.drop_front(BLOCK_BYTES);
        self.written = self.written.saturating_add(BLOCK_BYTES as u64);
        Ok(())
    }

    /// Writes what waits; then nothing waits.
    pub fn write_waiting<K: Sink>(&mut self, sink: &mut K) -> Result<(), Failed>
        ensures text { Puts (K.seen sink.old) (K.seen sink.new) result self.old.waiting }
        ensures none { IfOk result (λ _. (self.new.waiting ≡ []) × (self.new.page ≡ 0)) }
        ensures total { self.new.total ≡ self.old.total }
    {
        write_all_of(sink, self.lines.as_bytes())?;
        self.written = self.total();
        self.lines.clear();
        Ok(())
    }
}
