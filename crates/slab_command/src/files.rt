//! The files of a slab's part of the mesh.

ghost use Rattle.std.specs.Prelude.{◌≡◌, ◌≤◌, length};
ghost use Rattle.iso_io.specs.Shelves.{Stores};
ghost use Rattle.mesh_walk.specs.Numbers.{AreFirst};
ghost use Rattle.slab_command.specs.Outcome.{StoresAll};
ghost use Rattle.slab_command.specs.Parts.{ending_of, file_name, origin_of, part_files, part_text, style_of};

use crate::asked::{Slab, SlabFiles};
use arrayvec::ArrayString;
use iso_base::{MeshFormat, Point};
use iso_io::{Failed, FileText, Shelf, Sink, write_file};
use list_mesh::ListPart;
use mesh_lines::{Origin, Style};
use mesh_text::TwoWayFormat;
use mesh_walk::Numbering;
use samples::Samples;

/// So many bytes of stack are taken to write a file: by the block of lines, and above it by the buffers of the triangles.
/// `tools/measure_stack.py` finds whether they are enough.
const STACK_BYTES: usize = 694_000;

/// Which lines of a part a file has.
#[derive(Clone, Copy)]
pub enum PartLines {
    /// Those of the vertices on edges.
    Edges,
    /// Those of the centres of loops.
    Centres,
    /// Those of the triangles.
    Triangles,
}

impl PartLines {
    /// What the name of their file ends with.
    fn ending(self) -> &'static str
        ensures text { result.now ≡ ending_of self }
        ensures few { length result.now ≤ 10 }
    {
        match self {
            PartLines::Edges => ".edges",
            PartLines::Centres => ".centres",
            PartLines::Triangles => ".triangles",
        }
    }
}

/// Where the coordinates of a slab are counted from, so that they are those of the whole.
fn origin_of(slab: Slab) -> Origin
    ensures { result ≡ origin_of slab }
{
    match slab.pad {
        None if slab.from == 0 => Origin::Volume,
        None => Origin::Window(Point {
            x: 0,
            y: 0,
            z: slab.from,
        }),
        Some(_) if slab.from == 0 => Origin::Pad,
        Some(_) => Origin::PaddedSlab(slab.from),
    }
}

/// How a slab is written.
fn style_of(slab: Slab, format: TwoWayFormat) -> Style
    ensures { result ≡ style_of slab format }
{
    Style {
        format: MeshFormat::from(format),
        origin: origin_of(slab),
    }
}

/// The name of the file of these lines.
fn file_name(name: &str, lines: PartLines) -> ArrayString<255>
    requires { length name.now ≤ 245 }
    ensures { result.bytes ≡ file_name name.now lines }
{
    let mut text = ArrayString::new();
    text.push_str(name);
    text.push_str(lines.ending());
    text
}

/// Lines of a part of a mesh, in a style, where triangles have vertices by these numbers.
#[derive(Drop)]
struct PartText<'a, S: Samples> {
    part: ListPart<'a, S>,
    style: Style,
    numbers: Numbering,
    lines: PartLines,
}

impl<'a, S: Samples> FileText for PartText<'a, S> {
    ghost use Rattle.mesh_walk.specs.Numbers.{AreFirst};
    ghost use Rattle.slab_command.specs.Parts.{part_text};
    ghost use Rattle.std.specs.Prelude.{◌≡◌, ⊤, refl};

    type Told = ();

    ghost text = { λ t. part_text t.part t.style t.numbers t.lines };

    ghost is_ready = { λ t. AreFirst t.numbers };

    ghost tells = { λ _ _. ⊤ };

    ghost keeps = { λ old new. new ≡ old };

    ghost stays = { λ _. refl };

    fn put<K: Sink>(&mut self, sink: &mut K) -> Result<(), Failed> {
        match self.lines {
            PartLines::Edges => self.part.write_edges(self.style, sink),
            PartLines::Centres => self.part.write_centres(self.style, sink),
            PartLines::Triangles => self.part.write_faces(self.style, self.numbers, sink),
        }
    }
}

/// Makes the file of these lines.
fn write_lines<S: Samples, H: Shelf>(
    text: &mut PartText<'_, S>,
    lines: PartLines,
    name: &str,
    shelf: &mut H,
) -> Result<(), Failed>
    requires name { length name.now ≤ 245 }
    requires numbers { AreFirst text.old.numbers }
    ensures file { Stores (H.seen shelf.old) (H.seen shelf.new) result (file_name name.now lines)
        (part_text text.old.part text.old.style text.old.numbers lines) }
    ensures part { text.new.part ≡ text.old.part }
    ensures style { text.new.style ≡ text.old.style }
    ensures numbers { text.new.numbers ≡ text.old.numbers }
{
    text.lines = lines;
    let name = file_name(name, lines);
    write_file::<_, _, STACK_BYTES>(shelf, name.as_str(), text)
}

/// Makes the three files of a slab's part of the mesh. The shelf is touched last, when all memory is taken. `Failed` comes only
/// where its count rose: the files before the one at which it did are whole then, that one is as before or a prefix, and those
/// behind it are as before.
pub fn write_files<S: Samples, H: Shelf>(
    part: ListPart<'_, S>,
    slab: Slab,
    files: &SlabFiles,
    shelf: &mut H,
) -> Result<(), Failed>
    requires name { length files.now.name ≤ 245 }
    requires numbers { AreFirst files.now.numbers }
    ensures { StoresAll (H.seen shelf.old) (H.seen shelf.new) result (part_files part.entry slab files.now) }
{
    let mut text = PartText {
        part,
        style: style_of(slab, files.format),
        numbers: files.numbers,
        lines: PartLines::Edges,
    };
    let name = files.name.as_str();
    write_lines(&mut text, PartLines::Edges, name, shelf)?;
    write_lines(&mut text, PartLines::Centres, name, shelf)?;
    write_lines(&mut text, PartLines::Triangles, name, shelf)
}
