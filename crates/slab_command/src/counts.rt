//! What a slab owns of the whole mesh, in numbers.

ghost use Rattle.std.specs.Prelude.{◌≡◌, ◌+◌, ◌≤◌, ◌++◌, IfOk, decimal, length};
ghost use Rattle.arrayvec.specs.ArrayString.{array_string_len};
ghost use Rattle.slab_command.specs.Parts.{check_numbers, counts_text, largest_number, last_number, most_number};
ghost use Rattle.slab_command.specs.Slabs.{check_slices};

use crate::answer::SlabAnswer;
use crate::asked::{MOST_NUMBER, Slab, SlabFiles};
use arrayvec::ArrayString;
use mesh_text::TwoWayFormat;
use mesh_walk::{Numbering, PartCounts};
use number_digits::put_number;

/// How many of its stored slices a slab owns: the last one owns all of them, the others all but two.
pub fn owned_slices(slab: Slab, slices: u32) -> Result<u32, SlabAnswer>
    requires { 2 ≤ slices }
    ensures value { result ≡ check_slices slab slices }
    ensures some { IfOk result (λ owned. 1 ≤ owned) }
    ensures most { IfOk result (λ owned. owned ≤ slices) }
{
    if slab.is_last {
        return Ok(slices);
    }
    if slices < 3 {
        return Err(SlabAnswer::Thin { slices });
    }
    Ok(slices - 2)
}

/// The last of so many numbers from one on; 0 where there are none.
fn last_number(first: u32, count: u32) -> u64
    ensures { result ≡ last_number first count }
{
    if count == 0 {
        0
    } else {
        u64::from(first) + u64::from(count - 1)
    }
}

/// The largest number of a vertex that is written: of one on an edge, also behind what the slab owns since triangles name those of
/// the next slab too, or of a centre.
fn largest_number(numbers: Numbering, edges: u32, centres: u32) -> u64
    ensures { result ≡ largest_number numbers edges centres }
{
    last_number(numbers.first_edge, edges).max(last_number(numbers.first_centre, centres))
}

/// The largest number of a vertex that a file in a format may have, where vertices are counted from 0: OBJ counts from 1.
fn most_number(format: TwoWayFormat) -> u64
    ensures { result ≡ most_number format }
{
    match format {
        TwoWayFormat::Ply => MOST_NUMBER,
        TwoWayFormat::Obj => MOST_NUMBER - 1,
    }
}

/// Refuses numbers of vertices that a mesh file does not hold, where there are so many vertices on edges in the slab, and so many
/// centres that it owns.
pub fn check_numbers(files: &SlabFiles, edges: u32, centres: u32) -> Result<(), SlabAnswer>
    ensures { result ≡ check_numbers files.now edges centres }
{
    let largest = largest_number(files.numbers, edges, centres);
    if largest > most_number(files.format) {
        Err(SlabAnswer::Numbers { largest })
    } else {
        Ok(())
    }
}

/// Appends words and a number.
fn put_count(words: &str, count: u32, text: &mut ArrayString<128>)
    requires room { array_string_len text.old + length words.now + 10 ≤ 128 }
    ensures text { text.new.bytes ≡ text.old.bytes ++ (words.now ++ decimal count) }
    ensures room { array_string_len text.new ≤ array_string_len text.old + length words.now + 10 }
{
    text.push_str(words);
    put_number(count, text);
}

/// The line that says how many slices a slab owns, and what they have of the mesh.
pub fn counts_line(slices: u32, counts: PartCounts) -> ArrayString<128>
    ensures { result.bytes ≡ counts_text slices counts }
{
    let mut text = ArrayString::new();
    put_count("slab slices ", slices, &mut text);
    put_count(" edges ", counts.edges, &mut text);
    put_count(" centres ", counts.centres, &mut text);
    put_count(" triangles ", counts.faces, &mut text);
    text.push('\n');
    text
}
