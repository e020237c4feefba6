//! What the program tells of itself. The clause of each text is the same text again, as the lines that a reader sees.

ghost use Rattle.std.specs.Prelude.{◌≡◌};
ghost use Rattle.slab_command.specs.Help.{help_text, version_text};

use arrayvec::ArrayString;
use program::version_line;

const HELP: &str = "\
isoslab: one slab of the mesh of a volume that is larger than one process takes

Usage:
  isoslab count --level=V --from=Z [--pad=P] [--last]
  isoslab write --level=V --from=Z [--pad=P] [--last] [--format=ply|obj]
                --edges=E --centres=C NAME
  isoslab head VERTICES TRIANGLES
  isoslab [COMMAND] --help
  isoslab --version

count    reads an NRRD volume from standard input, some slices of a larger one, and
         writes how many vertices on edges, centres and triangles of the whole
         mesh are this slab's own:
             isoslab count --level=5 --from=0 < low.nrrd
           --from=Z     the first of its slices, counted from 0 without padding
           --last       its last slice is that of the whole; else the two last
                        ones are the first two of the next slab
           --pad=P      surround the whole with samples P below the level
write    does so, and writes its part of the mesh into the files NAME.edges,
         NAME.centres and NAME.triangles:
             isoslab write --level=5 --from=0 --edges=0 --centres=9 low < low.nrrd
           --edges=E    how many vertices on edges the slabs below have
           --centres=C  and how many all slabs have, with the centres of those
                        below
           --format=F   ply, which it is without this option, or obj
head     reads nothing and writes the head of a PLY file of so many vertices and
         triangles:
             isoslab head 12 10 > mesh.ply

The mesh of the whole is the head, and then the files of all slabs, the lowest
first: all edges, all centres and all triangles. OBJ has no head.

V, the level, is a number with at most three decimals, as 5 or -0.5; the others
are whole numbers. Options stand anywhere behind the command, each at most once.

Exit status; each but 0 puts a line into standard error:
  0  done, and the whole output was written
  2  the arguments are not a command line
  3  the slab, its pad, the level or the numbers are refused
  4  reading standard input failed
  5  the input has too many bytes
  6  writing standard output failed
  7  out of memory
  8  writing a file failed

Manual: README.md and docs/ of the repository isobench.
";

/// The help: what the program is, its commands with their options, what they read and write with examples, how the parts are put
/// together, what each exit status means, and where the manual is.
#[tactic(auto, unfolding(crate::specs::Help::help_text, crate::specs::Help::help_lines))]
pub fn help_text() -> &'static str
    ensures { result.now ≡ help_text }
{
    HELP
}

/// The line of the version.
pub fn version_text() -> ArrayString<32>
    ensures { result.bytes ≡ version_text }
{
    version_line("isoslab")
}
