//! What the program of points alone tells of itself. The clause of each text is the same text again, as the lines that a reader
//! sees.

ghost use Rattle.std.specs.Prelude.{◌≡◌};
ghost use Rattle.point_command.specs.Help.{help_text, version_text};

use arrayvec::ArrayString;
use program::version_line;

const HELP: &str = "\
isopoints: the points at which an isosurface crosses the edges of a lattice

Usage:
  isopoints points --level=V
  isopoints [points] --help
  isopoints --version

points   reads an NRRD volume from standard input and writes the points at which
         the surface crosses lattice edges, as PLY without faces:
             isopoints points --level=5 < corner.nrrd > points.ply

V, the level, is a number with at most three decimals, as 5 or -0.5. The other
commands of the workbench are those of the program isobench.

Exit status; each but 0 puts a line into standard error:
  0  done, and the whole output was written
  2  the arguments are not a command line
  3  the volume is refused
  4  reading standard input failed
  5  the input has too many bytes
  6  writing standard output failed
  7  out of memory

Manual: README.md and docs/ of the repository isobench.
";

/// The help: what the program is, its command with its option, what it reads and writes and an example, what each exit status
/// means, and where the manual is.
#[tactic(auto, unfolding(crate::specs::Help::help_text, crate::specs::Help::help_lines))]
pub fn help_text() -> &'static str
    ensures { result.now ≡ help_text }
{
    HELP
}

/// The line of the version.
pub fn version_text() -> ArrayString<32>
    ensures { result.bytes ≡ version_text }
{
    version_line("isopoints")
}
