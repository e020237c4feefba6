//! What the program tells of itself. The clause of each text is the same text again, as the lines that a reader sees.

ghost use Rattle.std.specs.Prelude.{◌≡◌};
ghost use Rattle.arguments.specs.Help.{help_text, version_text};

use arrayvec::ArrayString;
use program::version_line;

const HELP: &str = "\
isobench: a workbench for isosurfaces of integer volumes

Usage:
  isobench points --level=V
  isobench extract --level=V [--pad=P] [--format=ply|obj]
  isobench session --level=V [--pad=P] [--bricks=N] [--pages=N] NAME
  isobench check ply|obj
  isobench gen SEED NX NY NZ
  isobench soak SEED
  isobench [COMMAND] --help
  isobench --version

points   reads an NRRD volume from standard input and writes the points at which
         the surface crosses lattice edges, as PLY without faces:
             isobench points --level=5 < corner.nrrd > points.ply
extract  reads a volume and writes its mesh:
             isobench extract --level=5 --pad=0 < corner.nrrd > corner.ply
           --pad=P      put one more layer round the volume, of samples P below
                        the level, so that the mesh has no border
           --format=F   ply, which it is without this option, or obj
session  opens the volume in the file NAME, reads the lines of a script from
         standard input and writes a reply to each; lines also write files:
             echo report | isobench session --level=5 corner.nrrd
           --pad=P      as for extract
           --bricks=N   keep the mesh of at most N bricks (1 to 65536; 4096)
           --pages=N    in at most N pages (16 to 1048576; 65536)
check    reads a mesh text and writes whether it is a surface:
             isobench check ply < corner.ply
gen      reads nothing and writes the volume of a seed, in these sizes:
             isobench gen 1 64 64 64 > blocks.nrrd
soak     reads nothing, runs the script of a seed as a session does and writes
         ten of its replies, and the file soak.ply:
             isobench soak 7

V, the level, is a number with at most three decimals, as 5 or -0.5; the others
are whole numbers. Options stand anywhere behind the command, each at most once.

Exit status; each but 0 and 1 puts a line into standard error:
  0  done, and the whole output was written
  1  check: the mesh is not a surface
  2  the arguments are not a command line
  3  the volume, its pad or the level is refused
  4  reading standard input failed
  5  the input, or the volume file of a session, has too many bytes
  6  writing standard output failed
  7  out of memory
  8  the volume file of a session could not be read
  9  the mesh text is refused

Manual: README.md and docs/ of the repository isobench.
";

/// The help: what the program is, each command with its options, what it reads and writes and an example, what each exit
/// status means, and where the manual is.
#[tactic(auto, unfolding(crate::specs::Help::help_text, crate::specs::Help::help_lines))]
pub fn help_text() -> &'static str
    ensures { result.now ≡ help_text }
{
    HELP
}

/// The line of the version.
pub fn version_text() -> ArrayString<32>
    ensures { result.bytes ≡ version_text }
{
    version_line("isobench")
}
