//! The verdict on a mesh text.
ghost use Rattle.std.specs.Prelude.{◌≡◌, ◌^◌, ◌≤◌, length, Ok, IfOk, IfErr};
ghost use Rattle.byte_streams.specs.Seen.{Puts, ReadsWithin};
ghost use Rattle.mesh_read.specs.Answers.{Answers};
ghost use Rattle.commands.specs.Checks.{answer_to, Checks, HasMesh, HasNoMesh, HasVerdict, IsNoMesh, is_broken, mesh_in, mesh_limit};
ghost use Rattle.command_terms.specs.Outcome.{streams_between};
ghost use Rattle.program.specs.Verdicts.{verdict_text};

use iso_base::{Memory, TriangleList, Verdict};
use iso_io::{Failed, Sink, Source, read_all_of, write_all_of};
use mesh_check::verdict;
use mesh_read::{MeshFault, read_obj, read_ply};
use mesh_text::TwoWayFormat;
use program::{Answer, verdict_line};
use std::alloc::Global;

/// The most bytes of a mesh text.
const MESH_LIMIT: u64 = 1 << 30;

/// The mesh of a text.
fn read_mesh(alloc: Global, format: TwoWayFormat, bytes: &[u8]) -> Result<TriangleList, MeshFault>
    requires { length bytes.now ≤ 2 ^ 30 }
    ensures { Answers result (mesh_in format bytes.now) }
{
    match format {
        TwoWayFormat::Ply => read_ply(alloc, bytes),
        TwoWayFormat::Obj => read_obj(alloc, bytes),
    }
}

/// Why a text holds no mesh.
#[derive(Clone, Copy)]
pub enum NoMesh {
    /// It is none.
    Refused(MeshFault),
    /// Memory could not be had.
    Memory,
}

impl From<MeshFault> for NoMesh {
    ghost use Rattle.std.specs.Prelude.{◌≡◌};
    ghost use Rattle.commands.specs.Checks.{mesh_refusal};

    ghost from_gives = { λ fault reason. reason ≡ mesh_refusal fault };

    fn from(fault: MeshFault) -> NoMesh {
        match fault {
            MeshFault::Memory => NoMesh::Memory,
            fault => NoMesh::Refused(fault),
        }
    }
}

impl From<Memory> for NoMesh {
    ghost use Rattle.std.specs.Prelude.{◌≡◌};
    ghost use Rattle.commands.specs.declared.checking.NoMesh.TheVariants as reasons;

    ghost from_gives = { λ _ reason. reason ≡ reasons.Memory };

    fn from(_: Memory) -> NoMesh {
        NoMesh::Memory
    }
}

impl From<NoMesh> for Answer {
    ghost use Rattle.std.specs.Prelude.{◌≡◌};
    ghost use Rattle.commands.specs.Checks.{mesh_answer};

    ghost from_gives = { λ reason answer. answer ≡ mesh_answer reason };

    fn from(reason: NoMesh) -> Answer {
        match reason {
            NoMesh::Refused(fault) => Answer::BadMesh(fault),
            NoMesh::Memory => Answer::Memory,
        }
    }
}

/// The mesh of a text, which is let go; or why there is none.
fn mesh_of_text(alloc: Global, format: TwoWayFormat, bytes: Vec<u8>) -> Result<TriangleList, NoMesh>
    requires { length bytes.items ≤ 2 ^ 30 }
    ensures mesh { IfOk result (λ m. (mesh_in format bytes.items ≡ Ok m) × (length m.triangles ≤ 2 ^ 30)) }
    ensures fault { IfErr result (IsNoMesh format bytes.items) }
{
    Ok(read_mesh(alloc, format, &bytes)?)
}

/// The verdict on a mesh text, or why there is none.
fn verdict_of_text(alloc: Global, format: TwoWayFormat, bytes: Vec<u8>) -> Result<Verdict, NoMesh>
    requires { length bytes.items ≤ 2 ^ 30 }
    ensures verdict { IfOk result (λ v. HasVerdict format v bytes.items) }
    ensures fault { IfErr result (IsNoMesh format bytes.items) }
{
    let mesh = mesh_of_text(alloc, format, bytes)?;
    Ok(verdict(alloc, &mesh)?)
}

/// The verdict on the mesh text of the whole input.
fn verdict_of_input<S: Source>(
    alloc: Global,
    format: TwoWayFormat,
    input: &mut S,
) -> Result<Verdict, Answer>
    ensures verdict { IfOk result (λ v. HasMesh format (S.seen input.old) (S.seen input.new) v) }
    ensures reading { ReadsWithin mesh_limit (S.seen input.old) (S.seen input.new) }
    ensures fault { IfErr result (λ answer. HasNoMesh format (S.seen input.old) (S.seen input.new) answer) }
{
    let bytes = read_all_of(alloc, input, MESH_LIMIT)?;
    Ok(verdict_of_text(alloc, format, bytes)?)
}

/// What a verdict is answered.
fn answer(verdict: Verdict) -> Answer
    ensures { result ≡ answer_to (is_broken verdict) }
{
    match verdict {
        Verdict::Closed | Verdict::Border { .. } => Answer::Done,
        Verdict::RepeatedCorner { .. } | Verdict::EdgeTwice { .. } | Verdict::SplitVertex { .. } =>
            Answer::MeshRefused,
    }
}

/// Appends the line of a verdict.
fn put_verdict<K: Sink>(output: &mut K, verdict: Verdict) -> Result<(), Failed>
    ensures { Puts (K.seen output.old) (K.seen output.new) result (verdict_text verdict) }
{
    write_all_of(output, verdict_line(verdict).as_bytes())
}

/// Says whether the mesh of a text is a surface, closed or with a border, or where it is broken.
pub fn check<S: Source, K: Sink>(
    alloc: Global,
    format: TwoWayFormat,
    input: &mut S,
    output: &mut K,
) -> Answer
    ensures checks { Checks format (streams_between S.seen K.seen input.old input.new output.old output.new) result }
    ensures reading { ReadsWithin mesh_limit (S.seen input.old) (S.seen input.new) }
{
    let verdict = match verdict_of_input(alloc, format, input) {
        Ok(verdict) => verdict,
        Err(answer) => return answer,
    };
    match put_verdict(output, verdict) {
        Ok(()) => answer(verdict),
        Err(Failed) => Answer::OutputFault,
    }
}
