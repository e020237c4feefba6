//! The lines of notes.

ghost use Rattle.std.specs.Prelude.{◌≡◌, ◌+◌, ◌++◌, ◌≤◌, codes, length};
ghost use Rattle.arrayvec.specs.ArrayString.{array_string_len};
ghost use Rattle.program.specs.Notes.{encoding_name, field_name, mesh_fault_text, note_by, note_line, note_of, nrrd_fault_text, size_fault_text, volume_fault_text};
ghost use Rattle.program.specs.Tries.{Tries};

use crate::answer::{Answer, VolumeFault};
use crate::parts::{put_counted, put_counted_twice, put_level_and_pad, put_named};
use arrayvec::ArrayString;
use byte_streams::{Sink, write_all_of};
use iso_base::SizeFault;
use refusals::{EncodingWord, Field, MeshFault, NrrdFault};

fn name_of_field(field: Field) -> &'static str
    ensures name { result.now ≡ field_name field }
    ensures length { length result.now ≤ 20 }
{
    match field {
        Field::Dimension => "dimension",
        Field::Kind => "type",
        Field::Sizes => "sizes",
        Field::Encoding => "encoding",
        Field::Endian => "endian",
        Field::LineSkip => "line skip",
        Field::ByteSkip => "byte skip",
    }
}

fn name_of_encoding(word: EncodingWord) -> &'static str
    ensures name { result.now ≡ encoding_name word }
    ensures length { length result.now ≤ 20 }
{
    match word {
        EncodingWord::Gzip => "gzip",
        EncodingWord::Bzip2 => "bzip2",
        EncodingWord::Unknown => "unknown",
    }
}

fn put_size(fault: SizeFault, into: &mut ArrayString<128>)
    requires room { array_string_len into.old ≤ 40 }
    ensures text { into.new.bytes ≡ into.old.bytes ++ size_fault_text fault }
    ensures room { array_string_len into.new ≤ 101 }
{
    match fault {
        SizeFault::TooThin { axis, n } => {
            put_counted_twice("size thin ", u64::from(axis), n, into);
        }
        SizeFault::AxisTooLong { axis, n } => {
            put_counted_twice("size axis ", u64::from(axis), n, into);
        }
        SizeFault::TooMany { n } => put_counted("size product ", n, into),
    }
}

#[tactic(auto, unfolding(crate::specs::Notes::nrrd_fault_text))]
fn put_nrrd(fault: NrrdFault, into: &mut ArrayString<128>)
    requires room { array_string_len into.old ≤ 10 }
    ensures text { into.new.bytes ≡ into.old.bytes ++ nrrd_fault_text fault }
    ensures room { array_string_len into.new ≤ 121 }
{
    match fault {
        NrrdFault::NotNrrd => into.push_str("volume 1 not nrrd"),
        NrrdFault::HeaderTooLong { bytes } => {
            put_counted("volume 2 header too long ", bytes, into);
        }
        NrrdFault::BadLine { line } => put_counted("volume 3 bad line ", u64::from(line), into),
        NrrdFault::RepeatedField { field } => {
            put_named("volume 4 repeated field ", name_of_field(field), into);
        }
        NrrdFault::MissingField { field } => {
            put_named("volume 5 missing field ", name_of_field(field), into);
        }
        NrrdFault::BadValue { field } => {
            put_named("volume 6 bad value ", name_of_field(field), into);
        }
        NrrdFault::UnsupportedKind => into.push_str("volume 7 unsupported type"),
        NrrdFault::UnsupportedEncoding { word } => {
            put_named(
                "volume 8 unsupported encoding ",
                name_of_encoding(word),
                into,
            );
        }
        NrrdFault::Detached { line } => put_counted("volume 9 detached ", u64::from(line), into),
        NrrdFault::SkipUnsupported { field } => {
            put_named("volume 10 skip unsupported ", name_of_field(field), into);
        }
        NrrdFault::NotThreeAxes { n } => put_counted("volume 11 not three axes ", n, into),
        NrrdFault::Size(fault) => {
            into.push_str("volume 12 ");
            put_size(fault, into);
        }
        NrrdFault::NoEndian => into.push_str("volume 13 no endian"),
        NrrdFault::ShortSamples { needed, present } => {
            put_counted_twice("volume 14 short samples ", needed, present, into);
        }
        NrrdFault::Memory => into.push_str("memory"),
        NrrdFault::BadSample { place } => put_counted("volume 19 bad sample ", place, into),
    }
}

#[tactic(auto, unfolding(crate::specs::Notes::volume_fault_text))]
fn put_volume(fault: VolumeFault, into: &mut ArrayString<128>)
    requires room { array_string_len into.old ≤ 10 }
    ensures text { into.new.bytes ≡ into.old.bytes ++ volume_fault_text fault }
    ensures room { array_string_len into.new ≤ 121 }
{
    match fault {
        VolumeFault::Nrrd(fault) => put_nrrd(fault, into),
        VolumeFault::Pad(fault) => {
            into.push_str("volume 16 pad ");
            put_size(fault, into);
        }
        VolumeFault::LevelNotAbovePad { level, pad } => {
            put_level_and_pad("volume 17 level not above pad ", level, pad, into);
        }
    }
}

#[tactic(auto, unfolding(crate::specs::Notes::mesh_fault_text))]
fn put_mesh(fault: MeshFault, into: &mut ArrayString<128>)
    requires room { array_string_len into.old ≤ 10 }
    ensures text { into.new.bytes ≡ into.old.bytes ++ mesh_fault_text fault }
    ensures room { array_string_len into.new ≤ 121 }
{
    match fault {
        MeshFault::NotMesh => into.push_str("mesh 1 not mesh"),
        MeshFault::BinaryPly => into.push_str("mesh 2 binary ply"),
        MeshFault::BadHeader { line } => put_counted("mesh 3 bad header ", u64::from(line), into),
        MeshFault::BadNumber { line } => put_counted("mesh 4 bad number ", u64::from(line), into),
        MeshFault::NotTriangle { line } => {
            put_counted("mesh 5 not triangle ", u64::from(line), into);
        }
        MeshFault::IndexOutside { line } => {
            put_counted("mesh 6 index outside ", u64::from(line), into);
        }
        MeshFault::ShortMesh { needed, present } => {
            put_counted_twice("mesh 7 short mesh ", needed, present, into);
        }
        MeshFault::TooMany { n } => put_counted("mesh 8 too many ", n, into),
        MeshFault::Memory => into.push_str("memory"),
    }
}

/// The name that the notes of the workbench begin with.
const WORKBENCH: &str = "isobench";

/// The front of each note of the program of this name.
fn front_of_note(name: &str) -> ArrayString<128>
    requires { length name.now ≤ 8 }
    ensures text { result.bytes ≡ name.now ++ codes ": " }
    ensures room { array_string_len result ≤ 10 }
{
    let mut text = ArrayString::new();
    text.push_str(name);
    text.push_str(": ");
    text
}

fn line_of(name: &str, words: &str) -> ArrayString<128>
    requires name { length name.now ≤ 8 }
    requires words { length words.now ≤ 20 }
    ensures { result.bytes ≡ note_line name.now words.now }
{
    let mut text = front_of_note(name);
    text.push_str(words);
    text.push('\n');
    text
}

fn volume_line(name: &str, fault: VolumeFault) -> ArrayString<128>
    requires { length name.now ≤ 8 }
    ensures { result.bytes ≡ note_line name.now (volume_fault_text fault) }
{
    let mut text = front_of_note(name);
    put_volume(fault, &mut text);
    text.push('\n');
    text
}

fn mesh_line(name: &str, fault: MeshFault) -> ArrayString<128>
    requires { length name.now ≤ 8 }
    ensures { result.bytes ≡ note_line name.now (mesh_fault_text fault) }
{
    let mut text = front_of_note(name);
    put_mesh(fault, &mut text);
    text.push('\n');
    text
}

#[tactic(auto, unfolding(crate::specs::Notes::note_by))]
fn note_by(name: &str, answer: Answer) -> ArrayString<128>
    requires { length name.now ≤ 8 }
    ensures { result.bytes ≡ note_by name.now answer }
{
    match answer {
        Answer::Done | Answer::MeshRefused => ArrayString::new(),
        Answer::BadWords => line_of(name, "bad words"),
        Answer::BadVolume(fault) => volume_line(name, fault),
        Answer::InputFault => line_of(name, "input fault"),
        Answer::InputTooLong => line_of(name, "input too long"),
        Answer::OutputFault => line_of(name, "output fault"),
        Answer::Memory => line_of(name, "memory"),
        Answer::ShelfFault => line_of(name, "shelf fault"),
        Answer::BadMesh(fault) => mesh_line(name, fault),
    }
}

/// Appends the line that says why the program of this name ends, or nothing where it is done or the mesh is refused.
/// Where the sink fails, a front of the line was taken, and no one is told.
pub fn put_note_by<N: Sink>(notes: &mut N, name: &str, answer: &Answer)
    requires { length name.now ≤ 8 }
    ensures { Tries (N.seen notes.old) (N.seen notes.new) (note_by name.now answer.now) }
{
    // No one is told where the sink fails.
    let _ = write_all_of(notes, note_by(name, *answer).as_str().as_bytes());
}

/// As `put_note_by`, with the name of the workbench.
pub fn put_note<N: Sink>(notes: &mut N, answer: &Answer)
    ensures { Tries (N.seen notes.old) (N.seen notes.new) (note_of answer.now) }
{
    put_note_by(notes, WORKBENCH, answer);
}
