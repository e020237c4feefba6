//! Tests of messages, exit statuses and lines of verdicts.

use iso_base::{SizeFault, Verdict};
use iso_io::MemSink;
use mesh_read::MeshFault;
use nrrd::{EncodingWord, NrrdFault};
use program::{Answer, VolumeFault, put_note, verdict_line};
use std::test::Fail;

const FAULTS: &[VolumeFault] = &[
    VolumeFault::LevelNotAbovePad { level: 0, pad: 0 },
    VolumeFault::LevelNotAbovePad {
        level: -1_001,
        pad: -1,
    },
    VolumeFault::Pad(SizeFault::AxisTooLong { axis: 0, n: 1027 }),
    VolumeFault::Nrrd(NrrdFault::UnsupportedEncoding {
        word: EncodingWord::Gzip,
    }),
    VolumeFault::Nrrd(NrrdFault::ShortSamples {
        needed: 54,
        present: 53,
    }),
    VolumeFault::Nrrd(NrrdFault::Size(SizeFault::TooThin { axis: 0, n: 1 })),
    VolumeFault::Nrrd(NrrdFault::Detached { line: 5 }),
    VolumeFault::Nrrd(NrrdFault::NotNrrd),
    VolumeFault::Nrrd(NrrdFault::Memory),
    VolumeFault::Nrrd(NrrdFault::BadSample { place: 2 }),
];

const ANSWERS: &[Answer] = &[
    Answer::Done,
    Answer::MeshRefused,
    Answer::BadMesh(MeshFault::NotTriangle { line: 14 }),
    Answer::BadWords,
];

const NOTES: &str =
    "isobench: volume 17 level not above pad 0 0\nisobench: volume 17 level not above pad -1.001 -1\nisobench: volume 16 pad size axis 0 1027\nisobench: volume 8 unsupported encoding gzip\nisobench: volume 14 short samples 54 53\nisobench: volume 12 size thin 0 1\nisobench: volume 9 detached 5\nisobench: volume 1 not nrrd\nisobench: memory\nisobench: volume 19 bad sample 2\nisobench: mesh 5 not triangle 14\nisobench: bad words\n";

fn put_notes(notes: &mut MemSink) {
    for fault in FAULTS {
        put_note(notes, &Answer::BadVolume(*fault));
    }
    for answer in ANSWERS {
        put_note(notes, answer);
    }
}

#[test]
fn notes_are_written(rt: HostRuntime) -> Result<(), Fail> {
    let mut notes = MemSink::new(rt.alloc(), 1000, Vec::new(rt.alloc()))?;
    put_notes(&mut notes);
    assert_eq!(rt; notes.bytes(), NOTES.as_bytes());
    Ok(())
}

const STATUSES: &[(Answer, u8)] = &[
    (Answer::Done, 0),
    (Answer::MeshRefused, 1),
    (Answer::BadWords, 2),
    (Answer::BadVolume(VolumeFault::Nrrd(NrrdFault::NoEndian)), 3),
    (Answer::BadVolume(VolumeFault::Nrrd(NrrdFault::Memory)), 7),
    (Answer::ShelfFault, 8),
    (Answer::BadMesh(MeshFault::NotMesh), 9),
    (Answer::BadMesh(MeshFault::Memory), 7),
];

#[test]
fn statuses_have_numbers(rt: HostRuntime) {
    for (answer, number) in STATUSES {
        assert_eq!(rt; answer.status().number(), *number);
    }
}

const VERDICTS: &[(Verdict, &str)] = &[
    (Verdict::Closed, "closed\n"),
    (Verdict::Border { edges: 3 }, "border 3\n"),
    (Verdict::RepeatedCorner { t: 0 }, "repeated corner 0\n"),
    (Verdict::EdgeTwice { a: 0, b: 1 }, "edge twice 0 1\n"),
    (Verdict::SplitVertex { v: 0 }, "split vertex 0\n"),
];

#[test]
fn verdicts_are_told(rt: HostRuntime) {
    for (verdict, line) in VERDICTS {
        assert_eq!(rt; verdict_line(*verdict).as_str(), *line);
    }
}
