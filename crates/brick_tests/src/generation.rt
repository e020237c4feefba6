//! Generated volumes, and the lines of the soak script.
use arrayvec::ArrayString;
use iso_base::{Memory, Sizes, VoxelData};
use std::alloc::Global;
use std::process::Abort;
use volume_gen::{SoakLines, generate};

/// The samples of these sizes and this seed.
fn volume(alloc: Global, sizes: [u64; 3], seed: u64) -> Result<VoxelData, Memory> {
    let Ok(sizes) = Sizes::new(sizes[0], sizes[1], sizes[2]) else {
        return Err(Memory);
    };
    generate(alloc, seed, &sizes)
}

#[test]
fn a_cube_of_one_block(rt: HostRuntime) {
    let volume = volume(rt.alloc(), [2, 2, 2], 0).expect(&rt, "memory suffices");
    assert_eq!(rt; volume.samples(), [26; 8].as_slice());
}

/// The first samples of seed 7, of which eight are a block.
const FIRST: [i64; 10] = [244, 244, 244, 244, 244, 244, 244, 244, 133, 133];

fn check_rows(rt: &impl Abort, samples: &[i64]) {
    assert_eq!(rt; samples.get(..10), Some(FIRST.as_slice()));
    let last = (samples.get(16), samples.get(9 + 17 * (17 + 18 * 25)));
    assert_eq!(rt; last, (Some(&21), Some(&9)));
}

#[test]
fn rows_of_three_blocks(rt: HostRuntime) {
    let volume = volume(rt.alloc(), [17, 18, 26], 7).expect(&rt, "memory suffices");
    check_rows(&rt, volume.samples());
}

/// The first lines of seed 7.
const LINES: &str =
    "level 127\nwork 1\nset 41 3 40 20\nwork 3\nlevel 67\nwork 3\nset 48 29 34 253\nwork 3\nset 31 24 33 54\nwork 2\nfill 24 32 41 31 39 48 197";

#[test]
fn the_script_of_seven(rt: HostRuntime) {
    let mut lines = SoakLines::new(7);
    let mut line = ArrayString::new();
    for wanted in LINES.split('\n') {
        assert!(rt; lines.next_line(&mut line) && line.as_str() == wanted);
    }
    for _ in 0..399 {
        assert!(rt; lines.next_line(&mut line));
    }
    assert_eq!(rt; line.as_str(), "ply soak.ply");
    assert!(rt; !lines.next_line(&mut line));
}
