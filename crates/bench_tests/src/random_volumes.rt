//! What the bench answers of random volumes, beside what the triangles of extraction from scratch say.

ghost use Rattle.std.specs.Prelude.{◌≡◌, ◌<◌, IfOk, length};
ghost use Rattle.iso_defs.specs.Scratch.{triangles, vertices};
ghost use Rattle.iso_base.specs.Volume.{field};
ghost use Rattle.iso_base.specs.Triangles.{triangles_of};

use crate::calls::begin;
use crate::measures::measured_from_scratch;
use bench_core::{Bench, Capacity};
use fan_laws::{mesh_sizes, one_fan};
use flat_mesh::extract_flat;
use iso_base::{Level, Memory, TriangleList};
use mesh_report::{Report, report};
use nrrd_read::read_volume;
use std::alloc::Global;
use std::process::Abort;
use std::test::Fail;
use voxel_list::VoxelList;

/// The next number of a series, and a part of it.
fn next(seed: &mut u64, bound: u64) -> u64
    requires { 0 < bound }
    ensures { result < bound }
{
    *seed = seed
        .wrapping_mul(6_364_136_223_846_793_005)
        .wrapping_add(1_442_695_040_888_963_407);
    (*seed >> 33) % bound
}

/// The header of a volume file, and how many samples the volume has.
fn header(choice: u64) -> (&'static [u8], u64) {
    match choice {
        0 => (
            b"NRRD0001\ntype: uint8\ndimension: 3\nsizes: 2 3 4\nencoding: raw\n\n".as_slice(),
            24,
        ),
        1 => (
            b"NRRD0001\ntype: uint8\ndimension: 3\nsizes: 5 2 9\nencoding: raw\n\n".as_slice(),
            90,
        ),
        2 => (
            b"NRRD0001\ntype: uint8\ndimension: 3\nsizes: 9 6 3\nencoding: raw\n\n".as_slice(),
            162,
        ),
        3 => (
            b"NRRD0001\ntype: uint8\ndimension: 3\nsizes: 4 5 10\nencoding: raw\n\n".as_slice(),
            200,
        ),
        _ => (
            b"NRRD0001\ntype: uint8\ndimension: 3\nsizes: 10 6 9\nencoding: raw\n\n".as_slice(),
            540,
        ),
    }
}

/// A volume file with samples of 0 to 4, of which the lower ones are more or less frequent.
fn file_of(alloc: Global, seed: &mut u64) -> Result<Vec<u8>, Fail> {
    let (header, count) = header(next(seed, 5));
    let mut bytes = Vec::from_slice(alloc, header)?;
    let most = 2 + next(seed, 4);
    for _ in 0..count {
        let (a, b) = (next(seed, most), next(seed, 5));
        bytes.push(a.min(b) as u8)?;
    }
    Ok(bytes)
}

/// A volume of 2 to 10 points along each axis, with a pad or without one.
fn volume_of(rt: &impl Abort, alloc: Global, seed: &mut u64) -> Result<VoxelList, Fail> {
    let bytes = file_of(alloc, seed)?;
    let (voxels, _) = read_volume(alloc, &bytes)
        .ok()
        .expect(rt, "it is a volume file");
    let volume = VoxelList::of(voxels);
    if next(seed, 3) == 0 {
        let padded = volume.padded(alloc, 0).ok();
        return Ok(padded.expect(rt, "there is room for a pad"));
    }
    Ok(volume)
}

/// The triangles of the mesh of a volume from scratch.
fn mesh_triangles(alloc: Global, volume: &VoxelList, level: Level) -> Result<TriangleList, Memory>
    ensures vertices { IfOk result (λ t. t.vertex_count
        ≡ length (vertices volume.now.grid (field volume.now.samples level))) }
    ensures triangles { IfOk result (λ t. triangles_of t.triangles
        ≡ triangles volume.now.grid (field volume.now.samples level)) }
{
    extract_flat(alloc, volume, level)?.triangle_list(alloc)
}

/// The report on these triangles.
fn report_by_triangles(alloc: Global, volume: &VoxelList, level: Level) -> Result<Report, Memory> {
    one_fan(volume, level);
    mesh_sizes();
    let _ = volume.sizes();
    let triangles = mesh_triangles(alloc, volume, level)?;
    report(alloc, &triangles)
}

/// Whether the bench answers what the triangles say.
fn has_answers(
    rt: &impl Abort,
    alloc: Global,
    bench: &Bench,
    volume: &VoxelList,
    level: Level,
) -> Result<bool, Fail> {
    let wanted = report_by_triangles(alloc, volume, level)?;
    let measured = measured_from_scratch(rt, alloc, volume, level)?;
    let (Ok(told), Ok(shares)) = (bench.report(), bench.measure()) else {
        return Ok(false);
    };
    Ok(
        told.total() == wanted.total()
            && told.parts() == wanted.parts()
            && shares.shares() == measured.shares(),
    )
}

#[test]
fn random_volumes(rt: HostRuntime) -> Result<(), Fail> {
    let alloc = rt.alloc();
    let mut seed = 48;
    for _ in 0..100 {
        let from = seed;
        let volume = volume_of(&rt, alloc, &mut seed)?;
        let mut again = from;
        let same = volume_of(&rt, alloc, &mut again)?;
        let thousandths = 500 + 250 * next(&mut seed, 14) as i128;
        let level = Level::new(thousandths).expect(&rt, "it is a level");
        let capacity = Capacity::new(16, 64).expect(&rt, "it is a capacity");
        let bench = begin(alloc, volume, thousandths, capacity).expect(&rt, "a bench is opened");
        assert!(rt; has_answers(&rt, alloc, &bench, &same, level)?, "{from}");
    }
    Ok(())
}
