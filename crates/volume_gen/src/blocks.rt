//! The generated volume: one number is worked out for each run of eight samples of a row.
ghost use Rattle.std.specs.Prelude.{◌≡◌, ◌+◌, ◌*◌, ◌<◌, ◌≤◌, ◌^◌, ◌++◌, OnOk, IfOk, pos, replicate, vec_len};
ghost use Rattle.volume_gen.specs.Generated.{block_sample, generated_volume, row_samples};

use crate::steps::step;
use iso_base::{Memory, SampleKind, Sizes, VoxelData};
use std::alloc::{AllocError, Global};

/// The sample of the points of a block.
#[tactic(auto, unfolding(crate::specs::Generated::block_sample))]
pub fn block_sample(seed: u64, block: u64) -> u8
    ensures { result ≡ block_sample seed block }
{
    let start = seed.wrapping_add(block.wrapping_mul(11_400_714_819_323_198_485));
    (step(step(start)) >> 56) as u8
}

/// Puts a sample behind the others, so many times.
fn add_run(sample: u8, count: usize, samples: &mut Vec<i64>) -> Result<(), AllocError>
    requires { vec_len samples.old + count < 2 ^ 64 }
    ensures { OnOk result (samples.new.items ≡ samples.old.items ++ replicate count (pos sample)) }
{
    samples.resize(samples.len() + count, i64::from(sample))
}

/// Puts the samples of a row behind the others.
fn add_row(seed: u64, nx: u32, y: u32, z: u32, samples: &mut Vec<i64>) -> Result<(), AllocError>
    requires x { nx ≤ 1026 }
    requires y { y < 1026 }
    requires z { z < 1026 }
    requires room { vec_len samples.old + nx < 2 ^ 64 }
    ensures { OnOk result (samples.new.items ≡ samples.old.items ++ row_samples seed y z nx) }
{
    let block = 256 * u64::from(y / 8) + 65_536 * u64::from(z / 8);
    for run in 0..nx.div_ceil(8) {
        let count = (nx - 8 * run).min(8) as usize;
        add_run(block_sample(seed, u64::from(run) + block), count, samples)?;
    }
    Ok(())
}

/// The generated volume of a seed and sizes: one sample of kind U8 for all points of each block of eight along each axis.
pub fn generate(alloc: Global, seed: u64, sizes: &Sizes) -> Result<VoxelData, Memory>
    ensures { IfOk result (λ v. v ≡ generated_volume seed sizes.now) }
{
    let (nx, ny) = (sizes.nx(), sizes.ny());
    let mut samples = Vec::with_capacity(alloc, sizes.count() as usize)?;
    for row in 0..ny * sizes.nz() {
        add_row(seed, nx, row % ny, row / ny, &mut samples)?;
    }
    Ok(VoxelData::new(*sizes, SampleKind::U8, samples))
}
