//! How many crossing edges begin at points, by their flags.
ghost use Rattle.std.specs.Prelude.{◌≡◌, ℕ, ◌+◌, ◌-◌, ◌*◌, ◌<◌, ◌≤◌, ◌↔◌, All, IsTrue, length, slice_index, take};
ghost use Rattle.std.specs.List.{sum_by};
ghost use Rattle.crossing_edges.specs.Flags.{edges_in};

/// How many bits each number below eight has.
const COUNTS: [u8; 8] = [0, 1, 1, 2, 1, 2, 2, 3];

/// How many crossing edges begin at a point of these flags.
#[inline(always)]
#[tactic(auto, using(crate::proofs::FlagCounts::counts_are))]
pub fn count_edges(flags: u8) -> u32
    requires { flags < 8 }
    ensures value { result ≡ edges_in flags }
    ensures bound { result ≤ 3 }
{
    u32::from(COUNTS[flags as usize])
}

/// Whether no crossing edge begins at the eight points from a place on.
#[inline(always)]
pub fn begin_none(flags: &[u8], from: usize) -> bool
    requires { from + 8 ≤ length flags.now }
    ensures { IsTrue result ↔ ((k : ℕ) → k < 8 → slice_index flags.now (from + k) ≡ 0) }
{
    let eight = &flags[from..from + 8];
    let eight = [
        eight[0], eight[1], eight[2], eight[3], eight[4], eight[5], eight[6], eight[7],
    ];
    u64::from_le_bytes(eight) == 0
}

/// How many crossing edges begin at the points from a place to before an end.
#[inline(always)]
fn count_run(flags: &[u8], from: usize, end: usize) -> u32
    requires flags { All (λ f. f < 8) flags.now }
    requires few { length flags.now ≤ 160000000 }
    requires from { from ≤ end }
    requires end { end ≤ length flags.now }
    ensures value { sum_by edges_in (take end flags.now) ≡ sum_by edges_in (take from flags.now) + result }
    ensures bound { result ≤ 3 * (end - from) }
{
    let mut count = 0;
    for i in from..end {
        count += count_edges(flags[i]);
    }
    count
}

/// How many crossing edges begin at the eight points from a place on.
#[inline(always)]
fn count_eight(flags: &[u8], from: usize) -> u32
    requires flags { All (λ f. f < 8) flags.now }
    requires few { length flags.now ≤ 160000000 }
    requires eight { from + 8 ≤ length flags.now }
    ensures value { sum_by edges_in (take (from + 8) flags.now) ≡ sum_by edges_in (take from flags.now) + result }
    ensures bound { result ≤ 24 }
{
    if begin_none(flags, from) {
        return 0;
    }
    count_run(flags, from, from + 8)
}

/// How many crossing edges begin at points of these flags.
pub fn count_all_edges(flags: &[u8]) -> u32
    requires flags { All (λ f. f < 8) flags.now }
    requires few { length flags.now ≤ 160000000 }
    ensures value { result ≡ sum_by edges_in flags.now }
    ensures bound { result ≤ 3 * length flags.now }
{
    let eights = flags.len() / 8;
    let mut count = 0;
    for eight in 0..eights {
        count += count_eight(flags, 8 * eight);
    }
    count + count_run(flags, 8 * eights, flags.len())
}
