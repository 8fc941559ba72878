//! The rounds over one block, whose schedule stands in a lane (6.2.2, steps 2 to 4).

ghost use Rattle.std.specs.Prelude.{◌≡◌, ℕ, ◌+◌, ◌<◌, ◌≤◌, List};
ghost use Rattle.sha2.specs.Sha256.{add32, compress, round, rounds};
ghost use Rattle.repo_sha.specs.inner.Schedules.{HasSums, schedule_of};

use crate::schedules::Sums;

/// A hash value: eight words.
pub type Hash = [u32; 8];

// One round (6.2.2, step 3), from the sum of its constant and its word.
#[inline(always)]
fn round(v: Hash, sum: u32) -> Hash
    ensures { (k w : ℕ) → sum ≡ add32 k w → result ≡ round v k w }
{
    let [a, b, c, d, e, f, g, h] = v;
    let sigma1 = e.rotate_right(6) ^ e.rotate_right(11) ^ e.rotate_right(25);
    let choice = (e & f) ^ (!e & g);
    let temp1 = h
        .wrapping_add(sigma1)
        .wrapping_add(choice)
        .wrapping_add(sum);
    let sigma0 = a.rotate_right(2) ^ a.rotate_right(13) ^ a.rotate_right(22);
    let majority = (a & b) ^ (a & c) ^ (b & c);
    let temp2 = sigma0.wrapping_add(majority);
    [
        temp1.wrapping_add(temp2),
        a,
        b,
        c,
        d.wrapping_add(temp1),
        e,
        f,
        g,
    ]
}

#[inline(always)]
fn step(v: Hash, sums: &Sums, lane: usize, t: usize) -> Hash
    requires lane { lane < 8 }
    requires t { t < 64 }
    ensures { (block h : List ℕ) → HasSums lane sums.now block 64 → v ≡ rounds h (schedule_of block) t
        → result ≡ rounds h (schedule_of block) (t + 1) }
{
    round(v, sums[t][lane])
}

#[inline(always)]
fn eight_steps(v: Hash, sums: &Sums, lane: usize, t: usize) -> Hash
    requires lane { lane < 8 }
    requires t { t + 8 ≤ 64 }
    ensures { (block h : List ℕ) → HasSums lane sums.now block 64 → v ≡ rounds h (schedule_of block) t
        → result ≡ rounds h (schedule_of block) (t + 8) }
{
    let v = step(v, sums, lane, t);
    let v = step(v, sums, lane, t + 1);
    let v = step(v, sums, lane, t + 2);
    let v = step(v, sums, lane, t + 3);
    let v = step(v, sums, lane, t + 4);
    let v = step(v, sums, lane, t + 5);
    let v = step(v, sums, lane, t + 6);
    step(v, sums, lane, t + 7)
}

// The 64 rounds over the block of a lane.
#[inline(always)]
fn all_steps(hash: Hash, sums: &Sums, lane: usize) -> Hash
    requires { lane < 8 }
    ensures { (block : List ℕ) → HasSums lane sums.now block 64 → result ≡ rounds hash (schedule_of block) 64 }
{
    let mut v = hash;
    'turns: for turn in 0..8 {
        let after = eight_steps(v, sums, lane, 8 * turn);
        v = after;
    }
    v
}

/// The hash value after one block more, that of a lane.
#[inline(always)]
pub fn compress(hash: Hash, sums: &Sums, lane: usize) -> Hash
    requires { lane < 8 }
    ensures { (block : List ℕ) → HasSums lane sums.now block 64 → result ≡ compress hash block }
{
    let v = all_steps(hash, sums, lane);
    [
        hash[0].wrapping_add(v[0]),
        hash[1].wrapping_add(v[1]),
        hash[2].wrapping_add(v[2]),
        hash[3].wrapping_add(v[3]),
        hash[4].wrapping_add(v[4]),
        hash[5].wrapping_add(v[5]),
        hash[6].wrapping_add(v[6]),
        hash[7].wrapping_add(v[7]),
    ]
}
