// Whole numbers as little-endian bytes in lent slices. They take a place and a count: a caller that cuts the slice itself has the
// same room to show, and its ends to join again.
#![tactic(auto)]

ghost use Rattle.std.specs.Prelude.{◌≡◌, ◌+◌, ◌^◌, ◌≤◌, ◌<◌, length};
ghost use Rattle.std.proofs.Math.Seq.{slice};
ghost use Rattle.laws.specs.Lists.{laid};
ghost use Rattle.little_endian.specs.Bytes.{bytes_of, value_of};

// Writes the count low bytes of x from place `at` on. All other bytes stay. A loop: `to_le_bytes` gives eight, and count has no
// limit.
#[tactic(auto, using(crate::proofs::Loops::put_end))]
pub fn put(out: &mut [u8], at: usize, count: usize, x: u64)
    requires { at + count ≤ length out.old }
    ensures { out.new ≡ laid out.old at (bytes_of count x) }
{
    let mut rest = x;
    for k in 0..count {
        out[at + k] = (rest % 256) as u8;
        rest /= 256;
    }
}

// The number that the count bytes from place `at` on stand for. A loop: for `from_le_bytes` they would be copied to eight first.
// By place: with `iter().rev()`, tried, its turn (`loop-byte-preserved`) stays open.
#[tactic(auto, using(crate::proofs::Loops::get_start, crate::proofs::Loops::get_fits))]
pub fn get(bytes: &[u8], at: usize, count: usize) -> u64
    requires { (count ≤ 8) × (at + count ≤ length bytes.now) }
    ensures { (result ≡ value_of (slice at (at + count) bytes.now)) × (result < 256 ^ count) }
{
    let mut x = 0;
    for k in (0..count).rev() {
        x = x * 256 + u64::from(bytes[at + k]);
    }
    x
}

// The same of four bytes or fewer, which 32 bits hold.
pub fn get32(bytes: &[u8], at: usize, count: usize) -> u32
    requires { (count ≤ 4) × (at + count ≤ length bytes.now) }
    ensures { result ≡ value_of (slice at (at + count) bytes.now) }
{
    get(bytes, at, count) as u32
}
