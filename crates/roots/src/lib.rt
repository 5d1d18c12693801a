// Square roots, which document 01 names as our own.
#![tactic(auto)]

ghost use Rattle.std.specs.Prelude.{◌≡◌, ◌*◌, ◌/◌, ◌%◌, ◌^◌, ◌<◌, ◌≤◌};
ghost use Rattle.std.specs.Float.{binary32, binary64};
ghost use Rattle.ieee.specs.Sqrt.{sqrt, nearest_root};
ghost use Rattle.roots.specs.Scaled.{IsScaled};

// With N = m * 4 ^ n / 2 ^ 54: the whole number nearest to N's square root. Each turn takes the next
// two binary digits of N and works out one of the root, q; `over` is what is left over.
fn root(m: u64, n: u64) -> u64
    requires { (m < 2 ^ 54) × (n ≤ 53) × (m * 4 ^ n % 2 ^ 54 ≡ 0) }
    ensures { result ≡ nearest_root (m * 4 ^ n / 2 ^ 54) }
{
    let mut rest: u64 = m;
    let mut q: u64 = 0;
    let mut over: u64 = 0;
    for _i in 0..n {
        let d = over * 4 + rest / 0x10_0000_0000_0000;
        rest = rest % 0x10_0000_0000_0000 * 4;
        if d > q * 4 {
            over = d - q * 4 - 1;
            q = q * 2 + 1;
        } else {
            over = d;
            q = q * 2;
        }
    }
    if over > q { q + 1 } else { q }
}

// 24 digits of about the square root of the number with the pattern b. `root24` tests them, so
// nothing else is said of them. The pattern's half, turned over, is about that of 1 / sqrt(x), and
// each step doubles the digits that are right. Digits that round up past the last are those of a power of two.
fn guess(b: u64) -> u64
    requires { b < 0x7ff0_0000_0000_0000 }
    ensures { (2 ^ 23 ≤ result) × (result ≤ 2 ^ 24) }
{
    let x = f64::from_bits(b);
    let h = x * 0.5;
    let y0 = f64::from_bits(0x5fe6_eb50_c7b5_37a9 - b / 2);
    let y1 = y0 * (1.5 - h * y0 * y0);
    let y2 = y1 * (1.5 - h * y1 * y1);
    let y3 = y2 * (1.5 - h * y2 * y2);
    let g = x * y3;
    if g.is_nan() {
        return 0x80_0000;
    }
    0x80_0000 + (f64::to_bits(g) % 0x10_0000_0000_0000 + 0x1000_0000) / 0x2000_0000 % 0x80_0000
}

// As root(m, 24), from a guess q at it: q is the nearest where q * q - q < N <= q * q + q.
fn root24(m: u64, q: u64) -> u64
    requires { (m < 2 ^ 54) × (m * 4 ^ 24 % 2 ^ 54 ≡ 0) × (2 ^ 23 ≤ q) × (q ≤ 2 ^ 24) }
    ensures { result ≡ nearest_root (m * 4 ^ 24 / 2 ^ 54) }
{
    let n = m / 64;
    let s = q * q;
    if s - q < n && n <= s + q {
        return q;
    }
    root(m, 24)
}

// The number digits * 2 ^ e / 2 ^ 1126.
#[derive(Drop)]
struct Parts {
    digits: u64,
    e: u64,
}

// The f64 with the pattern a, above zero and finite, with all of 53 digits.
fn scaled(a: u64) -> Parts
    requires { (0 < a) × (a < 0x7ff0_0000_0000_0000) }
    ensures { IsScaled a result.digits result.e }
{
    let field = a / 0x10_0000_0000_0000;
    let low = a % 0x10_0000_0000_0000;
    if field == 0 {
        let up = u64::from(low.leading_zeros()) - 11;
        Parts {
            digits: low * convert::pow2(up),
            e: 52 - up,
        }
    } else {
        Parts {
            digits: 0x10_0000_0000_0000 + low,
            e: field + 51,
        }
    }
}

// f64::sqrt, rounded to nearest: the root of digits * 2 ^ e is that of the digits, doubled where e is
// odd, times 2 ^ (e / 2).
pub fn sqrt64(x: f64) -> f64
    ensures { result ≡ sqrt binary64 x }
{
    if x.is_nan() {
        return x;
    }
    if x == 0.0 {
        return x;
    }
    if x < 0.0 {
        return f64::NAN;
    }
    let b = f64::to_bits(x);
    if b >= 0x7ff0_0000_0000_0000 {
        return x;
    }
    let v = scaled(b);
    let h = v.e / 2;
    let m = if v.e % 2 == 1 { v.digits * 2 } else { v.digits };
    f64::from_bits((h + 485) * 0x10_0000_0000_0000 + root(m, 53))
}

// f32::sqrt, as sqrt64 of x as an f64, with 24 digits. One generic call for both would be no plainer: this one begins with a
// guess.
pub fn sqrt32(x: f32) -> f32
    ensures { result ≡ sqrt binary32 x }
{
    if x.is_nan() {
        return x;
    }
    if x == 0.0 {
        return x;
    }
    if x < 0.0 {
        return f32::NAN;
    }
    let b = f64::to_bits(f64::from(x));
    if b >= 0x7ff0_0000_0000_0000 {
        return x;
    }
    let v = scaled(b);
    let h = v.e / 2;
    let m = if v.e % 2 == 1 { v.digits * 2 } else { v.digits };
    f32::from_bits(((h - 411) * 0x80_0000 + root24(m, guess(b))) as u32)
}
