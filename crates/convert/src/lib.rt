// An f64 as an f32, and an f32 rounded down to a whole number: document 01 names both as our own.
#![tactic(auto)]

ghost use Rattle.std.specs.Prelude.{◌≡◌, ◌^◌, ◌<◌, ◌≤◌};
ghost use Rattle.std.specs.Float.Ieee as Ieee;
ghost use Rattle.std.specs.Float.{binary32, binary64};
ghost use Rattle.std.specs.Float.Ieee.Nearest.{closest};
ghost use Rattle.ieee.specs.Floor.{floor};
ghost use Rattle.ieee.specs.Convert.{convert};

// 2 ^ d.
pub fn pow2(d: u64) -> u64
    requires { d < 64 }
    ensures { result ≡ 2 ^ d }
{
    1 << d
}

// a / p to the nearest whole number, a tie to the even one.
fn nearest(a: u64, p: u64) -> u64
    requires { (0 < p) × (p < 2 ^ 63) × (a < 2 ^ 63) }
    ensures { result ≡ closest a p }
{
    let q = a / p;
    let r = a % p * 2;
    if r < p {
        q
    } else if r == p {
        q + q % 2
    } else {
        q + 1
    }
}

// The pattern of the f32 nearest to the f64 with the pattern a, which has its sign clear: infinity,
// a normal f32, a subnormal one, or zero, by a's exponent field.
fn narrow_size(a: u64) -> u64
    requires { a ≤ 0x7ff0_0000_0000_0000 }
    ensures { result ≡ Ieee.to_bits binary32 (convert binary32 (Ieee.of_bits binary64 a)) }
{
    let field = a / 0x10_0000_0000_0000;
    let digits = 0x10_0000_0000_0000 + a % 0x10_0000_0000_0000;
    if field >= 1151 {
        0x7f80_0000
    } else if field >= 897 {
        (field - 897) * 0x80_0000 + nearest(digits, 0x2000_0000)
    } else if field >= 873 {
        nearest(digits, pow2(926 - field))
    } else {
        0
    }
}

// x as an f32, rounded to nearest with ties to even.
pub fn to_f32(x: f64) -> f32
    ensures { result ≡ convert binary32 x }
{
    if x.is_nan() {
        return f32::NAN;
    }
    let b = f64::to_bits(x);
    if b >= 0x8000_0000_0000_0000 {
        -f32::from_bits(narrow_size(b - 0x8000_0000_0000_0000) as u32)
    } else {
        f32::from_bits(narrow_size(b) as u32)
    }
}

// f32::floor: the greatest whole number that is not above x, by its 24 digits over p.
pub fn floor32(x: f32) -> f32
    ensures { result ≡ floor binary32 x }
{
    if x.is_nan() {
        return x;
    }
    let b = f32::to_bits(x);
    let a = b % 0x8000_0000;
    let field = a / 0x80_0000;
    if field >= 150 {
        return x;
    }
    if a == 0 {
        return x;
    }
    let digits = 0x80_0000 + a % 0x80_0000;
    let p = if field >= 126 {
        pow2(u64::from(150 - field)) as u32
    } else {
        0x100_0000
    };
    if b >= 0x8000_0000 {
        -(((digits + (p - 1)) / p) as f32)
    } else {
        (digits / p) as f32
    }
}
