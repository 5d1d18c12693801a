// Thousandths of an f32, by whole numbers on its bit pattern.
#![tactic(auto)]

ghost use Rattle.std.specs.Prelude.{◌≡◌};
ghost use Rattle.milli.specs.Thousandths.{milli_of};

// The whole number nearest to 1,000 times x, taken exactly, halves going up; 0 for a NaN and below
// zero, and the largest u32 where it is more. x is digits / 2^(150 - field), and below field 110
// neither x nor digits / 2^40 has half a thousandth. An odd number of half thousandths goes up.
pub fn milli(x: f32) -> u32
    ensures { result ≡ milli_of x }
{
    if x.is_nan() {
        return 0;
    }
    let b = x.to_bits();
    if b >= 0x8000_0000 {
        return 0;
    }
    let field = b / 0x80_0000;
    if field >= 150 {
        return u32::MAX;
    }
    let digits = u64::from(0x80_0000 + b % 0x80_0000);
    let d = if field >= 110 { 150 - field } else { 40 };
    let half_thousandths = digits * 2000 >> d;
    let q = (half_thousandths + 1) / 2;
    q.min(u64::from(u32::MAX)) as u32
}
