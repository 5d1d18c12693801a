// Whether floats are in their ranges. The tests have no jump, so that floats are tested four at a time.
#![tactic(auto)]

ghost use Rattle.std.specs.Prelude.{◌≡◌, ◌≤◌};
ghost use Rattle.ranges.specs.Ranges.{within, up_to, all_within, both_within, sigma_range};

use refine::PositionCovariance;

// Whether x is of a magnitude of at most N. Past the limit, here and in `up_to`, the cast may round N up and let through an x
// beyond it.
pub fn within<const N: u32>(x: f32) -> bool
    requires { N ≤ 16777216 }
    ensures { result ≡ within N x }
{
    let most = N as f32;
    (-most <= x) & (x <= most)
}

// Whether x is from 0 to N.
pub fn up_to<const N: u32>(x: f32) -> bool
    requires { N ≤ 16777216 }
    ensures { result ≡ up_to N x }
{
    (0.0 <= x) & (x <= N as f32)
}

pub fn sigma_in_range(x: f32) -> bool
    ensures { result ≡ sigma_range x }
{
    x.is_nan() | within::<1000>(x)
}

// Entry by entry: a test handed over as a closure would be no shorter, and proved by more.
pub fn all_within(c: PositionCovariance) -> bool
    ensures { result ≡ all_within 1000000 c }
{
    within::<1_000_000>(c.xx) & within::<1_000_000>(c.xy) & within::<1_000_000>(c.yy)
}

pub fn both_within(v: [f32; 2]) -> bool
    ensures { result ≡ both_within 1000 v }
{
    within::<1000>(v[0]) & within::<1000>(v[1])
}
