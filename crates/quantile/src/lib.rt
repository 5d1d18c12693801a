// The quiet level of a band's gates, or of all: noise.rs, `quantile` at 1/16.
#![tactic(auto)]

ghost use Rattle.std.specs.Prelude.{◌≡◌, ◌+◌, ◌/◌, ◌≤◌, ◌<◌, length, map, take};
ghost use Rattle.quantile.specs.Rising.{at, inserted, rising, Rises};
ghost use Rattle.quantile.specs.Quantile.{quiet};
ghost use Rattle.quantile.specs.Quantile as Q;

use float::Real;

// The value at place floor(n / 16), from 0, in rising order of the n values taken: at most 255, evenly spaced.
// They stand in an array of 255: document 01, "The form each place needs".
pub fn quantile(values: &[f32]) -> f32
    ensures { result ≡ quiet values.now }
{
    let s = stride(values.len());
    let n = values.len().div_ceil(s);
    let mut buf = [0.0f32; 255];
    for k in 0..n {
        buf[k] = values[k * s];
    }
    place(&buf[..n], n / 16)
}

// Every how many of len values are taken.
fn stride(len: usize) -> usize
    ensures { result ≡ Q.stride len }
{
    len.div_ceil(255).max(1)
}

// The value at place p in rising order.
fn place(values: &[f32], p: usize) -> f32
    requires { p < 16 }
    ensures { result ≡ at (rising (at values.now) (length values.now)) p }
{
    let mut least = [f32::NAN; 16];
    for v in values {
        insert(&mut least, *v);
    }
    least[p]
}

// v among the N least, which stand in rising order; the last one falls out.
pub fn insert<F: Real, const N: usize>(least: &mut [F; N], v: F)
    requires some { 0 < N }
    requires rises { Rises (map F.float least.old) }
    ensures { map F.float least.new ≡ take N (inserted (F.float v) (map F.float least.old)) }
{
    if !float::total_less(v, least[N - 1]) {
        return;
    }
    for j in (1..N).rev() {
        let x = least[j - 1];
        if !float::total_less(v, x) {
            least[j] = v;
            return;
        }
        least[j] = x;
    }
    least[0] = v;
}
