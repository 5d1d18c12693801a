// The rounds of a pass: noise.rs, `Band::variance` and `Sample::image_variance`.
#![tactic(auto)]

ghost use Rattle.std.specs.Prelude.{◌≡◌, ℕ, ◌+◌, ◌≤◌, ◌<◌, length, slice_index, Float};
ghost use Rattle.sums.specs.declared.Total.{Total};
ghost use Rattle.sums.specs.Start as Start;
ghost use Rattle.rounds.specs.Rounds as Rounds;
ghost use Rattle.rounds.specs.Rounds.{judged_band, band_variance, band, image_total, image_variance};

use std::ops::ControlFlow;
use sums::{Band, Total};

// A band whose variance is above this many times the image's holds structure.
const MAX_BAND_RATIO: f64 = 8.0;
// A band needs this many admitted windows.
const MIN_BAND_SAMPLES: usize = 128;
// Rounds are settled when the variance moves by at most this fraction.
const SETTLED: f64 = 0.001;
// The most rounds.
const ROUNDS: usize = 12;
// Intensity bands.
pub const BANDS: usize = 4;
// The mean square of a standard normal number that lies within TRUNC of 0.
const TRUNC_SECOND_MOMENT: f64 = 0.998929;

// Where rounds end: the count and the variance of the last one, and how many were evaluated.
#[derive(Clone, Copy)]
pub struct Settled {
    pub n: usize,
    pub var: f64,
    pub rounds: usize,
}

// The variance that a band has, and how many windows are admitted at it.
#[derive(Clone, Copy)]
pub struct Found {
    pub n: usize,
    pub var: f64,
}

#[derive(Drop)]
pub struct BandVariance {
    pub found: Option<Found>,
    pub rounds: usize,
}

// The variance of a band: the fixed point of its own rounds, where it rests on 128 windows and is not above 8 times the image's.
#[tactic(auto, unfolding(crate::specs::Rounds::band_variance))]
pub fn variance(band: Band, image_var: f64) -> BandVariance
    ensures { result ≡ band_variance band.entry.gate.now band.entry.op.now image_var }
{
    if band.gate.len() < MIN_BAND_SAMPLES {
        return BandVariance {
            found: None,
            rounds: 0,
        };
    }
    let s = settle(|v| band.admitted(v, v), start(band));
    BandVariance {
        found: judge(s, image_var),
        rounds: s.rounds,
    }
}

// Where the rounds over some windows start.
#[tactic(auto, unfolding(sums::specs::Start::start))]
fn start(band: Band) -> f64
    ensures { result ≡ Start.start band.entry.gate.now band.entry.op.now }
{
    band.mean_quiet(quantile::quantile(band.gate))
}

// The rounds over the windows of which a variance admits what `admits` gives.
fn settle<F: Fn(f64) -> Total>(admits: F, start: f64) -> Settled
    requires { F.IsAlwaysCallable admits }
    ensures { (f : Float → Total) → ((v : Float) (k : Total) → F.post admits v k → k ≡ f v)
        → result ≡ Rounds.settle f start }
{
    let mut s = start_at(start);
    for _ in 0..ROUNDS {
        match one_round(admits(s.var), s) {
            ControlFlow::Break(last) => return last,
            ControlFlow::Continue(ended) => s = ended,
        }
    }
    s
}

// Before the first round, at no count: usize::MAX, since an Option would be one for all who read a Settled, which has a count.
fn start_at(var: f64) -> Settled
    ensures { result ≡ Rounds.start_at var }
{
    Settled {
        n: usize::MAX,
        var,
        rounds: 0,
    }
}

// One round that admits k, after those that ended at s.
#[tactic(auto, unfolding(crate::specs::Rounds::one_round))]
fn one_round(k: Total, s: Settled) -> ControlFlow<Settled, Settled>
    requires { s.rounds < 12 }
    ensures { result ≡ Rounds.one_round k s }
{
    let rounds = s.rounds + 1;
    if k.n == 0 {
        return ControlFlow::Break(Settled {
            n: 0,
            var: s.var,
            rounds,
        });
    }
    let var = next(k);
    let ended = Settled {
        n: k.n,
        var,
        rounds,
    };
    if near(k.n, s.n, var, s.var) {
        ControlFlow::Break(ended)
    } else {
        ControlFlow::Continue(ended)
    }
}

// The variance that the admitted windows yield.
fn next(k: Total) -> f64
    ensures { result ≡ Rounds.next k }
{
    k.sum / std::num::nearest_usize_to_f64(k.n) / TRUNC_SECOND_MOMENT
}

// Whether the rounds end here.
fn near(n: usize, prev: usize, new: f64, var: f64) -> bool
    ensures { result ≡ Rounds.near n prev new var }
{
    n == prev || float::abs64(new - var) <= SETTLED * var
}

// Whether a band's variance counts.
fn judge(s: Settled, image_var: f64) -> Option<Found>
    ensures { result ≡ judged_band s image_var }
{
    let structure = s.var > MAX_BAND_RATIO * float::max(image_var, sums::ROUNDING_OP_VAR);
    (s.n >= MIN_BAND_SAMPLES && !structure).then_some(Found { n: s.n, var: s.var })
}

// The windows of an image, band after band: band b is those from starts[b] to starts[b + 1].
#[derive(Clone, Copy)]
pub struct Image<'a> {
    pub all: Band<'a>,
    pub starts: [usize; 5],
    ghost rise: { (b : ℕ) → b < 4 → slice_index starts b ≤ slice_index starts (b + 1) },
    ghost last: { slice_index starts 4 ≤ length all.gate.now },
}

impl<'a> Image<'a> {
    pub fn band(self, b: usize) -> Band<'a>
        requires { b < 4 }
        ensures { (result.gate.now ≡ band self.entry.all.gate.now self.entry.starts b)
            × (result.op.now ≡ band self.entry.all.op.now self.entry.starts b) }
    {
        self.all.part(self.starts[b], self.starts[b + 1])
    }

    // The windows admitted in the four bands, each summed by itself.
    #[tactic(auto, unfolding(crate::specs::Rounds::image_total))]
    fn admitted(self, var: f64) -> Total
        ensures { result ≡ image_total self.entry.all.gate.now self.entry.all.op.now self.entry.starts var }
    {
        let mut k = Total { n: 0, sum: 0.0 };
        for b in 0..BANDS {
            let band = self.band(b).admitted(var, var);
            k.n += band.n;
            k.sum += band.sum;
        }
        k
    }
}

// The variance of the whole image: the fixed point where the gate it sets yields it.
#[tactic(auto, unfolding(crate::specs::Rounds::image_variance))]
pub fn image_variance(image: Image) -> Settled
    ensures { result ≡ image_variance image.entry.all.gate.now image.entry.all.op.now image.entry.starts }
{
    settle(|v| image.admitted(v), start(image.all))
}
