// The covariance model of uncertainty.rs at an image noise, by value.
#![tactic(auto)]

ghost use Rattle.std.specs.Prelude.{◌≡◌};
ghost use Rattle.std.specs.Float.{binary32};
ghost use Rattle.ieee.specs.Sqrt.{sqrt};
ghost use Rattle.covariance.specs.Noise.{noise_variance, grown, scaled, noise_term, model_in_range, noise_at, total_at};

use numbers::Number;
use refine::PositionCovariance;

// Variance of rounding to integer grey levels: the f32 nearest to 1 / 12, the least pixel-noise variance a covariance uses.
const ROUNDING_VAR: f32 = 0.083333336;

// Everything needed to express a position covariance for a given image noise.
#[derive(Clone, Copy, Debug, PartialEq)]
pub struct CovarianceModel {
    // First-order noise covariance per unit noise variance.
    pub noise: PositionCovariance,
    // Systematic covariance.
    pub systematic: PositionCovariance,
    // Second-order growth of the noise term per axis.
    pub growth: [f32; 2],
}

// The larger of the square of sigma and the least variance, which a NaN gives too.
fn variance_of(sigma: f32) -> f32
    ensures { result ≡ noise_variance sigma }
{
    float::max(sigma * sigma, ROUNDING_VAR)
}

// The square root. 1, the factor of a noise that doesn't grow, is its own, and is told without the call.
fn root_of(x: f32) -> f32
    ensures { result ≡ sqrt binary32 x }
{
    if x == 1.0 {
        return x;
    }
    roots::sqrt32(x)
}

fn grown_by(var: f32, k: f32) -> f32
    ensures { result ≡ grown var k }
{
    root_of(1.0 + var * k * k)
}

#[tactic(auto, unfolding(crate::specs::Noise::scaled))]
fn scaled_by(c: PositionCovariance, var: f32, f0: f32, f1: f32) -> PositionCovariance
    ensures { result ≡ scaled c var f0 f1 }
{
    PositionCovariance::new(
        var * c.xx * f0 * f0,
        var * c.xy * f0 * f1,
        var * c.yy * f1 * f1,
    )
}

impl CovarianceModel {
    // Whether all of the model and sigma are in their ranges, used or not.
    fn in_range(self, sigma: f32) -> bool
        ensures { result ≡ model_in_range self sigma }
    {
        ranges::all_within(self.noise)
            & self.systematic.is_finite()
            & ranges::both_within(self.growth)
            & ranges::sigma_in_range(sigma)
    }

    // The noise term of a model and a `sigma` in any range.
    fn noise_term(self, sigma: f32) -> PositionCovariance
        ensures { result ≡ noise_term self sigma }
    {
        let [k0, k1] = self.growth;
        let var = variance_of(sigma);
        scaled_by(self.noise, var, grown_by(var, k0), grown_by(var, k1))
    }

    // The noise term alone at `sigma`. In line, since a call would hand the model over in memory and wait for it.
    #[inline(always)]
    #[tactic(auto, unfolding(crate::specs::Noise::noise_at))]
    pub fn noise_at(self, sigma: f32) -> Result<PositionCovariance, Number>
        ensures { result ≡ noise_at self sigma }
    {
        if !self.in_range(sigma) {
            return Err(Number::FloatRange);
        }
        Ok(self.noise_term(sigma))
    }

    // The model with an image noise of `sigma` grey levels: the noise term and the systematic one.
    #[tactic(auto, using(crate::proofs::Formulas::total_given))]
    pub fn total(self, sigma: f32) -> Result<PositionCovariance, Number>
        ensures { result ≡ total_at self sigma }
    {
        Ok(self.noise_at(sigma)? + self.systematic)
    }
}
