// The noise of a pass from its bands: noise.rs, `noise_sigma`.
#![tactic(auto)]

ghost use Rattle.std.specs.Prelude.{◌≡◌, ℕ, ◌+◌, ◌^◌, ◌<◌, ◌==◌, length, if◌then◌else◌};
ghost use Rattle.sums.specs.Admitted.{no_total};
ghost use Rattle.joining.specs.Joining as Joining;
ghost use Rattle.joining.specs.Joining.{variances, with_found, join_from, sigma_of_total, sigma_of, noise};
ghost use Rattle.joining.specs.Windows.{windows_of, windows_in};

use numbers::Number;
use rounds::{BANDS, Found, Image};
use sums::Total;

// A band whose variance is above this many times the median holds structure.
const MAX_BAND_OUTLIER: f64 = 3.0;
// Fewer windows give no figure.
const MIN_SAMPLES: usize = 512;
// The operator's standard deviation for one gray level of noise.
const OPERATOR_GAIN: f64 = 20.0;

// The standard deviation of the noise, or why there is none, and the rounds that were evaluated.
#[derive(Drop)]
pub struct Noise {
    pub sigma: Result<f32, Number>,
    pub rounds: usize,
}

// The noise of a pass from its windows.
#[tactic(auto, unfolding(crate::specs::Joining::noise))]
pub fn noise_sigma(image: Image) -> Noise
    ensures { result ≡ noise image.entry.all.gate.now image.entry.all.op.now image.entry.starts }
{
    if image.all.gate.len() < MIN_SAMPLES {
        return Noise {
            sigma: Err(Number::Few),
            rounds: 0,
        };
    }
    let whole = rounds::image_variance(image);
    let mut found = [None; BANDS];
    let mut rounds = whole.rounds;
    for b in 0..BANDS {
        let band = rounds::variance(image.band(b), whole.var);
        found[b] = band.found;
        rounds += band.rounds;
    }
    Noise {
        sigma: join(&found),
        rounds,
    }
}

// The answer from the bands.
fn join(bands: &[Option<Found>; BANDS]) -> Result<f32, Number>
    requires { windows_in bands.now < 2 ^ 64 }
    ensures { result ≡ sigma_of bands.now }
{
    let limit = outlier_limit(median(bands).ok_or(Number::NoBand)?);
    decide(joined(bands, limit))
}

// The median of the variances that there are.
fn median(bands: &[Option<Found>; BANDS]) -> Option<f64>
    ensures { result ≡ (if length (variances bands.now) == 0 then None else Some (Joining.median (variances bands.now))) }
{
    let mut least = [f64::NAN; BANDS];
    let mut n: usize = 0;
    for found in bands {
        if let Some(found) = found {
            quantile::insert(&mut least, found.var);
            n += 1;
        }
    }
    match n {
        0 => None,
        n if n % 2 == 1 => Some(least[n / 2]),
        n => Some(0.5 * (least[n / 2 - 1] + least[n / 2])),
    }
}

// A band that is joined has at most this variance.
fn outlier_limit(median: f64) -> f64
    ensures { result ≡ Joining.outlier_limit median }
{
    MAX_BAND_OUTLIER * float::max(median, sums::ROUNDING_OP_VAR)
}

// The bands whose variance is at most limit: how many windows they admit, and their variances' sum, each times its count.
fn joined(bands: &[Option<Found>; BANDS], limit: f64) -> Total
    requires { windows_in bands.now < 2 ^ 64 }
    ensures { result ≡ join_from limit no_total bands.now }
{
    let mut k = Total { n: 0, sum: 0.0 };
    for found in bands {
        k = add_band(k, *found, limit);
    }
    k
}

// k and a band, where it joins.
fn add_band(k: Total, found: Option<Found>, limit: f64) -> Total
    requires { k.n + windows_of found < 2 ^ 64 }
    ensures { result ≡ with_found limit k found }
{
    match found {
        Some(found) if found.var <= limit => Total {
            n: k.n + found.n,
            sum: k.sum + std::num::nearest_usize_to_f64(found.n) * found.var,
        },
        _ => k,
    }
}

// The answer where some band has a variance.
#[tactic(auto, unfolding(crate::specs::Joining::sigma_of_total))]
fn decide(k: Total) -> Result<f32, Number>
    ensures { result ≡ sigma_of_total k }
{
    if k.n < MIN_SAMPLES {
        return Err(Number::Thin);
    }
    Ok(deviation(k))
}

// The root of the mean variance, in gray levels.
fn deviation(k: Total) -> f32
    ensures { result ≡ Joining.deviation k }
{
    convert::to_f32(roots::sqrt64(k.sum / std::num::nearest_usize_to_f64(k.n)) / OPERATOR_GAIN)
}
