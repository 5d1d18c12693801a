// The covariance model. Knots, covariances, offsets and growths are lent by their floats; the figures go to `out`.
ghost use Rattle.std.specs.Prelude.{◌≡◌, [], ◌∷◌};
ghost use Rattle.model.specs.Knots.{table, at_of};
ghost use Rattle.covariance.specs.Noise.{noise_at, total_at};
ghost use Rattle.model.specs.Model.{model_of};
ghost use Rattle.compare.specs.Lent.{covariance_from, Told};
ghost use Rattle.compare.specs.Models.{width_from, model_from, floats, ToldAt, ToldModel};

use crate::covariances::{covariance_of, lay, told};
use covariance::CovarianceModel;
use model::{GainResidual, SystematicModel};

fn width_of(known: bool, w: f32) -> Option<f32>
    ensures { result ≡ width_from known w }
{
    known.then_some(w)
}

pub fn vuzgari_compare_at(
    widths: &[f32; 16],
    gains: &[f32; 16],
    residuals: &[f32; 16],
    count: usize,
    floor: f32,
    known: bool,
    w: f32,
    out: &mut [f32; 2],
) -> u32
    ensures { ToldAt
        (at_of (table count floor widths.now gains.now residuals.now) (width_from known w))
        result out.new }
{
    let s = SystematicModel {
        widths: *widths,
        gains: *gains,
        residuals: *residuals,
        count,
        floor,
    };
    let answer = s.at(width_of(known, w));
    lay(answer.map(pair_of), out)
}

// Gain and residual. A function, as `covariance_of` is.
fn pair_of(at: GainResidual) -> [f32; 2]
    ensures { result ≡ at.gain ∷ at.residual ∷ [] }
{
    [at.gain, at.residual]
}

pub fn vuzgari_compare_model(
    widths: &[f32; 16],
    gains: &[f32; 16],
    residuals: &[f32; 16],
    count: usize,
    floor: f32,
    noise: &[f32; 3],
    offset: &[f32; 2],
    known: bool,
    w: f32,
    grid: f32,
    out: &mut [f32; 8],
) -> u32
    ensures { ToldModel
        (model_of (table count floor widths.now gains.now residuals.now)
        (covariance_from noise.now) offset.now (width_from known w) grid)
        result out.new }
{
    let s = SystematicModel {
        widths: *widths,
        gains: *gains,
        residuals: *residuals,
        count,
        floor,
    };
    let answer = s.model(covariance_of(noise), *offset, width_of(known, w), grid);
    lay(answer.map(floats_of), out)
}

// The model's eight floats. Functions, as `covariance_of` is, here and in `model_of`.
fn floats_of(m: CovarianceModel) -> [f32; 8]
    ensures { result ≡ floats m }
{
    let d = m.noise;
    let e = m.systematic;
    let g = m.growth;
    [d.xx, d.xy, d.yy, e.xx, e.xy, e.yy, g[0], g[1]]
}

fn model_of(noise: &[f32; 3], systematic: &[f32; 3], growth: &[f32; 2]) -> CovarianceModel
    ensures { result ≡ model_from noise.now systematic.now growth.now }
{
    CovarianceModel {
        noise: covariance_of(noise),
        systematic: covariance_of(systematic),
        growth: *growth,
    }
}

pub fn vuzgari_compare_noise_at(
    noise: &[f32; 3],
    systematic: &[f32; 3],
    growth: &[f32; 2],
    sigma: f32,
    out: &mut [f32; 3],
) -> u32
    ensures { Told
        (noise_at (model_from noise.now systematic.now growth.now) sigma)
        result out.new }
{
    told(model_of(noise, systematic, growth).noise_at(sigma), out)
}

pub fn vuzgari_compare_total(
    noise: &[f32; 3],
    systematic: &[f32; 3],
    growth: &[f32; 2],
    sigma: f32,
    out: &mut [f32; 3],
) -> u32
    ensures { Told
        (total_at (model_from noise.now systematic.now growth.now) sigma)
        result out.new }
{
    told(model_of(noise, systematic, growth).total(sigma), out)
}
