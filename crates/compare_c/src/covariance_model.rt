ghost use Rattle.model.specs.Knots.{table, at_of};
ghost use Rattle.covariance.specs.Noise.{noise_at, total_at};
ghost use Rattle.model.specs.Model.{model_of};
ghost use Rattle.compare.specs.Lent.{covariance_from, Told};
ghost use Rattle.compare.specs.Models.{width_from, model_from, ToldAt, ToldModel};

#[unsafe(no_mangle)]
pub extern "C" fn vuzgari_compare_at(
    widths: &[f32; 16],
    gains: &[f32; 16],
    residuals: &[f32; 16],
    count: usize,
    floor: f32,
    known: bool,
    w: f32,
    out: &mut [f32; 2],
) -> u32
    ensures { ToldAt
        (at_of (table count floor widths.now gains.now residuals.now) (width_from known w))
        result out.new }
{
    compare::covariance_model::vuzgari_compare_at(
        widths, gains, residuals, count, floor, known, w, out,
    )
}

#[unsafe(no_mangle)]
pub extern "C" fn vuzgari_compare_model(
    widths: &[f32; 16],
    gains: &[f32; 16],
    residuals: &[f32; 16],
    count: usize,
    floor: f32,
    noise: &[f32; 3],
    offset: &[f32; 2],
    known: bool,
    w: f32,
    grid: f32,
    out: &mut [f32; 8],
) -> u32
    ensures { ToldModel
        (model_of (table count floor widths.now gains.now residuals.now)
        (covariance_from noise.now) offset.now (width_from known w) grid)
        result out.new }
{
    compare::covariance_model::vuzgari_compare_model(
        widths, gains, residuals, count, floor, noise, offset, known, w, grid, out,
    )
}

#[unsafe(no_mangle)]
pub extern "C" fn vuzgari_compare_noise_at(
    noise: &[f32; 3],
    systematic: &[f32; 3],
    growth: &[f32; 2],
    sigma: f32,
    out: &mut [f32; 3],
) -> u32
    ensures { Told
        (noise_at (model_from noise.now systematic.now growth.now) sigma)
        result out.new }
{
    compare::covariance_model::vuzgari_compare_noise_at(noise, systematic, growth, sigma, out)
}

#[unsafe(no_mangle)]
pub extern "C" fn vuzgari_compare_total(
    noise: &[f32; 3],
    systematic: &[f32; 3],
    growth: &[f32; 2],
    sigma: f32,
    out: &mut [f32; 3],
) -> u32
    ensures { Told
        (total_at (model_from noise.now systematic.now growth.now) sigma)
        result out.new }
{
    compare::covariance_model::vuzgari_compare_total(noise, systematic, growth, sigma, out)
}
