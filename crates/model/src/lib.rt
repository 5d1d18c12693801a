// The systematic model of uncertainty.rs, and the covariance model that it makes, by value.
#![tactic(auto)]

ghost use Rattle.std.specs.Prelude.{◌≡◌, Ok, Err, MatchResult, IfOk, length, take};
ghost use Rattle.knots.specs.Places.{place, value_at};
ghost use Rattle.model.specs.Knots.{table, knots_judged, at_of};
ghost use Rattle.model.specs.Systematic.{uniform_variance, about, systematic};
ghost use Rattle.model.specs.Model.{model_of};

use covariance::CovarianceModel;
use knots::Table;
use numbers::Number;
use refine::PositionCovariance;

// Systematic error of a localizer: knots by increasing edge width, `count` of them, and an isotropic floor per axis, px.
// Flat arrays and a count are the form that document 01 names for the knots in the model.
#[derive(Drop)]
pub struct SystematicModel {
    pub widths: [f32; 16],
    // Window-offset gains.
    pub gains: [f32; 16],
    // Root mean squares per axis of what the linear model leaves, px.
    pub residuals: [f32; 16],
    pub count: usize,
    pub floor: f32,
}

// What knots give at an edge width.
#[derive(Clone, Copy, Debug, PartialEq)]
pub struct GainResidual {
    pub gain: f32,
    pub residual: f32,
}

// Variance of a quantity spread uniformly over an interval `width` long.
fn uniform_variance(width: f32) -> f32
    ensures { result ≡ uniform_variance width }
{
    width * width / 12.0
}

#[tactic(auto, unfolding(crate::specs::Systematic::about))]
fn about_of(ex: f32, ey: f32, spread: f32) -> PositionCovariance
    ensures { result ≡ about ex ey spread }
{
    PositionCovariance::new(ex * ex + spread, ex * ey, ey * ey + spread)
}

// The systematic covariance of an estimate at `offset` from the centre of its fit window.
fn systematic_of(k: GainResidual, floor: f32, offset: [f32; 2], grid: f32) -> PositionCovariance
    ensures { result ≡ systematic k.gain k.residual floor offset grid }
{
    let GainResidual { gain, residual } = k;
    let [x, y] = offset;
    let prior = uniform_variance(grid);
    let rho2 = residual * residual;
    let denom = gain * gain * prior + rho2;
    if denom <= 0.0 {
        return about_of(x, y, prior + floor * floor);
    }
    let shrink = gain * prior / denom;
    about_of(
        x - shrink * x,
        y - shrink * y,
        prior * rho2 / denom + floor * floor,
    )
}

// Gain and residual of knots at an edge width.
fn at_knots(knots: Table<'_>, width: Option<f32>) -> GainResidual
    ensures gain { result.gain
        ≡ value_at knots.entry.gains.now
        (place knots.entry.widths.now (length knots.entry.widths.now) width) }
    ensures residual { result.residual
        ≡ value_at knots.entry.residuals.now
        (place knots.entry.widths.now (length knots.entry.widths.now) width) }
{
    let p = knots::place_of(knots.widths, width);
    GainResidual {
        gain: knots::interpolated(knots.gains, p),
        residual: knots::interpolated(knots.residuals, p),
    }
}

// The counted knots, where nothing refuses them. They are lent from columns of the caller's own: a read from the struct itself,
// which the caller was handed by value, waits for that copy.
#[tactic(auto, using(crate::proofs::Refusals::no_knot, crate::proofs::Refusals::many_knots))]
fn counted<'a>(
    widths: &'a [f32; 16],
    gains: &'a [f32; 16],
    residuals: &'a [f32; 16],
    count: usize,
    floor: f32,
) -> Result<Table<'a>, Number>
    ensures judged { MatchResult result
        (λ t. Ok tt ≡ knots_judged (table count floor widths.now gains.now residuals.now))
        (λ why. Err why ≡ knots_judged (table count floor widths.now gains.now residuals.now)) }
    ensures widths { IfOk result (λ t. t.widths.now ≡ take count widths.now) }
    ensures gains { IfOk result (λ t. t.gains.now ≡ take count gains.now) }
    ensures residuals { IfOk result (λ t. t.residuals.now ≡ take count residuals.now) }
    ensures counted { IfOk result (λ t. length t.widths.now ≡ count) }
{
    if count == 0 {
        return Err(Number::Knots);
    }
    if count > 16 {
        return Err(Number::Knots);
    }
    let t = Table {
        widths: &widths[..count],
        gains: &gains[..count],
        residuals: &residuals[..count],
    };
    if knots::rises_in_range(t.widths, t.gains, t.residuals) & ranges::up_to::<1000>(floor) {
        return Ok(t);
    }
    if knots::rises(t.widths) {
        Err(Number::FloatRange)
    } else {
        Err(Number::Knots)
    }
}

impl SystematicModel {
    // Gain and residual at an edge width.
    pub fn at(self, width: Option<f32>) -> Result<GainResidual, Number>
        ensures { result ≡ at_of self width }
    {
        let widths = self.widths;
        let gains = self.gains;
        let residuals = self.residuals;
        let knots = counted(&widths, &gains, &residuals, self.count, self.floor)?;
        Ok(at_knots(knots, width))
    }

    // The covariance model of an estimate with noise term `noise`, at `offset` px from the centre of its fit window on a
    // grid of spacing `grid` px, with edges of width `width`.
    pub fn model(
        self,
        noise: PositionCovariance,
        offset: [f32; 2],
        width: Option<f32>,
        grid: f32,
    ) -> Result<CovarianceModel, Number>
        ensures { result ≡ model_of self noise offset width grid }
    {
        let widths = self.widths;
        let gains = self.gains;
        let residuals = self.residuals;
        let knots = counted(&widths, &gains, &residuals, self.count, self.floor)?;
        let at = at_knots(knots, width);
        if !(ranges::all_within(noise)
            & ranges::both_within(offset)
            & ranges::up_to::<1000>(grid))
        {
            return Err(Number::FloatRange);
        }
        let systematic = systematic_of(at, self.floor, offset, grid).finite()?;
        Ok(CovarianceModel {
            noise,
            systematic,
            growth: [0.0, 0.0],
        })
    }
}
