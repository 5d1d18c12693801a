// Knots as columns of widths, gains and residuals, and where an edge width lies among them.
#![tactic(auto)]

ghost use Rattle.std.specs.Prelude.{◌≡◌, ◌-◌, ◌<◌, length};
ghost use Rattle.knots.specs.Places.{every, rises_at, place_from, place, blend, value_at};
ghost use Rattle.knots.specs.Loops.{sound, AmongKnots};

// Where a width lies among the knots: at one, or a part of the way from one to the next. Both cases hold figures, so that an
// Option or a Result would be no plainer.
#[derive(Clone, Copy, Debug, PartialEq)]
pub enum Place {
    Knot(usize),
    Between(usize, f32),
}

// Lent columns of one or more knots, as model has them in arrays, the form that document 01 names.
#[derive(Clone, Copy)]
pub struct Table<'a> {
    pub widths: &'a [f32],
    pub gains: &'a [f32],
    pub residuals: &'a [f32],
    ghost some: { 0 < length widths.now },
    ghost all_gains: { length gains.now ≡ length widths.now },
    ghost all_residuals: { length residuals.now ≡ length widths.now },
}

// Whether each width is below the next.
pub fn rises(widths: &[f32]) -> bool
    ensures { result ≡ every (rises_at widths.now) (length widths.now - 1) }
{
    let mut all = true;
    for pair in widths.windows(2) {
        all &= pair[0] < pair[1];
    }
    all
}

// Whether each width is above the one before it, and each knot's numbers are in the range of knots: one loop without a jump.
// Before the first width stands a NaN, which no float is at or below; a NaN among the widths is out of range. It goes by place:
// with one `zip` in another the loop's turn (`loop-width-preserved`) stays open, as no search tells that the items are the
// columns'.
pub fn rises_in_range(widths: &[f32], gains: &[f32], residuals: &[f32]) -> bool
    requires { (length gains.now ≡ length widths.now) × (length residuals.now ≡ length widths.now) }
    ensures { result ≡ sound widths.now gains.now residuals.now (length widths.now) }
{
    let mut all = true;
    let mut last = f32::NAN;
    for k in 0..widths.len() {
        let width = widths[k];
        all = all
            & !(width <= last)
            & ranges::within::<1000>(width)
            & ranges::within::<1000>(gains[k])
            & ranges::within::<1000>(residuals[k]);
        last = width;
    }
    all
}

// The place of an edge width, px, among one or more knots.
#[tactic(auto, unfolding(crate::specs::Places::place), using(crate::proofs::Tables::place_from_in))]
pub fn place_of(widths: &[f32], width: Option<f32>) -> Place
    requires { 0 < length widths.now }
    ensures place { result ≡ place widths.now (length widths.now) width }
    ensures among { AmongKnots (length widths.now) result }
{
    match width {
        Some(w) if float::is_finite32(w) & !(w <= widths[0]) => between_knots(widths, w),
        _ => Place::Knot(0),
    }
}

// The place of w, which is above the first knot.
#[tactic(auto, using(crate::proofs::Tables::seek_more))]
fn between_knots(widths: &[f32], w: f32) -> Place
    requires { 0 < length widths.now }
    ensures { result ≡ place_from widths.now w 0 (length widths.now - 1) }
{
    for (k, pair) in widths.windows(2).enumerate() {
        let lower = pair[0];
        let upper = pair[1];
        if w <= upper {
            return Place::Between(k, (w - lower) / (upper - lower));
        }
    }
    Place::Knot(widths.len() - 1)
}

// A gain or residual at a place.
#[tactic(auto, unfolding(crate::specs::Places::value_at))]
pub fn interpolated(values: &[f32], p: Place) -> f32
    requires { AmongKnots (length values.now) p }
    ensures { result ≡ value_at values.now p }
{
    match p {
        Place::Knot(k) => values[k],
        Place::Between(k, t) => blended(values[k], values[k + 1], t),
    }
}

// The part t of the way from one number to another.
fn blended(lower: f32, upper: f32, t: f32) -> f32
    ensures { result ≡ blend lower upper t }
{
    lower + t * (upper - lower)
}
