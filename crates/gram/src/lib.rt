// The sum of gradients by their transposes: uncertainty.rs, `gram`.
#![tactic(auto)]

ghost use Rattle.std.specs.Prelude.{◌≡◌, ◌*◌, ◌/◌, ◌%◌, ◌<◌, false, length};
ghost use Rattle.std.specs.Float.Ieee.{add};
ghost use Rattle.std.specs.Float.{binary32, binary64};
ghost use Rattle.ieee.specs.Convert.{convert};
ghost use Rattle.refine.specs.Covariance.{judged};
ghost use Rattle.gram.specs.Gram.{gram};
ghost use Rattle.gram.specs.Loops.{Added, FourSums, any_nan};

use numbers::Number;
use refine::PositionCovariance;

// The sum of g by its transpose over gradients g = (gx, gy). Where a cell is a NaN, so is the sum of its squares.
pub fn gram(gx: &[f32], gy: &[f32]) -> Result<PositionCovariance, Number>
    requires { length gx.now ≡ length gy.now }
    ensures { result ≡ judged (gram gx.now gy.now) }
{
    if any_nan(gx, gy) {
        return Err(Number::NotFinite);
    }
    let plain = Plain { gx, gy };
    let p = plain.partials();
    let p0 = plain.with_rest(p[0]);
    let xx = joined(p0.xx, p[1].xx, p[2].xx, p[3].xx);
    let xy = joined(p0.xy, p[1].xy, p[2].xy, p[3].xy);
    let yy = joined(p0.yy, p[1].yy, p[2].yy, p[3].yy);
    PositionCovariance::new(xx, xy, yy).finite()
}

// Whether a cell is a NaN. The loop has no jump on the cells, and the sums need no test of their own. By place: with a `zip`,
// tried, its turn (`loop-x-preserved`) stays open.
fn any_nan(gx: &[f32], gy: &[f32]) -> bool
    requires { length gx.now ≡ length gy.now }
    ensures { result ≡ any_nan gx.now gy.now (length gx.now) }
{
    let mut found = false;
    for i in 0..gx.len() {
        found |= gx[i].is_nan() | gy[i].is_nan();
    }
    found
}

// One partial sum of each component.
#[derive(Clone, Copy, Default)]
struct Three {
    xx: f64,
    xy: f64,
    yy: f64,
}

// Gradients without a NaN, as two columns, which the calls from C lend.
#[derive(Clone, Copy)]
struct Plain<'a> {
    gx: &'a [f32],
    gy: &'a [f32],
    ghost even: { length gx.now ≡ length gy.now },
    ghost no_nan: { any_nan gx.now gy.now (length gx.now) ≡ false },
}

impl Plain<'_> {
    // Four partial sums, so that the additions don't wait on one chain.
    #[tactic(auto, using(crate::proofs::Sums::turning))]
    fn partials(self) -> [Three; 4]
        ensures { FourSums self.entry.gx.now self.entry.gy.now (length self.entry.gx.now / 4) result }
    {
        let mut sums = [Three::default(); 4];
        for k in 0..self.gx.len() / 4 {
            for lane in 0..4 {
                sums[lane] = self.with_products(sums[lane], k * 4 + lane);
            }
        }
        sums
    }

    // s, and what is left past the whole fours added to it.
    fn with_rest(self, s: Three) -> Three
        ensures { Added self.entry.gx.now self.entry.gy.now 1 (length self.entry.gx.now / 4 * 4) s
            (length self.entry.gx.now % 4) result }
    {
        let first = self.gx.len() / 4 * 4;
        let mut sums = s;
        for k in 0..self.gx.len() % 4 {
            sums = self.with_products(sums, first + k);
        }
        sums
    }

    // s, and the products at place i, which are exact in f64.
    fn with_products(self, s: Three, i: usize) -> Three
        requires { i < length self.gx.now }
        ensures { Added self.entry.gx.now self.entry.gy.now 1 i s 1 result }
    {
        // `no_nan` is at hand. `f64::from`, no plainer, tests each cell anew: the sum over side 32 takes half as long again by it
        let x = self.gx[i] as f64;
        let y = self.gy[i] as f64;
        Three {
            xx: s.xx + x * x,
            xy: s.xy + x * y,
            yy: s.yy + y * y,
        }
    }
}

// A component: the four partial sums joined.
fn joined(p0: f64, p1: f64, p2: f64, p3: f64) -> f32
    ensures { result ≡ convert binary32 (add binary64 (add binary64 p0 p1) (add binary64 p2 p3)) }
{
    convert::to_f32((p0 + p1) + (p2 + p3))
}
