// The gradient accumulator of uncertainty.rs, as a value that goes in and comes back.
#![tactic(auto)]

ghost use Rattle.std.specs.Prelude.{◌≡◌, ◌<◌, IfOk};
ghost use Rattle.gradients.specs.Gradients.{empty, reset_of, place_of, add_of, covariance_of};

use numbers::Number;
use refine::PositionCovariance;

// The gradient of one estimate by each pixel, accumulated over a square of input pixels: `side` rows of `side` cells, row by row.
// Two columns, as the calls from C lend them.
#[derive(Drop)]
pub struct PixelGradients {
    // The top-left pixel.
    pub origin: [i32; 2],
    pub side: usize,
    pub gx: [f32; 1024],
    pub gy: [f32; 1024],
}

// The state as it was, and why a call changes nothing. The state is first, so that an answer holds it in one place either way.
#[derive(Drop)]
pub struct Unchanged {
    pub state: PixelGradients,
    pub why: Number,
}

// No support.
impl Default for PixelGradients {
    ghost is_default = { λ s. s ≡ empty };

    fn default() -> Self {
        Self {
            origin: [0, 0],
            side: 0,
            gx: [0.0; 1024],
            gy: [0.0; 1024],
        }
    }
}

impl PixelGradients {
    // The accumulator cleared for a `side` by `side` support whose top-left pixel is `origin`: every cell is zero, those past
    // the side too.
    #[tactic(auto, unfolding(crate::specs::Gradients::reset_of))]
    pub fn reset(mut self, origin: [i32; 2], side: usize) -> Result<Self, Unchanged>
        ensures { result ≡ reset_of self origin side }
    {
        if let Err(why) = support::judge(origin, side) {
            return Err(Unchanged { why, state: self });
        }
        self.origin = origin;
        self.side = side;
        self.gx = [0.0; 1024];
        self.gy = [0.0; 1024];
        Ok(self)
    }

    // The cell of pixel (x, y), where v can be added to it.
    #[tactic(auto, using(crate::proofs::Refusals::place_12))]
    fn place(&self, x: i32, y: i32, v: [f32; 2]) -> Result<usize, Number>
        ensures place { result ≡ place_of self.now x y v }
        ensures inside { IfOk result (λ k. k < 1024) }
    {
        support::judge(self.origin, self.side)?;
        if !(float::is_finite32(v[0]) & float::is_finite32(v[1])) {
            return Err(Number::FloatRange);
        }
        let i = support::past_origin(x, self.origin[0], self.side).ok_or(Number::Outside)?;
        let j = support::past_origin(y, self.origin[1], self.side).ok_or(Number::Outside)?;
        Ok(support::index(i, j, self.side))
    }

    // v added to the gradient of pixel (x, y).
    #[tactic(auto, unfolding(crate::specs::Gradients::add_of))]
    pub fn add(mut self, x: i32, y: i32, v: [f32; 2]) -> Result<Self, Unchanged>
        ensures { result ≡ add_of self x y v }
    {
        match self.place(x, y, v) {
            Ok(k) => {
                self.gx[k] += v[0];
                self.gy[k] += v[1];
                Ok(self)
            }
            Err(why) => Err(Unchanged { why, state: self }),
        }
    }

    // The sum of g by its transpose over the support's pixels.
    #[tactic(auto, using(crate::proofs::Refusals::covered))]
    pub fn covariance(self) -> Result<PositionCovariance, Number>
        ensures { result ≡ covariance_of self }
    {
        support::judge(self.origin, self.side)?;
        let n = self.side * self.side;
        let gx = &self.gx[..n];
        let gy = &self.gy[..n];
        gram::gram(gx, gy)
    }
}
