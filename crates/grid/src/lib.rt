// The grid of a pass: its step, where its rows begin, how many windows it has, and the work memory that follows from it.
// Whole numbers only; no pixel is looked at.
#![tactic(auto)]

ghost use Rattle.std.specs.Prelude.{◌≡◌, ◌+◌, ◌*◌, ◌<◌, ◌≤◌, ◌^◌};
ghost use Rattle.grid.specs.Step.{step_of};
ghost use Rattle.grid.specs.Grid.{Sides, first_x, row_count, rows_of, total_of};
ghost use Rattle.grid.specs.Needed.{first_w, second_w, needed_of, sizing_of};

use numbers::Number;

// W of the first pass: about this many windows are sampled.
pub const WINDOWS: usize = 8192;
// W of the second pass.
pub const DENSE: usize = 32_768;

// The grid over an image of w by h, sides that a pass takes, W being `windows`.
#[derive(Clone, Copy)]
pub struct Grid {
    pub w: usize,
    pub h: usize,
    pub windows: usize,
    pub ghost sides: { Sides w h },
    pub ghost some: { 1 ≤ windows },
}

impl Grid {
    // The grid of the first pass. Here and in `dense` the name says the pass: a call with the number would be the literal itself.
    pub fn first(w: usize, h: usize) -> Grid
        requires { Sides w h }
        ensures { (result.w ≡ w) × (result.h ≡ h) × (result.windows ≡ first_w) }
    {
        Grid {
            w,
            h,
            windows: WINDOWS,
        }
    }

    // The grid of the second pass.
    pub fn dense(w: usize, h: usize) -> Grid
        requires { Sides w h }
        ensures { (result.w ≡ w) × (result.h ≡ h) × (result.windows ≡ second_w) }
    {
        Grid {
            w,
            h,
            windows: DENSE,
        }
    }

    // The least whole step, 1 or more, whose square times `windows` reaches the number of pixels: one more than the last that
    // falls short. A root of 16 bits, which serves both passes, is found in a quarter of the turns that one of 64 takes.
    #[tactic(auto, using(crate::proofs::Steps::root_is, crate::proofs::Steps::one_is))]
    pub fn step(self) -> usize
        ensures { result ≡ step_of (self.w * self.h) self.windows }
    {
        let pixels = self.w * self.h;
        if pixels <= self.windows {
            return 1;
        }
        let short = (pixels - 1) / self.windows;
        match u16::try_from(short) {
            Ok(n) => usize::from(n.isqrt()) + 1,
            Err(_) => short.isqrt() + 1,
        }
    }

    // T: how many windows the pass has.
    pub fn window_count(self) -> usize
        ensures { result ≡ total_of self.w self.h self.windows }
    {
        let s = self.step();
        let mut t = 0;
        for j in 0..rows(self.h, s) {
            t += row_count(self.w, s, j);
        }
        t
    }
}

// The first x of grid row j: the fraction of j times 0.618034, times the step. The product passes 2^32. It asks less than a grid.
pub fn first_x(j: usize, s: usize) -> usize
    requires { (j < 2 ^ 32) × (s < 2 ^ 32) }
    ensures { result ≡ first_x j s }
{
    j * 618_034 % 1_000_000 * s / 1_000_000
}

// How many windows grid row j has. It asks less than a grid: a width and a step, whatever the height.
pub fn row_count(w: usize, s: usize, j: usize) -> usize
    requires { (4 ≤ w) × (1 ≤ s) × (j < 2 ^ 32) × (s < 2 ^ 32) }
    ensures { result ≡ row_count w s j }
{
    (w - 3).saturating_sub(first_x(j, s)).div_ceil(s)
}

// How many rows the grid has, which a height and a step decide.
pub fn rows(h: usize, s: usize) -> usize
    requires { (4 ≤ h) × (1 ≤ s) }
    ensures { result ≡ rows_of h s }
{
    (h - 3).div_ceil(s)
}

// M: for how many windows a noise call needs memory, whichever pass decides.
#[tactic(auto, unfolding(crate::specs::Needed::needed_of))]
pub fn needed(w: usize, h: usize) -> usize
    requires { Sides w h }
    ensures { result ≡ needed_of w h }
{
    let first = Grid::first(w, h);
    if first.step() == 1 {
        return first.window_count();
    }
    let second = Grid::dense(w, h);
    first.window_count().max(second.window_count())
}

// The work memory that the noise call needs for an image of w by h: M windows, for which an i32 slice of 3M and an f32 slice of
// 2M + 2 serve. Else a side is above 16,384 or below 4.
#[tactic(auto, unfolding(crate::specs::Needed::sizing_of))]
pub fn sizing(w: usize, h: usize) -> Result<usize, Number>
    ensures { result ≡ sizing_of w h }
{
    if limits::too_large(w, h) {
        return Err(Number::SideAbove);
    }
    if limits::too_small(w, h) {
        return Err(Number::SideBelow);
    }
    Ok(needed(w, h))
}
