// The noise call: refusals, one pass or two, the answer, and work memory cleared.
#![tactic(auto)]

ghost use Rattle.std.specs.Prelude.{◌≡◌, ◌*◌, length};
ghost use Rattle.grid.specs.Step.{step_of};
ghost use Rattle.noise.specs.Refusals.{short_of};
ghost use Rattle.noise.specs.Answers.{ending_in, first_decides};
ghost use Rattle.noise.specs.Call.{refused, measured, cleared_ints, cleared_floats, noise_of, left_ints, left_floats};
ghost use Rattle.noise.specs.Steps.{verdict_of, Ready, work_ints, work_floats};

use answer::Answer;
use grid::Grid;
use numbers::Number;
use pass::Pass;

// M, the windows that memory is needed for, or the first cause that applies to an image of w by h with so many pixels and work
// slices so long. No type holds the five, which are as C lends them: this call finds out what they are.
pub fn judge(pixels: usize, w: usize, h: usize, ints: usize, floats: usize) -> Result<usize, Number>
    ensures { result ≡ verdict_of pixels w h ints floats }
{
    limits::judge(pixels, w, h)?;
    if limits::too_small(w, h) {
        return Err(Number::SideBelow);
    }
    let m = grid::needed(w, h);
    if ints < sample::COLUMNS * m || floats < 2 * m + 2 {
        return Err(Number::ShortSlice);
    }
    Ok(m)
}

// The answer that ends in pass p.
fn ending_in(p: Pass, rounds: u32, passes: u32) -> Answer
    ensures { result ≡ ending_in p rounds passes }
{
    let (number, sigma, milli) = match p.sigma {
        Ok(sigma) => (0, sigma, milli::milli(sigma)),
        Err(why) => (u32::from(why), 0.0, 0),
    };
    Answer {
        number,
        sigma,
        milli,
        b0: p.b0,
        b1: p.b1,
        b2: p.b2,
        b3: p.b3,
        rail: p.rail,
        rounds,
        passes,
    }
}

// A refused call's answer: zeros beside the number. A `Number` would ask more of callers than any u32 does.
pub fn refuse(number: u32) -> Answer
    ensures { result ≡ refused number }
{
    Answer {
        number,
        sigma: 0.0,
        milli: 0,
        b0: 0,
        b1: 0,
        b2: 0,
        b3: 0,
        rail: 0,
        rounds: 0,
        passes: 0,
    }
}

// Whether the first pass decides: it has a sigma, or its grid leaves no window out. The step is worked out only without a sigma.
fn first_decides(grid: Grid, p: Pass) -> bool
    ensures { result ≡ first_decides (step_of (grid.w * grid.h) grid.windows) p }
{
    p.sigma.is_ok() || grid.step() == 1
}

// The first pass, and the second where the first gives no sigma and leaves windows out. Here and below image, sides and work
// slices travel together because C lends them so.
fn passes(img: &[u8], w: usize, h: usize, ints: &mut [i32], floats: &mut [f32], m: usize) -> Answer
    requires { Ready img.now w h m ints.old floats.old }
    ensures { (result ≡ measured img.now w h)
        × (ints.new ≡ work_ints img.now w h ints.old)
        × (floats.new ≡ work_floats img.now w h floats.old) }
{
    let grid = Grid::first(w, h);
    let first = pass::run(img, grid, ints, floats);
    if first_decides(grid, first) {
        return ending_in(first, first.rounds, 1);
    }
    let dense = Grid::dense(w, h);
    let second = pass::run(img, dense, ints, floats);
    ending_in(second, first.rounds + second.rounds, 2)
}

// A call that nothing refuses, M being m: the answer, and the memory that it needed cleared.
pub fn measure(
    img: &[u8],
    w: usize,
    h: usize,
    ints: &mut [i32],
    floats: &mut [f32],
    m: usize,
) -> Answer
    requires { Ready img.now w h m ints.old floats.old }
    ensures { (result ≡ measured img.now w h)
        × (ints.new ≡ cleared_ints m ints.old)
        × (floats.new ≡ cleared_floats m floats.old) }
{
    let answer = passes(img, w, h, ints, floats, m);
    ints[..sample::COLUMNS * m].fill(0);
    floats[..2 * m + 2].fill(0.0);
    answer
}

// The standard deviation of the pixel noise in an 8-bit image of w by h, in grey levels, or why there is none. The work slices
// hold 3M and 2M + 2 elements or more, M being what grid::sizing answers.
pub fn estimate_noise_sigma_u8(
    img: &[u8],
    w: usize,
    h: usize,
    ints: &mut [i32],
    floats: &mut [f32],
) -> Answer
    ensures { (result ≡ noise_of img.now w h
        (short_of w h (length ints.old) (length floats.old)))
        × (ints.new ≡ left_ints result.number w h ints.old)
        × (floats.new ≡ left_floats result.number w h floats.old) }
{
    match judge(img.len(), w, h, ints.len(), floats.len()) {
        Ok(m) => measure(img, w, h, ints, floats, m),
        Err(why) => refuse(u32::from(why)),
    }
}
