// Sampling: the windows of a pass measured into the lent i32 slice, counted by band, and laid into the lent f32 slice.
#![tactic(auto)]

ghost use Rattle.std.specs.Prelude.{◌≡◌, ◌+◌, ◌*◌, ◌<◌, ◌≤◌, length};
ghost use Rattle.measure.specs.Figures.{figures_of};
ghost use Rattle.measure.specs.Columns.{columns_in, column_count, figure_in, figures_in};
ghost use Rattle.band.specs.Bands.{sample_of};
ghost use Rattle.sample.specs.Laid.{laid_in, Collectable};
ghost use Rattle.sample.specs.Loops.{laid_at, Layable};

use band::Sample;
use grid::Grid;

// How many numbers of a window the i32 slice holds: sum, gate, operator output.
pub const COLUMNS: usize = 3;

// Window k's gate, rounded once, at place i of floats, and its output, squared, half further on. The slice holds three columns of
// t numbers, as C lends it; a struct of slice and t would be taken apart in each of these calls.
fn lay(ints: &[i32], t: usize, k: usize, floats: &mut [f32], i: usize, half: usize)
    requires { (column_count * t ≤ length ints.now) × (k < t) × (half + i < length floats.old) }
    ensures { floats.new ≡ laid_at (figure_in t ints.now k) i half floats.old }
{
    let gate = ints[t + k];
    let op = ints[2 * t + k];
    let o = std::num::nearest_i32_to_f32(op);
    floats[i] = std::num::nearest_i32_to_f32(gate);
    floats[half + i] = o * o;
}

// The kept windows into floats, band after band: gates, one spare place, squared outputs. It goes by place, which `lay` takes:
// an `enumerate` is no plainer, and by it, tried, each answer on a turn is longer.
pub fn scatter(ints: &[i32], t: usize, s: Sample, floats: &mut [f32])
    requires { Layable t ints.now s floats.old }
    ensures { floats.new ≡ laid_in (figures_in t ints.now) floats.old }
{
    let mut next = s.starts();
    let kept = next[4];
    for k in 0..t {
        if let Some(b) = band::band(ints[k]) {
            let i = next[b];
            lay(ints, t, k, floats, i, kept + 1);
            next[b] = i + 1;
        }
    }
}

// One pass: the windows of the grid measured into ints, counted, and the kept ones laid into floats.
pub fn collect(img: &[u8], grid: Grid, ints: &mut [i32], floats: &mut [f32]) -> Sample
    requires { Collectable img.now grid.w grid.h grid.windows ints.old floats.old }
    ensures { (result ≡ sample_of (figures_of img.now grid.w grid.h grid.windows))
        × (ints.new ≡ columns_in (figures_of img.now grid.w grid.h grid.windows) ints.old)
        × (floats.new ≡ laid_in (figures_of img.now grid.w grid.h grid.windows) floats.old) }
{
    let t = measure::measure(img, grid, ints);
    let s = band::count(ints, t);
    scatter(ints, t, s, floats);
    s
}
