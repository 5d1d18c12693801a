// One pass: windows sampled, split into bands, and their noise level found.
#![tactic(auto)]

ghost use Rattle.std.specs.Prelude.{◌≡◌};
ghost use Rattle.measure.specs.Figures.{figures_of};
ghost use Rattle.measure.specs.Columns.{columns_in};
ghost use Rattle.sample.specs.Laid.{laid_in, Collectable};
ghost use Rattle.joining.specs.Joining.{noise};
ghost use Rattle.pass.specs.Pass.{starts_by, packed, pass_of};
ghost use Rattle.pass.specs.Steps.{gates_in, squares_in, Small, Room};

use band::Sample;
use grid::Grid;
use joining::Noise;
use numbers::Number;
use rounds::Image;
use sums::Band;

// What one pass finds: sigma or why there is none, the rounds evaluated, and how many windows the bands have and the rails.
#[derive(Clone, Copy)]
pub struct Pass {
    pub sigma: Result<f32, Number>,
    pub rounds: u32,
    pub b0: u32,
    pub b1: u32,
    pub b2: u32,
    pub b3: u32,
    pub rail: u32,
}

// One pass. It leaves the figures of its windows in the work slices: three columns, and the kept ones as floats.
pub fn run(img: &[u8], grid: Grid, ints: &mut [i32], floats: &mut [f32]) -> Pass
    requires { Collectable img.now grid.w grid.h grid.windows ints.old floats.old }
    ensures { (result ≡ pass_of (figures_of img.now grid.w grid.h grid.windows))
        × (ints.new ≡ columns_in (figures_of img.now grid.w grid.h grid.windows) ints.old)
        × (floats.new ≡ laid_in (figures_of img.now grid.w grid.h grid.windows) floats.old) }
{
    let s = sample::collect(img, grid, ints, floats);
    let n = noise_in(floats, s);
    pack(s, n)
}

// The noise of the bands that stand one after the other in floats: gates, a spare place, squared outputs.
fn noise_in(floats: &[f32], s: Sample) -> Noise
    requires { Room s floats.now }
    ensures { result ≡ noise (gates_in s floats.now) (squares_in s floats.now) (starts_by s) }
{
    let starts = s.starts();
    let kept = starts[4];
    let all = Band {
        gate: &floats[..kept],
        op: &floats[kept + 1..kept + 1 + kept],
    };
    joining::noise_sigma(Image { all, starts })
}

// Counts and noise as one.
fn pack(s: Sample, n: Noise) -> Pass
    requires { Small s n }
    ensures { result ≡ packed s n }
{
    Pass {
        sigma: n.sigma,
        rounds: n.rounds as u32,
        b0: s.b0 as u32,
        b1: s.b1 as u32,
        b2: s.b2 as u32,
        b3: s.b3 as u32,
        rail: s.rail as u32,
    }
}
