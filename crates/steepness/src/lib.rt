// The mean of the roots of the largest of 81 squared gradients, halved: uncertainty.rs, part of `PixelTile::edge_width`.
#![tactic(auto)]

ghost use Rattle.std.specs.Prelude.{◌≡◌, map, T, drop};
ghost use Rattle.std.specs.Float.{binary32};
ghost use Rattle.ieee.specs.Sqrt.{sqrt};
ghost use Rattle.quantile.specs.Rising.{inserted, Rises};
ghost use Rattle.levels.specs.Clear.{clear, AllClear};
ghost use Rattle.levels.specs.Levels.{summed};
ghost use Rattle.steepness.specs.Steepness as Steepness;
ghost use Rattle.steepness.specs.Slide as Slide;

// The larger of v and y, by one comparison. f32's `max` makes a second, for NaN, in the inner loop: tried, 2,904 instructions a
// call of `largest` for 2,098 with this one, where the edge call is near its mark (docs/SPEED.md).
fn greater(v: f32, y: f32) -> f32
    ensures { result ≡ Slide.greater v y }
{
    if v < y { y } else { v }
}

// The middle one of v, y and x, where y is not above x.
fn middle(v: f32, y: f32, x: f32) -> f32
    ensures { result ≡ Slide.middle v y x }
{
    let most = greater(v, y);
    if v < x { most } else { x }
}

// v among the eight largest so far, which rise; the smallest falls out. One jump turns on the numbers. It is no instance of
// quantile's `insert`, which keeps the least and jumps at each place.
#[tactic(auto, using(crate::proofs::Largests::stay, crate::proofs::Largests::slide_start))]
fn insert(top: &mut [f32; 8], v: f32)
    requires { AllClear top.old × T (clear v) × Rises top.old }
    ensures { top.new ≡ drop 1 (inserted v top.old) }
{
    let first = top[0];
    if v < first {
        return;
    }
    for j in 0..7 {
        top[j] = middle(v, top[j], top[j + 1]);
    }
    top[7] = greater(v, top[7]);
}

// The eight largest, the smallest of them first.
fn largest(gradients: &[f32; 81]) -> [f32; 8]
    requires { AllClear gradients.now }
    ensures { result ≡ Steepness.largest gradients.now }
{
    let mut top = [0.0f32; 8];
    for v in gradients {
        insert(&mut top, *v);
    }
    top
}

// The roots, added from the first on.
fn add_roots(top: &[f32; 8]) -> f32
    ensures { result ≡ summed (map (sqrt binary32) top.now) }
{
    let mut sum = 0.0;
    for x in top {
        sum += roots::sqrt32(*x);
    }
    sum
}

// The gradient mean.
pub fn steepness(gradients: &[f32; 81]) -> f32
    requires { AllClear gradients.now }
    ensures { result ≡ Steepness.steepness gradients.now }
{
    0.5 * add_roots(&largest(gradients)) / 8.0
}
