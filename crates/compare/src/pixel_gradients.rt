// The gradient accumulator. A state is lent by its parts, which hold at exit the state handed back.
ghost use Rattle.std.specs.Prelude.{◌≡◌, [], ◌∷◌};
ghost use Rattle.gradients.specs.Gradients.{reset_of, add_of, covariance_of};
ghost use Rattle.compare.specs.Lent.{state, HandedBack, Told};

use crate::covariances::told;
use gradients::{PixelGradients, Unchanged};

fn lay(
    s: &PixelGradients,
    origin: &mut [i32; 2],
    side: &mut usize,
    gx: &mut [f32; 1024],
    gy: &mut [f32; 1024],
)
    ensures { state origin.new side.new gx.new gy.new ≡ s.now }
{
    let PixelGradients {
        origin: o,
        side: n,
        gx: x,
        gy: y,
    } = s;
    *origin = *o;
    *side = *n;
    *gx = *x;
    *gy = *y;
}

// Each case lays its own state, so that none is moved before.
fn leave(
    h: Result<PixelGradients, Unchanged>,
    origin: &mut [i32; 2],
    side: &mut usize,
    gx: &mut [f32; 1024],
    gy: &mut [f32; 1024],
) -> u32
    ensures { HandedBack h result origin.new side.new gx.new gy.new }
{
    match h {
        Ok(s) => {
            lay(&s, origin, side, gx, gy);
            0
        }
        Err(unchanged) => {
            lay(&unchanged.state, origin, side, gx, gy);
            u32::from(unchanged.why)
        }
    }
}

pub fn vuzgari_compare_reset(
    origin: &mut [i32; 2],
    side: &mut usize,
    gx: &mut [f32; 1024],
    gy: &mut [f32; 1024],
    x: i32,
    y: i32,
    n: usize,
) -> u32
    ensures { HandedBack
        (reset_of (state origin.old side.old gx.old gy.old) (x ∷ y ∷ []) n)
        result origin.new side.new gx.new gy.new }
{
    let s = PixelGradients {
        origin: *origin,
        side: *side,
        gx: *gx,
        gy: *gy,
    };
    leave(s.reset([x, y], n), origin, side, gx, gy)
}

pub fn vuzgari_compare_add(
    origin: &mut [i32; 2],
    side: &mut usize,
    gx: &mut [f32; 1024],
    gy: &mut [f32; 1024],
    x: i32,
    y: i32,
    vx: f32,
    vy: f32,
) -> u32
    ensures { HandedBack
        (add_of (state origin.old side.old gx.old gy.old) x y (vx ∷ vy ∷ []))
        result origin.new side.new gx.new gy.new }
{
    let s = PixelGradients {
        origin: *origin,
        side: *side,
        gx: *gx,
        gy: *gy,
    };
    leave(s.add(x, y, [vx, vy]), origin, side, gx, gy)
}

// The figures go to `out`.
pub fn vuzgari_compare_covariance(
    origin: &[i32; 2],
    side: usize,
    gx: &[f32; 1024],
    gy: &[f32; 1024],
    out: &mut [f32; 3],
) -> u32
    ensures { Told
        (covariance_of (state origin.now side gx.now gy.now))
        result out.new }
{
    let s = PixelGradients {
        origin: *origin,
        side,
        gx: *gx,
        gy: *gy,
    };
    told(s.covariance(), out)
}
