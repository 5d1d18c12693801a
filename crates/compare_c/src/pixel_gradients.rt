ghost use Rattle.std.specs.Prelude.{[], ◌∷◌};
ghost use Rattle.gradients.specs.Gradients.{reset_of, add_of, covariance_of};
ghost use Rattle.compare.specs.Lent.{state, HandedBack, Told};

#[unsafe(no_mangle)]
pub extern "C" fn vuzgari_compare_reset(
    origin: &mut [i32; 2],
    side: &mut usize,
    gx: &mut [f32; 1024],
    gy: &mut [f32; 1024],
    x: i32,
    y: i32,
    n: usize,
) -> u32
    ensures { HandedBack
        (reset_of (state origin.old side.old gx.old gy.old) (x ∷ y ∷ []) n)
        result origin.new side.new gx.new gy.new }
{
    compare::pixel_gradients::vuzgari_compare_reset(origin, side, gx, gy, x, y, n)
}

#[unsafe(no_mangle)]
pub extern "C" fn vuzgari_compare_add(
    origin: &mut [i32; 2],
    side: &mut usize,
    gx: &mut [f32; 1024],
    gy: &mut [f32; 1024],
    x: i32,
    y: i32,
    vx: f32,
    vy: f32,
) -> u32
    ensures { HandedBack
        (add_of (state origin.old side.old gx.old gy.old) x y (vx ∷ vy ∷ []))
        result origin.new side.new gx.new gy.new }
{
    compare::pixel_gradients::vuzgari_compare_add(origin, side, gx, gy, x, y, vx, vy)
}

// The figures go to `out`.
#[unsafe(no_mangle)]
pub extern "C" fn vuzgari_compare_covariance(
    origin: &[i32; 2],
    side: usize,
    gx: &[f32; 1024],
    gy: &[f32; 1024],
    out: &mut [f32; 3],
) -> u32
    ensures { Told
        (covariance_of (state origin.now side gx.now gy.now))
        result out.new }
{
    compare::pixel_gradients::vuzgari_compare_covariance(origin, side, gx, gy, out)
}
