ghost use Rattle.std.specs.Prelude.{◌≡◌, ◌≤◌, length};
ghost use Rattle.grid.specs.Grid.{Sides};
ghost use Rattle.measure.specs.Figures.{figures_of};
ghost use Rattle.measure.specs.Columns.{columns_in};
ghost use Rattle.band.specs.Bands.{sample_of};
ghost use Rattle.sample.specs.Laid.{laid_in, Collectable};
ghost use Rattle.compare.specs.Counts.{counts_in};

// `collect`, with its counts at the front of a lent slice.
#[unsafe(no_mangle)]
pub extern "C" fn vuzgari_compare_collect(
    img: &[u8],
    w: usize,
    h: usize,
    windows: usize,
    ints: &mut [i32],
    floats: &mut [f32],
    counts: &mut [usize],
)
    requires { Sides w h × (1 ≤ windows) × Collectable img.now w h windows ints.old floats.old
        × (5 ≤ length counts.old) }
    ensures { (counts.new ≡ counts_in (sample_of (figures_of img.now w h windows)) counts.old)
        × (ints.new ≡ columns_in (figures_of img.now w h windows) ints.old)
        × (floats.new ≡ laid_in (figures_of img.now w h windows) floats.old) }
{
    compare::samples::vuzgari_compare_collect(img, w, h, windows, ints, floats, counts)
}
