ghost use Rattle.std.specs.Prelude.{◌≡◌, ◌*◌, ◌<◌, ◌≤◌, ◌^◌};
ghost use Rattle.grid.specs.Step.{step_of};
ghost use Rattle.grid.specs.Grid.{Sides, first_x, row_count, total_of};
ghost use Rattle.grid.specs.Needed.{needed_of};

#[unsafe(no_mangle)]
pub extern "C" fn vuzgari_compare_step(w: usize, h: usize, windows: usize) -> usize
    requires { Sides w h × (1 ≤ windows) }
    ensures { result ≡ step_of (w * h) windows }
{
    compare::grids::vuzgari_compare_step(w, h, windows)
}

#[unsafe(no_mangle)]
pub extern "C" fn vuzgari_compare_first_x(j: usize, s: usize) -> usize
    requires { (j < 2 ^ 32) × (s < 2 ^ 32) }
    ensures { result ≡ first_x j s }
{
    compare::grids::vuzgari_compare_first_x(j, s)
}

#[unsafe(no_mangle)]
pub extern "C" fn vuzgari_compare_row_count(w: usize, s: usize, j: usize) -> usize
    requires { (4 ≤ w) × (1 ≤ s) × (j < 2 ^ 32) × (s < 2 ^ 32) }
    ensures { result ≡ row_count w s j }
{
    compare::grids::vuzgari_compare_row_count(w, s, j)
}

#[unsafe(no_mangle)]
pub extern "C" fn vuzgari_compare_windows(w: usize, h: usize, windows: usize) -> usize
    requires { Sides w h × (1 ≤ windows) }
    ensures { result ≡ total_of w h windows }
{
    compare::grids::vuzgari_compare_windows(w, h, windows)
}

#[unsafe(no_mangle)]
pub extern "C" fn vuzgari_compare_needed(w: usize, h: usize) -> usize
    requires { Sides w h }
    ensures { result ≡ needed_of w h }
{
    compare::grids::vuzgari_compare_needed(w, h)
}
