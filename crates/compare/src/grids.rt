// The grid of a pass. The facts stand in each contract, as C's caller owes them: C hands over sides and counts, and no Grid.
ghost use Rattle.std.specs.Prelude.{◌≡◌, ◌*◌, ◌<◌, ◌≤◌, ◌^◌};
ghost use Rattle.grid.specs.Step.{step_of};
ghost use Rattle.grid.specs.Grid.{Sides, first_x, row_count, total_of};
ghost use Rattle.grid.specs.Needed.{needed_of};

use grid::Grid;

pub fn vuzgari_compare_step(w: usize, h: usize, windows: usize) -> usize
    requires { Sides w h × (1 ≤ windows) }
    ensures { result ≡ step_of (w * h) windows }
{
    Grid { w, h, windows }.step()
}

pub fn vuzgari_compare_first_x(j: usize, s: usize) -> usize
    requires { (j < 2 ^ 32) × (s < 2 ^ 32) }
    ensures { result ≡ first_x j s }
{
    grid::first_x(j, s)
}

pub fn vuzgari_compare_row_count(w: usize, s: usize, j: usize) -> usize
    requires { (4 ≤ w) × (1 ≤ s) × (j < 2 ^ 32) × (s < 2 ^ 32) }
    ensures { result ≡ row_count w s j }
{
    grid::row_count(w, s, j)
}

pub fn vuzgari_compare_windows(w: usize, h: usize, windows: usize) -> usize
    requires { Sides w h × (1 ≤ windows) }
    ensures { result ≡ total_of w h windows }
{
    Grid { w, h, windows }.window_count()
}

pub fn vuzgari_compare_needed(w: usize, h: usize) -> usize
    requires { Sides w h }
    ensures { result ≡ needed_of w h }
{
    grid::needed(w, h)
}
