// A window's figures, one by one. The facts stand in each contract, as C's caller owes them: C hands over an image and a place.
ghost use Rattle.std.specs.Prelude.{◌≡◌, ◌+◌, ◌*◌, ◌≤◌, length};
ghost use Rattle.window.specs.Window.{pixels_at, stats_of};

pub fn vuzgari_compare_window_sum(img: &[u8], w: usize, at: usize) -> i32
    requires { at + 3 * w + 4 ≤ length img.now }
    ensures { result ≡ (stats_of (pixels_at img.now w at)).sum }
{
    window_stats::window(img, w, at).sum
}

pub fn vuzgari_compare_window_gate(img: &[u8], w: usize, at: usize) -> i32
    requires { at + 3 * w + 4 ≤ length img.now }
    ensures { result ≡ (stats_of (pixels_at img.now w at)).gate }
{
    window_stats::window(img, w, at).gate
}

pub fn vuzgari_compare_window_op(img: &[u8], w: usize, at: usize) -> i32
    requires { at + 3 * w + 4 ≤ length img.now }
    ensures { result ≡ (stats_of (pixels_at img.now w at)).op }
{
    window_stats::window(img, w, at).op
}
