ghost use Rattle.std.specs.Prelude.{◌≡◌, ◌+◌, ◌*◌, ◌≤◌, length};
ghost use Rattle.window.specs.Window.{pixels_at, stats_of};

#[unsafe(no_mangle)]
pub extern "C" fn vuzgari_compare_window_sum(img: &[u8], w: usize, at: usize) -> i32
    requires { at + 3 * w + 4 ≤ length img.now }
    ensures { result ≡ (stats_of (pixels_at img.now w at)).sum }
{
    compare::windows::vuzgari_compare_window_sum(img, w, at)
}

#[unsafe(no_mangle)]
pub extern "C" fn vuzgari_compare_window_gate(img: &[u8], w: usize, at: usize) -> i32
    requires { at + 3 * w + 4 ≤ length img.now }
    ensures { result ≡ (stats_of (pixels_at img.now w at)).gate }
{
    compare::windows::vuzgari_compare_window_gate(img, w, at)
}

#[unsafe(no_mangle)]
pub extern "C" fn vuzgari_compare_window_op(img: &[u8], w: usize, at: usize) -> i32
    requires { at + 3 * w + 4 ≤ length img.now }
    ensures { result ≡ (stats_of (pixels_at img.now w at)).op }
{
    compare::windows::vuzgari_compare_window_op(img, w, at)
}
