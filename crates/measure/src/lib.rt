// The windows of a pass measured into the lent i32 slice: three columns, of sums, gates and outputs, in one slice because C lends
// it so.
#![tactic(auto)]

ghost use Rattle.std.specs.Prelude.{◌≡◌, ℕ, ◌+◌, ◌*◌, ◌<◌, ◌≤◌, length, slice_index_or};
ghost use Rattle.grid.specs.Grid.{total_of};
ghost use Rattle.measure.specs.Figures.{figures_of, Measurable};
ghost use Rattle.measure.specs.Columns.{columns_in, column_count};
ghost use Rattle.measure.specs.Loops.{figure_of, Filled, gathered};

use grid::Grid;

// How many windows are measured at a time.
const MOST: usize = 32;

// n windows of a grid row: the first begins at img[at], they are s apart, and the image's rows w.
#[derive(Clone, Copy)]
struct Row<'a> {
    img: &'a [u8],
    w: usize,
    at: usize,
    s: usize,
    n: usize,
    ghost inside: { (k : ℕ) → k < n → at + k * s + 3 * w + 4 ≤ length img.now },
    // A slice's own type says so, but not that of a struct that holds it.
    ghost bytes: { (i : ℕ) → slice_index_or img.now i 0 < 256 },
}

impl Row<'_> {
    // Of each window the four pixels in its row y, as one number, to the front of words.
    fn gather(self, y: usize, words: &mut [u32; MOST])
        requires { (y < 4) × (self.n ≤ MOST) }
        ensures { words.new ≡ gathered self.entry.img.now (self.entry.at + y * self.entry.w) self.entry.s self.entry.n words.old }
    {
        for k in 0..self.n {
            words[k] = window_stats::word(self.img, self.at + y * self.w + k * self.s);
        }
    }

    // At most 32 windows, into the columns from place `to` on: all their pixels are asked for before the first is measured, and
    // they stand side by side, so that several can be measured by one instruction.
    fn measure_some(self, ints: &mut [i32], t: usize, to: usize)
        requires { (self.n ≤ MOST) × (to + self.n ≤ t) × (column_count * t ≤ length ints.old) }
        ensures { Filled t to self.entry.n (figure_of self.entry.img.now self.entry.w self.entry.at self.entry.s)
            ints.old ints.new }
    {
        let mut a = [0; MOST];
        let mut b = [0; MOST];
        let mut c = [0; MOST];
        let mut d = [0; MOST];
        self.gather(0, &mut a);
        self.gather(1, &mut b);
        self.gather(2, &mut c);
        self.gather(3, &mut d);
        for k in 0..self.n {
            let f = window_stats::packed(a[k], b[k], c[k], d[k]);
            let i = to + k;
            ints[i] = f.sum;
            ints[t + i] = f.gate;
            ints[2 * t + i] = f.op;
        }
    }

    // All of them, 32 at a time, into the columns from place `to` on. No struct holds `ints` and t: each call would have to
    // promise that it still holds the same slice.
    fn measure(self, ints: &mut [i32], t: usize, to: usize)
        requires { (to + self.n ≤ t) × (column_count * t ≤ length ints.old) }
        ensures { Filled t to self.entry.n (figure_of self.entry.img.now self.entry.w self.entry.at self.entry.s)
            ints.old ints.new }
    {
        for i in 0..self.n.div_ceil(MOST) {
            let k = i * MOST;
            let some = Row {
                img: self.img,
                w: self.w,
                at: self.at + k * self.s,
                s: self.s,
                n: (self.n - k).min(MOST),
            };
            some.measure_some(ints, t, to + k);
        }
    }
}

// Every window of the pass, in sampling order, into columns as long as there are windows: those of the one slice that C lends.
pub fn measure(img: &[u8], grid: Grid, ints: &mut [i32]) -> usize
    requires { Measurable img.now grid.w grid.h grid.windows ints.old }
    ensures { (result ≡ total_of grid.w grid.h grid.windows)
        × (ints.new ≡ columns_in (figures_of img.now grid.w grid.h grid.windows) ints.old) }
{
    let w = grid.w;
    let t = grid.window_count();
    let s = grid.step();
    let mut to = 0;
    for j in 0..grid::rows(grid.h, s) {
        let x = grid::first_x(j, s);
        let n = grid::row_count(w, s, j);
        let row = Row {
            img,
            w,
            at: j * s * w + x,
            s,
            n,
        };
        row.measure(ints, t, to);
        to += n;
    }
    t
}
