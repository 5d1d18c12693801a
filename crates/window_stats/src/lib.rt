// The figures of a 4 by 4 window: pixel sum, gate and operator output.
#![tactic(auto)]

ghost use Rattle.std.specs.Prelude.{◌≡◌, [], ◌∷◌, ◌+◌, ◌*◌, ◌<◌, ◌≤◌, length};
ghost use Rattle.laws.specs.Lists.{Each, Each²};
ghost use Rattle.window.specs.Window.{Pixel, of_rows, pixels_at, stats_of};
ghost use Rattle.window_stats.specs.Words.{word_at, row_in, rows_in};
ghost use Rattle.window_stats.specs.Passes.{Small, poly4_of, poly4_column, poly4_down, column_down, transposed};
ghost use Rattle.window_stats.specs.Passes.{part, weigh_of, Weighable};

use window::WindowStats;

// The window whose first pixel is img[at], its rows being w apart. Here and in `word` image, width and place stay apart: a struct
// of them would be made anew for each place, and taken apart at once.
pub fn window(img: &[u8], w: usize, at: usize) -> WindowStats
    requires { at + 3 * w + 4 ≤ length img.now }
    ensures { result ≡ stats_of (pixels_at img.now w at) }
{
    let a = word(img, at);
    let b = word(img, at + w);
    let c = word(img, at + 2 * w);
    let d = word(img, at + 3 * w);
    packed(a, b, c, d)
}

// Four pixels from img[at] on as one number, the first lowest.
pub fn word(img: &[u8], at: usize) -> u32
    requires { at + 4 ≤ length img.now }
    ensures { result ≡ word_at img.now at }
{
    u32::from_le_bytes([img[at], img[at + 1], img[at + 2], img[at + 3]])
}

// The window whose rows are four such numbers.
pub fn packed(a: u32, b: u32, c: u32, d: u32) -> WindowStats
    ensures { result ≡ stats_of (of_rows (rows_in a b c d)) }
{
    window_stats([row(a), row(b), row(c), row(d)])
}

// The four pixels of such a number.
fn row(x: u32) -> [i32; 4]
    ensures { result ≡ row_in x }
{
    let [a, b, c, d] = x.to_le_bytes();
    [i32::from(a), i32::from(b), i32::from(c), i32::from(d)]
}

// The window px[y][x]: the polynomials down the columns, then across. c[i][j] is component (i, j).
pub fn window_stats(px: [[i32; 4]; 4]) -> WindowStats
    requires { Each² Pixel px }
    ensures { result ≡ stats_of (of_rows px) }
{
    let d = poly4_down(px);
    let t = transpose(d);
    let c = poly4_down(t);
    let sum = c[0][0];
    let gate = weigh(c);
    let op = c[3][3];
    WindowStats { sum, gate, op }
}

// The gate's weighted squares.
fn weigh(c: [[i32; 4]; 4]) -> i32
    requires { Weighable (part c) }
    ensures { result ≡ weigh_of (part c) }
{
    5 * (c[1][2] * c[1][2]
        + c[2][1] * c[2][1]
        + c[2][3] * c[2][3]
        + c[3][2] * c[3][2]
        + c[3][0] * c[3][0]
        + c[0][3] * c[0][3])
        + 25 * (c[2][2] * c[2][2])
        + c[1][3] * c[1][3]
        + c[3][1] * c[3][1]
}

// The four polynomials over four values.
fn poly4(a: i32, b: i32, c: i32, d: i32) -> [i32; 4]
    requires { Each (Small 4080) (a ∷ b ∷ c ∷ d ∷ []) }
    ensures { result ≡ poly4_of a b c d }
{
    [
        a + b + c + d,
        3 * (d - a) + c - b,
        a - b - c + d,
        a - 3 * b + 3 * c - d,
    ]
}

// The polynomials down column x.
fn poly4_column(m: [[i32; 4]; 4], x: usize) -> [i32; 4]
    requires { (x < 4) × Each² (Small 4080) m }
    ensures { result ≡ poly4_column m x }
{
    poly4(m[0][x], m[1][x], m[2][x], m[3][x])
}

// The polynomials down each column: row p of the result is polynomial p.
fn poly4_down(m: [[i32; 4]; 4]) -> [[i32; 4]; 4]
    requires { Each² (Small 4080) m }
    ensures { result ≡ poly4_down m }
{
    transpose([
        poly4_column(m, 0),
        poly4_column(m, 1),
        poly4_column(m, 2),
        poly4_column(m, 3),
    ])
}

// Column x.
fn column_down(m: [[i32; 4]; 4], x: usize) -> [i32; 4]
    requires { x < 4 }
    ensures { result ≡ column_down m x }
{
    [m[0][x], m[1][x], m[2][x], m[3][x]]
}

// Rows for columns.
fn transpose(m: [[i32; 4]; 4]) -> [[i32; 4]; 4]
    ensures { result ≡ transposed m }
{
    [
        column_down(m, 0),
        column_down(m, 1),
        column_down(m, 2),
        column_down(m, 3),
    ]
}
