// A square of samples smoothed, and the values and gradients on its disk.
#![tactic(auto)]

ghost use Rattle.std.specs.Prelude.{◌≡◌, ◌+◌, ◌*◌, ◌≤◌};
ghost use Rattle.laws.specs.Lists.{from};
ghost use Rattle.disk.specs.Rows.{in_rows, read};
ghost use Rattle.disk.specs.Smoothing as Smoothing;
ghost use Rattle.disk.specs.Strided.{strided};
ghost use Rattle.disk.specs.Gradients as Gradients;

// The places of the disk in rows of 17: dx² + dy² ≤ 25, rows first. A const cannot be computed by a loop.
const EDGE_DISK: [u8; 81] = [
    23, 37, 38, 39, 40, 41, 42, 43, 53, 54, 55, 56, 57, 58, 59, 60, 61, 70, 71, 72, 73, 74, 75, 76,
    77, 78, 87, 88, 89, 90, 91, 92, 93, 94, 95, 103, 104, 105, 106, 107, 108, 109, 110, 111, 112,
    113, 121, 122, 123, 124, 125, 126, 127, 128, 129, 138, 139, 140, 141, 142, 143, 144, 145, 146,
    155, 156, 157, 158, 159, 160, 161, 162, 163, 173, 174, 175, 176, 177, 178, 179, 193,
];

// 1, 4, 6, 4, 1 over five values.
fn binomial(a: f32, b: f32, c: f32, d: f32, e: f32) -> f32
    ensures { result ≡ Smoothing.binomial a b c d e }
{
    (a + e) + 4.0 * (b + d) + 6.0 * c
}

// Each value is made of the five from its place on, STRIDE places apart.
fn smooth<const STRIDE: usize, const N: usize, const M: usize>(
    values: &[f32; N],
    out: &mut [f32; M],
)
    requires { M + 4 * STRIDE ≤ N }
    ensures { out.new ≡ from (λ k. strided values.now k STRIDE) 0 M }
{
    for k in 0..M {
        out[k] = binomial(
            values[k],
            values[k + STRIDE],
            values[k + 2 * STRIDE],
            values[k + 3 * STRIDE],
            values[k + 4 * STRIDE],
        );
    }
}

// Down the columns: 13 rows of 17. The lent arrays are filled where they stand, as document 01 has the tile.
pub fn down(tile: &[f32; 289], out: &mut [f32; 221])
    ensures { out.new ≡ in_rows (Smoothing.down (read tile.now)) 221 }
{
    smooth::<17, 289, 221>(tile, out);
}

// Across the rows: 13 rows, of which the first 13 columns are whole.
pub fn across(rows: &[f32; 221], out: &mut [f32; 217])
    ensures { out.new ≡ in_rows (Smoothing.across (read rows.now)) 217 }
{
    smooth::<1, 221, 217>(rows, out);
}

// The disk's values.
pub fn values(smooth: &[f32; 217]) -> [f32; 81]
    ensures { result ≡ Gradients.values (read smooth.now) }
{
    let mut out = [0.0; 81];
    for (m, place) in EDGE_DISK.iter().enumerate() {
        out[m] = smooth[usize::from(*place)];
    }
    out
}

// The disk's squared gradients.
pub fn gradients(smooth: &[f32; 217], out: &mut [f32; 81])
    ensures { out.new ≡ Gradients.gradients (read smooth.now) }
{
    for (m, place) in EDGE_DISK.iter().enumerate() {
        let i = usize::from(*place);
        let gx = smooth[i + 1] - smooth[i - 1];
        let gy = smooth[i + 17] - smooth[i - 17];
        out[m] = gx * gx + gy * gy;
    }
}
