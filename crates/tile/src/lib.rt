// The tile of pixels about a corner and the width of the edges on it: uncertainty.rs, `PixelTile`.
#![tactic(auto)]

ghost use Rattle.std.specs.Prelude.{◌≡◌, ℕ, ◌+◌, ◌≤◌, ◌<◌, length, pos, nat_abs, ◌+ℤ◌, ◌-ℤ◌};
ghost use Rattle.std.specs.Result.{result_map_both};
ghost use Rattle.ieee.specs.Numbers.{f32_of};
ghost use Rattle.laws.specs.Lists.{from, laid};
ghost use Rattle.imageview.specs.Sample.{clamped};
ghost use Rattle.disk.specs.Rows.{read};
ghost use Rattle.disk.specs.Smoothing.{smoothed};
ghost use Rattle.tile.specs.Refusal.{refusal};
ghost use Rattle.tile.specs.Tile.{ByteSamples, loaded};
ghost use Rattle.tile.specs.Width.{edge_of};

use imageview::ImageView;
use numbers::Number;

// The root of twice pi.
const ROOT_TWO_PI: f32 = 2.5066283;

// A width, or why there is none. Document 01 names an enum of these two.
#[derive(Clone, Copy)]
pub enum EdgeWidth {
    Width(f32),
    Refused(Number),
}

// 17 rows of 17 samples, each a byte. Document 01 names the tile of 289.
#[derive(Drop)]
pub struct PixelTile {
    pub samples: [f32; 289],
    pub ghost bytes: { ByteSamples samples },
}

// Why there is no tile of that many pixels about the centre, where there is none.
#[tactic(auto, using(crate::proofs::Refusals::image_refused), unfolding(crate::specs::Refusal::refusal))]
fn judge(
    pixels: usize,
    width: usize,
    height: usize,
    origin: [i32; 2],
    centre: [i32; 2],
) -> Result<(), Number>
    ensures { result ≡ refusal pixels width height origin centre }
{
    limits::judge(pixels, width, height)?;
    if limits::far_place(centre) || limits::far_place(origin) {
        return Err(Number::Far);
    }
    Ok(())
}

// Place i of a row or a column about c.
fn near(c: i32, i: usize) -> i32
    requires { (nat_abs c ≤ 1000000) × (i < 17) }
    ensures { result ≡ c +ℤ (pos i -ℤ pos 8) }
{
    c + (i as i32 - 8)
}

// The 17 places of a row or a column about c, moved by o, each the nearest of 0 to most.
fn nearby(c: i32, o: i32, most: usize) -> [usize; 17]
    requires { nat_abs c ≤ 1000000 }
    ensures { result ≡ from (λ i. clamped ((c +ℤ (pos i -ℤ pos 8)) +ℤ o) most) 0 17 }
{
    let mut out = [0; 17];
    for i in 0..17 {
        out[i] = imageview::place(near(c, i), o, most);
    }
    out
}

// 17 pixels as the samples from place `to` on.
fn lay<F: Fn(usize) -> u8>(samples: &mut [f32; 289], to: usize, pixel: F)
    requires room { to + 17 ≤ 289 }
    requires callable { (i : ℕ) → i < 17 → F.pre pixel i }
    ensures bytes { ByteSamples samples.old → ByteSamples samples.new }
    ensures row { (f : ℕ → ℕ) → ((i r : ℕ) → i < 17 → F.post pixel i r → r ≡ f i)
        → samples.new ≡ laid samples.old to (from (λ i. f32_of (f i)) 0 17) }
{
    for k in 0..17 {
        samples[to + k] = f32::from(pixel(k));
    }
}

impl PixelTile {
    // The samples of a view about the centre.
    pub fn load(img: ImageView, centre: [i32; 2]) -> Result<PixelTile, Number>
        ensures { result_map_both (λ (t : PixelTile). t.samples) (λ why. why) result ≡
            loaded img.entry.pixels.now img.entry.width img.entry.height img.entry.origin centre }
    {
        Self::load_at(img.pixels, img.width, img.height, img.origin, centre)
    }

    // The same on the slice and numbers: document 01 wants thin functions of a view over those on the slice.
    #[tactic(auto, unfolding(crate::specs::Tile::loaded))]
    fn load_at(
        pixels: &[u8],
        width: usize,
        height: usize,
        origin: [i32; 2],
        centre: [i32; 2],
    ) -> Result<PixelTile, Number>
        ensures { result_map_both (λ (t : PixelTile). t.samples) (λ why. why) result ≡
            loaded pixels.now width height origin centre }
    {
        judge(pixels.len(), width, height, origin, centre)?;
        let mut samples = [0.0; 289];
        if pixels.is_empty() {
            return Ok(PixelTile { samples });
        }
        let columns = nearby(centre[0], origin[0], width - 1);
        let rows = nearby(centre[1], origin[1], height - 1);
        let first = columns[0];
        let last = columns[16];
        for j in 0..17 {
            let start = rows[j] * width;
            if last == first + 16 {
                let at = start + first;
                lay(&mut samples, j * 17, |k| pixels[at + k]);
            } else {
                lay(&mut samples, j * 17, |k| pixels[start + columns[k]]);
            }
        }
        Ok(PixelTile { samples })
    }

    // The width of the edges on the tile's disk.
    pub fn edge_width(self) -> EdgeWidth
        ensures { result ≡ edge_of (smoothed (read self.samples)) }
    {
        let mut rows = [0.0; 221];
        disk::down(&self.samples, &mut rows);
        let mut smooth = [0.0; 217];
        disk::across(&rows, &mut smooth);
        let mut gradients = [0.0; 81];
        disk::gradients(&smooth, &mut gradients);
        let g = steepness::steepness(&gradients);
        if g > 0.0 {
            let values = disk::values(&smooth);
            EdgeWidth::Width(levels::contrast(&values) / (ROOT_TWO_PI * g))
        } else {
            EdgeWidth::Refused(Number::Flat)
        }
    }
}
