// A grey image over lent pixels: imageview.rs, the part that the edge call reads.
#![tactic(auto)]

ghost use Rattle.std.specs.Prelude.{◌≡◌, ◌*◌, length, pos, ◌+ℤ◌, [], ◌∷◌};
ghost use Rattle.imageview.specs.Sample.{clamped, sample};

// The whole number of 0 to most that is nearest to v + o.
pub fn place(v: i32, o: i32, most: usize) -> usize
    ensures { result ≡ clamped (v +ℤ o) most }
{
    let g = i64::from(v) + i64::from(o);
    usize::try_from(g).unwrap_or(0).min(most)
}

// The sample at (x, y), on the slice and numbers: document 01 wants thin functions of a view over those on the slice. The length
// is asked here and not of every view, which would ask more of `with_origin`.
pub fn sample_at(
    pixels: &[u8],
    width: usize,
    height: usize,
    origin: [i32; 2],
    x: i32,
    y: i32,
) -> f32
    requires { length pixels.now ≡ width * height }
    ensures { result ≡ sample pixels.now width height origin x y }
{
    if width == 0 || height == 0 {
        return 0.0;
    }
    let lx = place(x, origin[0], width - 1);
    let ly = place(y, origin[1], height - 1);
    let at = ly * width + lx;
    f32::from(pixels[at])
}

// Lent pixels, row by row, with the sides and the origin that a place is moved by.
#[derive(Clone, Copy)]
pub struct ImageView<'a> {
    pub pixels: &'a [u8],
    pub width: usize,
    pub height: usize,
    pub origin: [i32; 2],
}

impl<'a> ImageView<'a> {
    // A view with the origin at (0, 0).
    pub fn from_u8_slice(width: usize, height: usize, pixels: &'a [u8]) -> Self
        ensures { (result.pixels ≡ pixels.entry) × (result.width ≡ width) × (result.height ≡ height)
            × (result.origin ≡ pos 0 ∷ pos 0 ∷ []) }
    {
        Self::with_origin(width, height, pixels, [0, 0])
    }

    // The same with an origin.
    pub fn with_origin(width: usize, height: usize, pixels: &'a [u8], origin: [i32; 2]) -> Self
        ensures { (result.pixels ≡ pixels.entry) × (result.width ≡ width) × (result.height ≡ height) × (result.origin ≡ origin) }
    {
        Self {
            pixels,
            width,
            height,
            origin,
        }
    }

    // The sample at (x, y).
    pub fn sample(self, x: i32, y: i32) -> f32
        requires { length self.pixels.now ≡ self.width * self.height }
        ensures { result ≡
            sample self.entry.pixels.now self.entry.width self.entry.height self.entry.origin x y }
    {
        sample_at(self.pixels, self.width, self.height, self.origin, x, y)
    }
}
