// The windows of a pass counted by band.
#![tactic(auto)]

ghost use Rattle.std.specs.Prelude.{◌≡◌, [], ◌∷◌, ◌+◌, ◌<◌, ◌≤◌, ◌^◌, length};
ghost use Rattle.measure.specs.Columns.{figures_in};
ghost use Rattle.band.specs.Bands.{band_of, kept_band, sample_of};

// The band that `count` takes for windows near the rails.
const RAIL: usize = 4;

// How many windows each intensity band has, by pixel sum: below 1,024, 2,048, 3,072 and above; and how many are near the rails
// and dropped. They are fields and no array: document 01 names the answer's five counts so, and every definition over the count
// of a band would index the array.
#[derive(Clone, Copy)]
pub struct Sample {
    pub b0: usize,
    pub b1: usize,
    pub b2: usize,
    pub b3: usize,
    pub rail: usize,
}

impl Sample {
    // Where each band begins, where they stand one after another, and where the last one ends.
    pub fn starts(self) -> [usize; 5]
        requires { self.b0 + self.b1 + self.b2 + self.b3 < 2 ^ 64 }
        ensures { result ≡ 0 ∷ self.b0 ∷ (self.b0 + self.b1) ∷ (self.b0 + self.b1 + self.b2)
            ∷ (self.b0 + self.b1 + self.b2 + self.b3) ∷ [] }
    {
        let e1 = self.b0 + self.b1;
        let e2 = e1 + self.b2;
        [0, self.b0, e1, e2, e2 + self.b3]
    }
}

// The band of a window by its pixel sum, none near the rails, where clipping removes noise.
#[tactic(auto, unfolding(crate::specs::Bands::band_of))]
pub fn band(sum: i32) -> Option<usize>
    ensures { result ≡ kept_band (band_of sum) }
{
    let n = usize::try_from(sum).ok()?;
    (192..=3_888).contains(&n).then_some(n / 1_024)
}

// The bands of the t windows in ints, counted. t stands beside the slice, which holds their gates and outputs too: what is
// promised is on whole windows.
pub fn count(ints: &[i32], t: usize) -> Sample
    requires { t ≤ length ints.now }
    ensures { result ≡ sample_of (figures_in t ints.now) }
{
    let mut b0 = 0;
    let mut b1 = 0;
    let mut b2 = 0;
    let mut b3 = 0;
    let mut rail = 0;
    // Five sums without a jump, so that several windows are counted by one instruction. A window near the rails is of a fifth band
    // here, since two Options are compared by a jump.
    for sum in &ints[..t] {
        let b = band(*sum).unwrap_or(RAIL);
        b0 += usize::from(b == 0);
        b1 += usize::from(b == 1);
        b2 += usize::from(b == 2);
        b3 += usize::from(b == 3);
        rail += usize::from(b == RAIL);
    }
    Sample {
        b0,
        b1,
        b2,
        b3,
        rail,
    }
}
