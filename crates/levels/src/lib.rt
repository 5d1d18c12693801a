// The levels of the disk's 81 values: uncertainty.rs, part of `PixelTile::edge_width`.
#![tactic(auto)]

ghost use Rattle.std.specs.Prelude.{◌≡◌, ◌^◌, ◌≤◌, max, Bool};
ghost use Rattle.std.specs.Float.{binary32};
ghost use Rattle.std.specs.Float.Ieee.{Float, sub, div};
ghost use Rattle.ieee.specs.Numbers.{f32_of};
ghost use Rattle.levels.specs.Whole.{Upto, AllUpto};
ghost use Rattle.levels.specs.Filtered.{filtered};
ghost use Rattle.levels.specs.Levels as Levels;

// v, which is a whole number.
fn number(v: f32) -> u32
    requires { Upto 65280 v }
    ensures { (v ≡ f32_of result) × (result ≤ 65280) }
{
    v as u32
}

// The highest and the lowest value, in one loop without a jump on them. It goes by place: over `&values[1..]`, tried, its turn
// (`loop-v-preserved`) stays open.
fn extremes(values: &[f32; 81]) -> (f32, f32)
    requires { AllUpto 65280 values.now }
    ensures { (result.0 ≡ Levels.highest values.now) × (result.1 ≡ Levels.lowest values.now) }
{
    let first = number(values[0]);
    let mut most = first;
    let mut least = first;
    for m in 1..81 {
        let n = number(values[m]);
        most = most.max(n);
        least = least.min(n);
    }
    (most as f32, least as f32)
}

// sum over n, or over 1 where n is 0.
fn mean(sum: u32, n: u32) -> f32
    requires { (sum ≤ 2 ^ 24) × (n ≤ 81) }
    ensures { result ≡ div binary32 (f32_of sum) (f32_of (max n 1)) }
{
    sum as f32 / n.max(1) as f32
}

// The mean of the values that count. They are added as whole numbers, as f32 would add them.
fn mean_of<F: Fn(f32) -> bool>(values: &[f32; 81], counts: F) -> f32
    requires whole { AllUpto 65280 values.now }
    requires callable { F.IsAlwaysCallable counts }
    ensures { (p : Float → Bool) → ((v : Float) (r : Bool) → F.post counts v r → r ≡ p v)
        → result ≡ Levels.mean_of (filtered p values.now) }
{
    let mut sum = 0;
    let mut n = 0;
    for v in values {
        if counts(*v) {
            sum += number(*v);
            n += 1;
        }
    }
    mean(sum, n)
}

// The contrast of the disk: its high level less its low level. That the values are whole is asked here and of two helpers: a
// struct for it would be made for this one call.
pub fn contrast(values: &[f32; 81]) -> f32
    requires { AllUpto 65280 values.now }
    ensures { result ≡ sub binary32 (Levels.high_level values.now) (Levels.low_level values.now) }
{
    let (most, least) = extremes(values);
    let band = 0.2 * (most - least);
    let upper = most - band;
    let lower = least + band;
    mean_of(values, |v| v >= upper) - mean_of(values, |v| v <= lower)
}
