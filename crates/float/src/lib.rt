// Order, sign and bits of f32 and f64 for every input, as the definitions of the crate `ieee` give them. Document 01 names
// maximum, absolute value and `total_cmp` as our own, and std's `min` leaves open which of two zeros it gives.
#![tactic(auto)]

ghost use Rattle.std.specs.Prelude.{◌≡◌, Float};
ghost use Rattle.std.specs.Float.{binary32};
ghost use Rattle.std.specs.Float.Ieee.{to_bits, is_nan, lt, eq};
ghost use Rattle.ieee.specs.Order.{larger, smaller, magnitude, finite, total_less, negative};

// The floats of both widths, by what an order asks of them.
pub trait Real: Copy {
    // The IEEE 754 float that a value is.
    ghost float: { Self → Float };

    fn is_nan(self) -> bool
        ensures { result ≡ is_nan (float self) };

    fn below(self, other: Self) -> bool
        ensures { result ≡ lt (float self) (float other) };

    fn same(self, other: Self) -> bool
        ensures { result ≡ eq (float self) (float other) };

    // Whether the sign is set, which no NaN's is.
    fn is_negative(self) -> bool
        ensures { result ≡ negative (float self) };
}

impl Real for f32 {
    ghost float = { λ x. x };

    fn is_nan(self) -> bool {
        self.is_nan()
    }

    fn below(self, other: f32) -> bool {
        self < other
    }

    fn same(self, other: f32) -> bool {
        self == other
    }

    fn is_negative(self) -> bool {
        !self.is_nan() && self.is_sign_negative()
    }
}

impl Real for f64 {
    ghost float = { λ x. x };

    fn is_nan(self) -> bool {
        self.is_nan()
    }

    fn below(self, other: f64) -> bool {
        self < other
    }

    fn same(self, other: f64) -> bool {
        self == other
    }

    fn is_negative(self) -> bool {
        !self.is_nan() && self.is_sign_negative()
    }
}

// Rust's `max`: the other one where one is a NaN, and a where the two are equal, -0 and +0 too.
#[tactic(auto, unfolding(ieee::specs::Order::larger))]
pub fn max<F: Real>(a: F, b: F) -> F
    ensures { F.float result ≡ larger (F.float a) (F.float b) }
{
    if a.is_nan() {
        return b;
    }
    if a.below(b) { b } else { a }
}

// Rust's `min`: the other one where one is a NaN, and a where the two are equal, -0 and +0 too.
#[tactic(auto, unfolding(ieee::specs::Order::smaller))]
pub fn min<F: Real>(a: F, b: F) -> F
    ensures { F.float result ≡ smaller (F.float a) (F.float b) }
{
    if a.is_nan() {
        return b;
    }
    if b.below(a) { b } else { a }
}

// Rust's `total_cmp` is Less: as `<`, -0 before +0, and a NaN, which counts as positive, after all others.
#[tactic(auto, unfolding(ieee::specs::Order::total_less))]
pub fn total_less<F: Real>(a: F, b: F) -> bool
    ensures { result ≡ total_less (F.float a) (F.float b) }
{
    if a.is_nan() {
        return false;
    }
    if b.is_nan() {
        return true;
    }
    if a.below(b) {
        return true;
    }
    if a.same(b) {
        return a.is_negative() && !b.is_negative();
    }
    false
}

// f32::is_finite: x is between the infinities.
pub fn is_finite32(x: f32) -> bool
    ensures { result ≡ finite x }
{
    x.is_finite()
}

// f64::abs: x with its sign clear.
#[tactic(auto, unfolding(ieee::specs::Order::magnitude, ieee::specs::Order::negative))]
pub fn abs64(x: f64) -> f64
    ensures { result ≡ magnitude x }
{
    if x.is_nan() {
        return x;
    }
    if x.is_negative() { -x } else { x }
}

// f32::to_bits, and the pattern of the quiet NaN for every NaN.
pub fn bits32(x: f32) -> u32
    ensures { result ≡ to_bits binary32 x }
{
    std::num::f32_to_bits_with_nan(x)
}
