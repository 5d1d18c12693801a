// The position covariance of refine/mod.rs, by value.
#![tactic(auto)]

ghost use Rattle.std.specs.Prelude.{◌≡◌};
ghost use Rattle.refine.specs.Covariance.{covariance, add_covariance, all_finite, judged};

use numbers::Number;
use std::ops::Add;

// Symmetric 2 by 2 covariance of a refined corner position.
#[derive(Clone, Copy, Debug, PartialEq)]
pub struct PositionCovariance {
    // Variance of the x coordinate.
    pub xx: f32,
    // Covariance of the x and y coordinates.
    pub xy: f32,
    // Variance of the y coordinate.
    pub yy: f32,
}

impl PositionCovariance {
    pub fn new(xx: f32, xy: f32, yy: f32) -> Self
        ensures { result ≡ covariance xx xy yy }
    {
        Self { xx, xy, yy }
    }

    // Whether every entry is finite. Entry by entry: a test handed over as a closure would be no shorter.
    pub fn is_finite(self) -> bool
        ensures { result ≡ all_finite self }
    {
        float::is_finite32(self.xx) & float::is_finite32(self.xy) & float::is_finite32(self.yy)
    }

    // Itself where every entry is finite.
    pub fn finite(self) -> Result<Self, Number>
        ensures { result ≡ judged self }
    {
        if self.is_finite() {
            Ok(self)
        } else {
            Err(Number::NotFinite)
        }
    }
}

// The covariance of the sum of two independent errors.
impl Add for PositionCovariance {
    type Output = Self;

    ghost add_gives = { λ c d sum. sum ≡ add_covariance c d };

    fn add(self, other: Self) -> Self {
        Self::new(self.xx + other.xx, self.xy + other.xy, self.yy + other.yy)
    }
}
