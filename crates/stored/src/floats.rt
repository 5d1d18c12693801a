// The float helpers on patterns, and floats and whole numbers as columns hold them.
ghost use Rattle.std.specs.Prelude.{◌≡◌, ◌+◌, ℕ};
ghost use Rattle.std.specs.Float.{binary32, binary64};
ghost use Rattle.std.specs.Float.Ieee.{to_bits};
ghost use Rattle.stored.specs.Floats.{single, double, signed, flag, place, helper_answer, float_answer, HasLetter};

use crate::UnknownLetter;
use std::fmt;
use std::num::{f32_from_bits_with_nan, f64_from_bits_with_nan, f64_to_bits_with_nan};

// What a column's number stands for.
pub trait Column: Sized {
    ghost value: { ℕ → Self };

    fn of(a: u64) -> Self
        ensures { result ≡ value a };
}

// The f32 with the pattern in the lower half, or NaN.
impl Column for f32 {
    ghost value = { single };

    fn of(a: u64) -> f32 {
        let b = (a % 0x1_0000_0000) as u32;
        f32_from_bits_with_nan(b)
    }
}

// The f64 with the pattern, or NaN.
impl Column for f64 {
    ghost value = { double };

    fn of(a: u64) -> f64 {
        f64_from_bits_with_nan(a)
    }
}

// The whole number with bit 31 as its sign and the 31 bits below it as its size.
impl Column for i32 {
    ghost value = { signed };

    fn of(a: u64) -> i32 {
        let b = a % 0x1_0000_0000;
        let size = (b % 0x8000_0000) as i32;
        if b < 0x8000_0000 { size } else { 0 - size }
    }
}

// The number that stands for a value in a column.
pub trait Pattern: Sized {
    ghost pattern: { Self → ℕ };

    fn pattern(self) -> u64
        ensures { result ≡ pattern self };
}

// All NaNs are written as the quiet one.
impl Pattern for f32 {
    ghost pattern = { to_bits binary32 };

    fn pattern(self) -> u64 {
        u64::from(float::bits32(self))
    }
}

// As for f32.
impl Pattern for f64 {
    ghost pattern = { to_bits binary64 };

    fn pattern(self) -> u64 {
        f64_to_bits_with_nan(self)
    }
}

impl Pattern for bool {
    ghost pattern = { flag };

    fn pattern(self) -> u64 {
        u64::from(self)
    }
}

// A float helper, in the order of the letters.
#[derive(Clone, Copy, Debug, PartialEq, Eq)]
pub enum Helper {
    Sqrt32,
    Sqrt64,
    ToF32,
    Floor32,
    Abs64,
    IsFinite32,
    Max32,
    Max64,
    Min32,
    TotalLess32,
    TotalLess64,
}

impl Helper {
    pub const ALL: [Helper; 11] = [
        Helper::Sqrt32,
        Helper::Sqrt64,
        Helper::ToF32,
        Helper::Floor32,
        Helper::Abs64,
        Helper::IsFinite32,
        Helper::Max32,
        Helper::Max64,
        Helper::Min32,
        Helper::TotalLess32,
        Helper::TotalLess64,
    ];

    // Its small letter.
    pub fn letter(self) -> u8
        ensures { result ≡ 96 + place self }
    {
        b'a' + self as u8
    }

    // Its name.
    pub(crate) fn name(self) -> &'static str {
        match self {
            Helper::Sqrt32 => "sqrt32",
            Helper::Sqrt64 => "sqrt64",
            Helper::ToF32 => "to_f32",
            Helper::Floor32 => "floor32",
            Helper::Abs64 => "abs64",
            Helper::IsFinite32 => "is_finite32",
            Helper::Max32 => "max32",
            Helper::Max64 => "max64",
            Helper::Min32 => "min32",
            Helper::TotalLess32 => "total_less32",
            Helper::TotalLess64 => "total_less64",
        }
    }

    // What the helper answers, as a pattern.
    #[tactic(auto, unfolding(crate::specs::Floats::helper_answer))]
    pub fn answer(self, a: u64, b: u64) -> u64
        ensures { result ≡ helper_answer self a b }
    {
        match self {
            Helper::Sqrt32 => roots::sqrt32(f32::of(a)).pattern(),
            Helper::Sqrt64 => roots::sqrt64(f64::of(a)).pattern(),
            Helper::ToF32 => convert::to_f32(f64::of(a)).pattern(),
            Helper::Floor32 => convert::floor32(f32::of(a)).pattern(),
            Helper::Abs64 => float::abs64(f64::of(a)).pattern(),
            Helper::IsFinite32 => float::is_finite32(f32::of(a)).pattern(),
            Helper::Max32 => float::max(f32::of(a), f32::of(b)).pattern(),
            Helper::Max64 => float::max(f64::of(a), f64::of(b)).pattern(),
            Helper::Min32 => float::min(f32::of(a), f32::of(b)).pattern(),
            Helper::TotalLess32 => float::total_less(f32::of(a), f32::of(b)).pattern(),
            Helper::TotalLess64 => float::total_less(f64::of(a), f64::of(b)).pattern(),
        }
    }
}

// By the letter's place in the alphabet, which small and capital letters share.
impl TryFrom<u8> for Helper {
    type Error = UnknownLetter;

    ghost try_from_gives = { HasLetter };

    fn try_from(letter: u8) -> Result<Helper, UnknownLetter> {
        match letter % 32 {
            1 => Ok(Helper::Sqrt32),
            2 => Ok(Helper::Sqrt64),
            3 => Ok(Helper::ToF32),
            4 => Ok(Helper::Floor32),
            5 => Ok(Helper::Abs64),
            6 => Ok(Helper::IsFinite32),
            7 => Ok(Helper::Max32),
            8 => Ok(Helper::Max64),
            9 => Ok(Helper::Min32),
            10 => Ok(Helper::TotalLess32),
            11 => Ok(Helper::TotalLess64),
            _ => Err(UnknownLetter(letter)),
        }
    }
}

impl fmt::Display for Helper {
    fn fmt<W: fmt::Write>(&self, f: &mut fmt::Formatter<W>) -> fmt::Result {
        f.write_str(self.name())
    }
}

// What the helper with this letter, which is the lists' own, answers, as a pattern; 0 where there is none, and no Option, since
// `agrees` compares it with a stored number.
#[tactic(auto, unfolding(crate::specs::Floats::helper_answer, crate::specs::Floats::float_answer))]
pub fn answer(letter: u8, a: u64, b: u64) -> u64
    ensures { result ≡ float_answer letter a b }
{
    match Helper::try_from(letter) {
        Ok(helper) => helper.answer(a, b),
        Err(_) => 0,
    }
}
