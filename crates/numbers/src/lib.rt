// Why there is no figure: the numbers of documents 01 and 02 but 0. The names are the C header's, but that 6 is VUZGARI_NONE
// there and NoBand here, where None is Option's.
#![tactic(auto)]

ghost use Rattle.std.specs.Prelude.{◌≡◌};
ghost use Rattle.numbers.specs.Numbers.{number_of, number_in, HasNumber};

#[derive(Clone, Copy, Debug, PartialEq, Eq, Hash)]
pub enum Number {
    SideAbove = 1,
    OtherLength = 2,
    SideBelow = 3,
    ShortSlice = 4,
    Few = 5,
    NoBand = 6,
    Thin = 7,
    Far = 8,
    Flat = 9,
    Support = 10,
    Outside = 11,
    FloatRange = 12,
    NotFinite = 13,
    Knots = 14,
    NotALid = 15,
    ManyPixels = 16,
    OtherMark = 17,
    ShortRecord = 18,
    BrokenRule = 19,
    PgmHeader = 20,
    PgmMaximum = 21,
    PgmRaster = 22,
}

impl From<Number> for u32 {
    ghost from_gives = { λ why n. n ≡ number_of why };

    fn from(why: Number) -> u32 {
        why as u32
    }
}

// A number that no reason has.
#[derive(Clone, Copy, Debug, PartialEq, Eq)]
pub struct UnknownNumber(pub u32);

impl TryFrom<u32> for Number {
    type Error = UnknownNumber;

    ghost try_from_gives = { HasNumber };

    fn try_from(number: u32) -> Result<Number, UnknownNumber> {
        match number {
            1 => Ok(Number::SideAbove),
            2 => Ok(Number::OtherLength),
            3 => Ok(Number::SideBelow),
            4 => Ok(Number::ShortSlice),
            5 => Ok(Number::Few),
            6 => Ok(Number::NoBand),
            7 => Ok(Number::Thin),
            8 => Ok(Number::Far),
            9 => Ok(Number::Flat),
            10 => Ok(Number::Support),
            11 => Ok(Number::Outside),
            12 => Ok(Number::FloatRange),
            13 => Ok(Number::NotFinite),
            14 => Ok(Number::Knots),
            15 => Ok(Number::NotALid),
            16 => Ok(Number::ManyPixels),
            17 => Ok(Number::OtherMark),
            18 => Ok(Number::ShortRecord),
            19 => Ok(Number::BrokenRule),
            20 => Ok(Number::PgmHeader),
            21 => Ok(Number::PgmMaximum),
            22 => Ok(Number::PgmRaster),
            _ => Err(UnknownNumber(number)),
        }
    }
}

// The number of an answer as C reads it, 0 where it is a figure.
pub fn number_in<T: Drop>(answer: Result<T, Number>) -> u32
    ensures { result ≡ number_in answer }
{
    match answer {
        Ok(_) => 0,
        Err(why) => u32::from(why),
    }
}
