// The float helpers, and thousandths.
ghost use Rattle.std.specs.Prelude.{◌≡◌};
ghost use Rattle.std.specs.Float.{binary32, binary64};
ghost use Rattle.ieee.specs.Order.{larger, smaller, magnitude, finite, total_less};
ghost use Rattle.ieee.specs.Floor.{floor};
ghost use Rattle.ieee.specs.Convert.{convert};
ghost use Rattle.ieee.specs.Sqrt.{sqrt};
ghost use Rattle.milli.specs.Thousandths.{milli_of};

pub fn vuzgari_compare_sqrt32(x: f32) -> f32
    ensures { result ≡ sqrt binary32 x }
{
    roots::sqrt32(x)
}

pub fn vuzgari_compare_sqrt64(x: f64) -> f64
    ensures { result ≡ sqrt binary64 x }
{
    roots::sqrt64(x)
}

pub fn vuzgari_compare_to_f32(x: f64) -> f32
    ensures { result ≡ convert binary32 x }
{
    convert::to_f32(x)
}

pub fn vuzgari_compare_floor32(x: f32) -> f32
    ensures { result ≡ floor binary32 x }
{
    convert::floor32(x)
}

pub fn vuzgari_compare_abs64(x: f64) -> f64
    ensures { result ≡ magnitude x }
{
    float::abs64(x)
}

pub fn vuzgari_compare_max32(a: f32, b: f32) -> f32
    ensures { result ≡ larger a b }
{
    float::max(a, b)
}

pub fn vuzgari_compare_max64(a: f64, b: f64) -> f64
    ensures { result ≡ larger a b }
{
    float::max(a, b)
}

pub fn vuzgari_compare_min32(a: f32, b: f32) -> f32
    ensures { result ≡ smaller a b }
{
    float::min(a, b)
}

pub fn vuzgari_compare_is_finite32(x: f32) -> bool
    ensures { result ≡ finite x }
{
    float::is_finite32(x)
}

pub fn vuzgari_compare_total_less32(a: f32, b: f32) -> bool
    ensures { result ≡ total_less a b }
{
    float::total_less(a, b)
}

pub fn vuzgari_compare_total_less64(a: f64, b: f64) -> bool
    ensures { result ≡ total_less a b }
{
    float::total_less(a, b)
}

pub fn vuzgari_compare_milli(x: f32) -> u32
    ensures { result ≡ milli_of x }
{
    milli::milli(x)
}
