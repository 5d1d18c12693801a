// What a call judges before it looks at a pixel: the sides of an image, how many pixels it has, and places. Sides and length stay
// apart, as C lends them: whether they fit each other is what `judge` finds.
#![tactic(auto)]

ghost use Rattle.std.specs.Prelude.{◌≡◌};
ghost use Rattle.numbers.specs.Numbers.{number_in};
ghost use Rattle.limits.specs.Limits.{too_large, too_small, image_number, far_place, far as is_far};

use numbers::Number;

// Whether a side is above 16,384.
pub fn too_large(w: usize, h: usize) -> bool
    ensures { result ≡ too_large w h }
{
    w > 16_384 || h > 16_384
}

// Whether a side is below 4.
pub fn too_small(w: usize, h: usize) -> bool
    ensures { result ≡ too_small w h }
{
    w < 4 || h < 4
}

// Why document 01 refuses an image of w by h with so many pixels, where it does.
pub fn judge(pixels: usize, w: usize, h: usize) -> Result<(), Number>
    ensures { number_in result ≡ image_number pixels w h }
{
    if too_large(w, h) {
        return Err(Number::SideAbove);
    }
    if pixels != w * h {
        return Err(Number::OtherLength);
    }
    Ok(())
}

// Whether v is beyond ±1,000,000.
pub fn far(v: i32) -> bool
    ensures { result ≡ is_far v }
{
    v < -1_000_000 || v > 1_000_000
}

// Whether a part of a place is beyond ±1,000,000.
pub fn far_place(place: [i32; 2]) -> bool
    ensures { result ≡ far_place place }
{
    far(place[0]) || far(place[1])
}
