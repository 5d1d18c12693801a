// The sentences of the numbers that the desk reads.
#![tactic(auto)]

ghost use Rattle.std.specs.Prelude.{◌≡◌, ◌+◌, ◌≤◌, ◌++◌, length};
ghost use Rattle.reasons.specs.Reasons.{reason_bytes, sentence_of, reason_of, numbered_bytes, numbered_of, no_figure, remark_by};

use arrayvec::ArrayString;
use numbers::Number;

// Why there is no figure, in a sentence for a person.
pub fn sentence(why: Number) -> &'static str
    ensures { result.now ≡ sentence_of why }
{
    match why {
        Number::SideAbove => "a side is above 16,384",
        Number::OtherLength => "the pixel slice is not width x height long",
        Number::SideBelow => "a side is below 4: a window needs 4 by 4 pixels",
        Number::ShortSlice => "a work slice, the answer slice or the slice of fields is too short",
        Number::Few =>
            "under 512 windows are kept: the lid is small, or too much of it is near black or white",
        Number::NoBand => "no band of brightness has a variance: there is no quiet area",
        Number::Thin =>
            "the bands that join hold under 512 windows: there is too little quiet area",
        Number::Far => "a part of the centre or of the origin is beyond 1,000,000 either way",
        Number::Flat => "the patch is flat once it is smoothed: there is no edge to measure",
        Number::Support => "the side of the support is above 32",
        Number::Outside => "the pixel is outside the support",
        Number::FloatRange => "a float is outside its range",
        Number::NotFinite => "a covariance or a model has a component that is not finite",
        Number::Knots =>
            "there is no knot, there are over 16, or their widths do not rise strictly",
        Number::NotALid => "the input is not 4 + width x height bytes long",
        Number::ManyPixels => "there are over 4,096 pixels",
        Number::OtherMark => "the bytes do not begin with a record's mark",
        Number::ShortRecord => "the slice is shorter than a record",
        Number::BrokenRule => "a field of the record breaks the rule",
        Number::PgmHeader =>
            "the header is not that of a binary PGM file as the camera tool writes it",
        Number::PgmMaximum => "the PGM file's maximum is not 255",
        Number::PgmRaster => "the raster is not width x height bytes long",
    }
}

// What a number says: its reason's sentence, of 0 that there is a figure, of any other that it is none.
// The number is as the answer has it, which C reads.
#[tactic(auto, using(crate::proofs::Found::found, crate::proofs::Found::missing))]
pub fn told(number: u32) -> &'static str
    ensures value { result.now ≡ reason_of number }
    ensures short { length result.now ≤ reason_bytes }
{
    match Number::try_from(number) {
        Ok(why) => sentence(why),
        Err(_) if number == 0 => "there is a figure",
        Err(_) => "no such number",
    }
}

// Appends `number N: SENTENCE` and a line's end. N too is as the answer has it.
#[tactic(auto, unfolding(crate::specs::Reasons::numbered_of))]
pub fn push_numbered<const N: usize>(text: &mut ArrayString<N>, number: u32)
    requires { length text.old.bytes + numbered_bytes ≤ N }
    ensures bytes { text.new.bytes ≡ text.old.bytes ++ numbered_of number }
    ensures short { length text.new.bytes ≤ length text.old.bytes + numbered_bytes }
{
    text.push_str("number ");
    text::push_decimal(text, u64::from(number));
    text.push_str(": ");
    text.push_str(told(number));
    text.push_str("\n");
}

// What a program says of a number on standard error: nothing beside a figure, else `before`, then its name and why there is none.
// The number is as the answer has it, where 0 is a figure.
#[tactic(auto, unfolding(crate::specs::Reasons::remark_by))]
pub fn remark<const N: usize>(before: &str, program: &str, number: u32) -> ArrayString<N>
    requires { length before.now + length program.now + length no_figure + numbered_bytes ≤ N }
    ensures { result.bytes ≡ remark_by before.now program.now number }
{
    let mut text = ArrayString::new();
    if number != 0 {
        text.push_str(before);
        text.push_str(program);
        text.push_str(": no figure, ");
        push_numbered(&mut text, number);
    }
    text
}
