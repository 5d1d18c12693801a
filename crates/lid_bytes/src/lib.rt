// What `lidnoise` reads and writes, as bytes: an input parsed, an answer printed.
#![tactic(auto)]

ghost use Rattle.std.specs.Prelude.{◌≡◌, ◌≤◌, ◌<◌, length, [], ◌∷◌};
ghost use Rattle.little_endian.specs.Bytes.{value_of};
ghost use Rattle.lid_bytes.specs.Input.{parsed_of};
ghost use Rattle.lid_bytes.specs.Report.{fields_of, report_of};
ghost use Rattle.lid_bytes.specs.Remark.{begins_p5, pgm_line, pgm_of, remark_of};

use answer::Answer;
use arrayvec::ArrayString;
use numbers::Number;
use pgm::Image;
use text::Field;

// More pixels than this are 16.
pub const MOST_PIXELS: usize = 4096;

// As many bytes as decide the answer: one more than the largest lid has.
pub const INPUT_BYTES: usize = 4 + MOST_PIXELS + 1;

// As many as a report may take.
pub const REPORT_BYTES: usize = 260;

// As many as a remark may take.
pub const REMARK_BYTES: usize = 235;

// A side by its bytes, the low one first.
#[tactic(auto, unfolding(little_endian::specs::Bytes::value_of))]
fn side(low: u8, high: u8) -> usize
    ensures value { result ≡ value_of (low ∷ high ∷ []) }
    ensures below { result < 65536 }
{
    usize::from(u16::from_le_bytes([low, high]))
}

// The image with the sides in the first four bytes, where as many pixels follow as they say, and not too many.
#[tactic(auto, unfolding(crate::specs::Input::parsed_of), using(crate::proofs::Inputs::w_is, crate::proofs::Inputs::h_is))]
pub fn parse(input: &[u8]) -> Result<Image, Number>
    ensures { result ≡ parsed_of input.now }
{
    let &[a, b, c, d, ..] = input else {
        return Err(Number::NotALid);
    };
    let width = side(a, b);
    let height = side(c, d);
    if width * height > MOST_PIXELS {
        return Err(Number::ManyPixels);
    }
    if input.len() != 4 + width * height {
        return Err(Number::NotALid);
    }
    Ok(Image {
        width,
        height,
        start: 4,
    })
}

// The ten fields of an answer: sigma by its bits in hexadecimal, the others decimal.
fn fields(a: Answer) -> [Field; 10]
    ensures { result ≡ fields_of a }
{
    let [number, sigma, milli, b0, b1, b2, b3, rail, rounds, passes] = answer::words(a);
    [
        Field::Decimal(u64::from(number)),
        Field::Hex(u64::from(sigma)),
        Field::Decimal(u64::from(milli)),
        Field::Decimal(u64::from(b0)),
        Field::Decimal(u64::from(b1)),
        Field::Decimal(u64::from(b2)),
        Field::Decimal(u64::from(b3)),
        Field::Decimal(u64::from(rail)),
        Field::Decimal(u64::from(rounds)),
        Field::Decimal(u64::from(passes)),
    ]
}

// The header and the line of an answer.
#[tactic(auto, unfolding(crate::specs::Report::report_of))]
pub fn report(a: Answer) -> ArrayString<REPORT_BYTES>
    ensures { result.bytes ≡ report_of a }
{
    text::report(
        "answer sigma milli b0 b1 b2 b3 rail rounds passes\n",
        &fields(a),
    )
}

// Whether an input begins as a binary PGM file does.
#[tactic(auto, unfolding(crate::specs::Remark::begins_p5))]
fn begins_p5(input: &[u8]) -> bool
    ensures { result ≡ begins_p5 input.now }
{
    matches!(input, [b'P', b'5', ..])
}

// The line on such an input, or nothing.
#[tactic(auto, unfolding(crate::specs::Remark::pgm_of))]
fn pgm_line(input: &[u8]) -> &'static str
    ensures value { result.now ≡ pgm_of input.now }
    ensures short { length result.now ≤ length pgm_line }
{
    if begins_p5(input) {
        "lidnoise: the input begins with P5, as a binary PGM file does: pgmnoise reads those\n"
    } else {
        ""
    }
}

// What is said of an input that has this number, which is as the answer has it for C.
pub fn remark(input: &[u8], number: u32) -> ArrayString<REMARK_BYTES>
    ensures { result.bytes ≡ remark_of input.now number }
{
    reasons::remark(pgm_line(input), "lidnoise", number)
}
