// `pgmnoise`, from its input's bytes to its output's: parse, measure, print.
#![tactic(auto)]

ghost use Rattle.std.specs.Prelude.{◌≡◌};
ghost use Rattle.grey.specs.Grey.{grey_parsed, grey_answer, grey_output, grey_said};
ghost use Rattle.grey.specs.Remark.{grey_remark};

use answer::Answer;
use arrayvec::ArrayString;
use lid::Said;
use lid_bytes::MOST_PIXELS;
use numbers::Number;
use pgm::Image;

// As many bytes as decide the answer: one more than the longest header and the largest raster have.
pub const INPUT_BYTES: usize = 21 + MOST_PIXELS + 1;

// As many as a remark may take.
pub const REMARK_BYTES: usize = 151;

// The image, where it has not too many pixels, or the first of 20, 21, 16, 22 that applies. `pgm::read_front` has these tests
// too, without 16, which stands between them.
#[tactic(auto, unfolding(crate::specs::Grey::grey_parsed), using(pgm::proofs::Heads::few_pixels))]
pub fn parse(input: &[u8]) -> Result<Image, Number>
    ensures { result ≡ grey_parsed input.now }
{
    let head = pgm::header(input).ok_or(Number::PgmHeader)?;
    if head.maximum != 255 {
        return Err(Number::PgmMaximum);
    }
    if head.width * head.height > MOST_PIXELS {
        return Err(Number::ManyPixels);
    }
    if input.len() != head.start + head.width * head.height {
        return Err(Number::PgmRaster);
    }
    Ok(Image {
        width: head.width,
        height: head.height,
        start: head.start,
    })
}

// The answer to an input.
#[tactic(auto, unfolding(crate::specs::Grey::grey_answer), using(crate::proofs::Parsing::image_has))]
pub fn answer_to(input: &[u8]) -> Answer
    ensures { result ≡ grey_answer input.now }
{
    lid::answer_found(input, parse(input))
}

// What is said of a number, which is as the answer has it for C.
#[tactic(auto, unfolding(crate::specs::Remark::grey_remark, reasons::specs::Reasons::remark_by))]
fn remark(number: u32) -> ArrayString<REMARK_BYTES>
    ensures { result.bytes ≡ grey_remark number }
{
    reasons::remark("", "pgmnoise", number)
}

// What `pgmnoise` writes for an input.
pub fn pgmnoise(input: &[u8]) -> Said<ArrayString<REMARK_BYTES>>
    ensures output { result.output.bytes ≡ grey_output input.now }
    ensures remark { result.remark.bytes ≡ grey_said input.now }
{
    Said::of(answer_to(input), remark)
}
