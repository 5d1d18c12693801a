// `lidnoise`, from its input's bytes to its output's: parse, measure, print.
#![tactic(auto)]

ghost use Rattle.std.specs.Prelude.{◌≡◌, false, ◌*◌, ◌≤◌, length, IfOk};
ghost use Rattle.noise.specs.Call.{noise_of};
ghost use Rattle.lid_bytes.specs.Input.{most_pixels};
ghost use Rattle.lid_bytes.specs.Report.{report_of};
ghost use Rattle.lid.specs.Answer.{answer_found, lid_answer, output_of, said_of};

use answer::Answer;
use arrayvec::ArrayString;
use lid_bytes::{MOST_PIXELS, REMARK_BYTES, REPORT_BYTES};
use numbers::Number;
use pgm::Image;

// The noise of an image of few pixels, with work memory of its own: 3M and 2M + 2 elements, M being at most the pixels.
pub fn measure(pixels: &[u8], w: usize, h: usize) -> Answer
    requires { w * h ≤ most_pixels }
    ensures { result ≡ noise_of pixels.now w h false }
{
    let mut ints = [0i32; 3 * MOST_PIXELS];
    let mut floats = [0.0f32; 2 * MOST_PIXELS + 2];
    noise::estimate_noise_sigma_u8(pixels, w, h, &mut ints, &mut floats)
}

// The answer to an input by the image that was found in it, or by why there is none.
pub fn answer_found(input: &[u8], found: Result<Image, Number>) -> Answer
    requires { IfOk found (λ i. (i.start ≤ length input.now) × (i.width * i.height ≤ most_pixels)) }
    ensures { result ≡ answer_found input.now found }
{
    match found {
        Ok(image) => measure(&input[image.start..], image.width, image.height),
        Err(why) => noise::refuse(u32::from(why)),
    }
}

// The answer to an input.
#[tactic(auto, unfolding(crate::specs::Answer::lid_answer), using(lid_bytes::proofs::Inputs::image_has))]
pub fn answer_to(input: &[u8]) -> Answer
    ensures { result ≡ lid_answer input.now }
{
    answer_found(input, lid_bytes::parse(input))
}

// What a program writes: on standard output, and on standard error. The remark's text is a T: the bound of `of` gets no proof
// where it names the text's room, a const parameter.
#[derive(Drop)]
pub struct Said<T> {
    pub output: ArrayString<REPORT_BYTES>,
    pub remark: T,
}

impl<T> Said<T> {
    // Of an answer: its report, and what `remark` says of its number.
    pub fn of<F: FnOnce(u32) -> T>(a: Answer, remark: F) -> Said<T>
        requires { F.IsAlwaysCallable remark }
        ensures output { result.output.bytes ≡ report_of a }
        ensures remark { F.post remark a.number result.remark }
    {
        let remark = remark(a.number);
        Said {
            output: lid_bytes::report(a),
            remark,
        }
    }
}

// What `lidnoise` writes for an input.
pub fn lidnoise(input: &[u8]) -> Said<ArrayString<REMARK_BYTES>>
    ensures output { result.output.bytes ≡ output_of input.now }
    ensures remark { result.remark.bytes ≡ said_of input.now }
{
    Said::of(answer_to(input), |number| lid_bytes::remark(input, number))
}
