// The calls that the capture program makes from C. A lent slice is two arguments there, a pointer and the number of elements.
#![tactic(auto)]

ghost use Rattle.std.specs.Prelude.{◌≡◌, [], ◌∷◌, ◌++◌, ◌≤◌, length, drop};
ghost use Rattle.grid.specs.Needed.{sizing_of};
ghost use Rattle.edge.specs.Edge.{edge};
ghost use Rattle.noise.specs.Call.{left_ints, left_floats};
ghost use Rattle.numbers.specs.Numbers.{number_of, number_in};
ghost use Rattle.vuzgari.specs.Codes.{code_of, size_code, width_code};
ghost use Rattle.vuzgari.specs.Noise.{told, noise_for, left_bytes};
ghost use Rattle.vuzgari.specs.Records.{written_for, read_for};
ghost use Rattle.vuzgari.specs.Grey.{header_in, number_for};
ghost use Rattle.pgm.specs.Read.{front_read};

use numbers::Number;
use pgm::Head;
use tile::EdgeWidth;

// A reason's number, past every figure of 32 bits.
fn code_of(why: Number) -> u64
    ensures { result ≡ code_of (number_of why) }
{
    4_294_967_296 + u64::from(u32::from(why))
}

// M for an image of w by h, or 4,294,967,296 plus the number of a refusal. The noise call needs 3M i32 and 2M + 2 f32.
pub fn vuzgari_noise_windows(w: usize, h: usize) -> u64
    ensures { result ≡ size_code (sizing_of w h) }
{
    match grid::sizing(w, h) {
        Ok(m) => m as u64,
        Err(why) => code_of(why),
    }
}

// The noise call's number, the answer in the first 40 bytes of `out`; or why it is refused.
fn measure(
    pixels: &[u8],
    w: usize,
    h: usize,
    ints: &mut [i32],
    floats: &mut [f32],
    out: &mut [u8],
) -> Result<u32, Number>
    ensures { (told result ≡ (noise_for pixels.now w h ints.old floats.old out.old).number)
        × (ints.new ≡ left_ints (told result) w h ints.old)
        × (floats.new ≡ left_floats (told result) w h floats.old)
        × (out.new ≡ left_bytes out.old
        (noise_for pixels.now w h ints.old floats.old out.old)) }
{
    let m = noise::judge(pixels.len(), w, h, ints.len(), floats.len())?;
    if out.len() < 40 {
        return Err(Number::ShortSlice);
    }
    let a = noise::measure(pixels, w, h, ints, floats, m);
    let number = a.number;
    answer::put(out, a);
    Ok(number)
}

// The noise call: its number, and after 0, 5, 6 or 7 the answer in the first 40 bytes of `out`.
pub fn vuzgari_noise(
    pixels: &[u8],
    w: usize,
    h: usize,
    ints: &mut [i32],
    floats: &mut [f32],
    out: &mut [u8],
) -> u32
    ensures { (result ≡ (noise_for pixels.now w h ints.old floats.old out.old).number)
        × (ints.new ≡ left_ints result w h ints.old)
        × (floats.new ≡ left_floats result w h floats.old)
        × (out.new ≡ left_bytes out.old
        (noise_for pixels.now w h ints.old floats.old out.old)) }
{
    match measure(pixels, w, h, ints, floats, out) {
        Ok(number) => number,
        Err(why) => u32::from(why),
    }
}

// A width by its bits, or a number past them.
fn width_code(e: EdgeWidth) -> u64
    ensures { result ≡ width_code e }
{
    match e {
        EdgeWidth::Width(x) => u64::from(float::bits32(x)),
        EdgeWidth::Refused(why) => code_of(why),
    }
}

// The edge call for C, with origin (ox, oy) and centre (cx, cy): the width's bits, or 4,294,967,296 plus the number.
pub fn vuzgari_edge_width(
    pixels: &[u8],
    width: usize,
    height: usize,
    ox: i32,
    oy: i32,
    cx: i32,
    cy: i32,
) -> u64
    ensures { result ≡ width_code (edge pixels.now width height (ox ∷ oy ∷ []) (cx ∷ cy ∷ [])) }
{
    width_code(edge::view_edge_width(pixels, width, height, [ox, oy], [cx, cy]))
}

#[tactic(auto, unfolding(crate::specs::Records::written_for))]
fn write(shot: u32, w: usize, h: usize, answer: &[u8], out: &mut [u8]) -> Result<(), Number>
    ensures { (number_in result ≡ (written_for shot w h answer.now out.old).number)
        × (out.new ≡ (written_for shot w h answer.now out.old).bytes) }
{
    if answer.len() < 40 {
        return Err(Number::ShortSlice);
    }
    let r = logging::record_from(shot, w, h, answer);
    record::write(r, out)
}

// Writes the record of a shot from the image's sides and the answer slice as the noise call left it: 4 where that has under 40
// bytes, then 19, then 18. A refused call changes nothing; bytes past 35 stay.
pub fn vuzgari_record_write(shot: u32, w: usize, h: usize, answer: &[u8], out: &mut [u8]) -> u32
    ensures { (result ≡ (written_for shot w h answer.now out.old).number)
        × (out.new ≡ (written_for shot w h answer.now out.old).bytes) }
{
    numbers::number_in(write(shot, w, h, answer, out))
}

// Numbers from the front on. Those beyond stay.
fn show_fields(fields: &mut [u64], xs: &[u64])
    requires { length xs.now ≤ length fields.old }
    ensures { fields.new ≡ xs.now ++ drop (length xs.now) fields.old }
{
    fields[..xs.len()].copy_from_slice(xs);
}

#[tactic(auto, unfolding(crate::specs::Records::read_for))]
fn read(bytes: &[u8], fields: &mut [u64]) -> Result<(), Number>
    ensures { (number_in result ≡ (read_for bytes.now fields.old).number)
        × (fields.new ≡ (read_for bytes.now fields.old).fields) }
{
    if fields.len() < 10 {
        return Err(Number::ShortSlice);
    }
    let r = record::read(bytes)?;
    show_fields(fields, &r.fields());
    Ok(())
}

// Reads the record at the front of `bytes` into ten fields: 4 where fewer are lent, then 18, 17, 19. A refused call changes
// nothing; fields past ten stay, and bytes past 35 are not read.
pub fn vuzgari_record_read(bytes: &[u8], fields: &mut [u64]) -> u32
    ensures { (result ≡ (read_for bytes.now fields.old).number)
        × (fields.new ≡ (read_for bytes.now fields.old).fields) }
{
    numbers::number_in(read(bytes, fields))
}

#[tactic(auto, unfolding(crate::specs::Grey::header_in))]
fn header(front: &[u8], fields: &mut [u64]) -> Result<(), Number>
    ensures { (number_in result ≡ (header_in front.now fields.old).number)
        × (fields.new ≡ (header_in front.now fields.old).fields) }
{
    if fields.len() < 4 {
        return Err(Number::ShortSlice);
    }
    let Head {
        width: w,
        height: h,
        maximum: m,
        start,
    } = pgm::header(front).ok_or(Number::PgmHeader)?;
    let xs = [w as u64, h as u64, m as u64, start as u64];
    show_fields(fields, &xs);
    Ok(())
}

// Reads the header of a grey file from its first bytes into four fields: 4 where fewer are lent, then 20. A refused call changes
// nothing; fields past four stay.
pub fn vuzgari_pgm_header(front: &[u8], fields: &mut [u64]) -> u32
    ensures { (result ≡ (header_in front.now fields.old).number)
        × (fields.new ≡ (header_in front.now fields.old).fields) }
{
    numbers::number_in(header(front, fields))
}

// Judges a grey file of `len` bytes by its first bytes: 20, 21, 22, or 0 where it holds an image.
pub fn vuzgari_pgm_judge(front: &[u8], len: usize) -> u32
    ensures { result ≡ number_for (front_read front.now len) }
{
    numbers::number_in(pgm::read_front(front, len))
}
