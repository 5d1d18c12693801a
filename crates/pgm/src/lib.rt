// Grey files from the camera tool: a subset of binary PGM.
#![tactic(auto)]

ghost use Rattle.std.specs.Prelude.{◌≡◌, List, ℕ, ◌≤◌, length, get_or, drop};
ghost use Rattle.pgm.specs.Read.{Opening, is_white, is_decimal, take_number, take_field, head_of, front_read, read_of, raster_of};
ghost use Rattle.pgm.specs.Found.{is_marked, onward, InFile};

use numbers::Number;

// The image that a file holds, by its sides and its raster's first place.
#[derive(Clone, Copy, Debug, PartialEq, Eq)]
pub struct Image {
    pub width: usize,
    pub height: usize,
    pub start: usize,
}

// A header's width, height and maximum, and the place after it.
#[derive(Clone, Copy, Debug, PartialEq, Eq)]
pub struct Head {
    pub width: usize,
    pub height: usize,
    pub maximum: usize,
    pub start: usize,
}

// A number and the place after it.
#[derive(Clone, Copy)]
struct Found {
    number: usize,
    end: usize,
}

// Whether a whitespace byte stands at a place. File and place stay apart, here and as far as field_at: the file is one, and each
// call asks of another place.
fn is_white_at(file: &[u8], at: usize) -> bool
    ensures { result ≡ is_white (get_or file.now at 0) }
{
    matches!(file.get(at), Some(b' ' | b'\t' | b'\r' | b'\n'))
}

// Whether a digit stands at a place.
fn is_digit_at(file: &[u8], at: usize) -> bool
    ensures { result ≡ is_decimal (get_or file.now at 0) }
{
    matches!(file.get(at), Some(b'0'..=b'9'))
}

// Whether `P5` and a whitespace byte stand at the front.
fn is_marked(file: &[u8]) -> bool
    ensures { result ≡ is_marked file.now }
{
    matches!(file, [b'P', b'5', ..]) && is_white_at(file, 2)
}

// The number at a place: a sixth digit ends the search. The loop goes by its place, which is half of the answer.
fn number_at(file: &[u8], at: usize) -> Option<Found>
    requires { at ≤ length file.now }
    ensures by_index { (go : ℕ → List ℕ → Opening) → take_number (drop at file.now) go ≡ onward file.now result go }
    ensures in_file { InFile file.now result }
{
    let mut number = 0;
    let mut end = at;
    while is_digit_at(file, end) {
        if end - at == 5 {
            return None;
        }
        number = number * 10 + usize::from(file[end] - b'0');
        end += 1;
    }
    if end == at || file[at] == b'0' {
        return None;
    }
    Some(Found { number, end })
}

// The number at a place, with the whitespace byte after it.
fn field_at(file: &[u8], at: usize) -> Option<Found>
    requires { at ≤ length file.now }
    ensures by_index { (go : ℕ → List ℕ → Opening) → take_field (drop at file.now) go ≡ onward file.now result go }
    ensures in_file { InFile file.now result }
{
    let Found { number, end } = number_at(file, at)?;
    if !is_white_at(file, end) {
        return None;
    }
    Some(Found {
        number,
        end: end + 1,
    })
}

// The header at the front.
pub fn header(file: &[u8]) -> Option<Head>
    ensures { result ≡ head_of file.now }
{
    if !is_marked(file) {
        return None;
    }
    let width = field_at(file, 3)?;
    let height = field_at(file, width.end)?;
    let maximum = field_at(file, height.end)?;
    Some(Head {
        width: width.number,
        height: height.number,
        maximum: maximum.number,
        start: maximum.end,
    })
}

// The image in a file of `len` bytes, by its first bytes, or the first of 20, 21, 22 that applies. `pgmnoise` has these tests
// once more: number 16 stands between them.
#[tactic(auto, unfolding(crate::specs::Read::front_read), using(crate::proofs::Heads::few_pixels))]
pub fn read_front(front: &[u8], len: usize) -> Result<Image, Number>
    ensures { result ≡ front_read front.now len }
{
    let head = header(front).ok_or(Number::PgmHeader)?;
    if head.maximum != 255 {
        return Err(Number::PgmMaximum);
    }
    if len != head.start + head.width * head.height {
        return Err(Number::PgmRaster);
    }
    Ok(Image {
        width: head.width,
        height: head.height,
        start: head.start,
    })
}

// The image in a whole file, in the same way.
#[tactic(auto, unfolding(crate::specs::Read::read_of))]
pub fn read(file: &[u8]) -> Result<Image, Number>
    ensures { result ≡ read_of file.now }
{
    read_front(file, file.len())
}

// The raster, where it stands in the file; of a refused file, nothing.
#[tactic(auto, unfolding(crate::specs::Read::raster_of), using(crate::proofs::Judging::image_in_file))]
pub fn raster(file: &[u8]) -> &[u8]
    ensures { result.now ≡ raster_of file.now }
{
    match read(file) {
        Ok(image) => &file[image.start..],
        Err(_) => &[],
    }
}
