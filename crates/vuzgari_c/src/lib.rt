// The C calls of vuzgari: each calls its namesake there, under its clauses. They stand twice since a crate is a library or a
// static library.
#![tactic(auto)]

ghost use Rattle.std.specs.Prelude.{◌≡◌, [], ◌∷◌};
ghost use Rattle.grid.specs.Needed.{sizing_of};
ghost use Rattle.edge.specs.Edge.{edge};
ghost use Rattle.noise.specs.Call.{left_ints, left_floats};
ghost use Rattle.vuzgari.specs.Codes.{size_code, width_code};
ghost use Rattle.vuzgari.specs.Noise.{noise_for, left_bytes};
ghost use Rattle.vuzgari.specs.Records.{written_for, read_for};
ghost use Rattle.vuzgari.specs.Grey.{header_in, number_for};
ghost use Rattle.pgm.specs.Read.{front_read};

// M for an image of w by h, or 4,294,967,296 plus the number of a refusal. The noise call needs 3M i32 and 2M + 2 f32.
#[unsafe(no_mangle)]
pub extern "C" fn vuzgari_noise_windows(w: usize, h: usize) -> u64
    ensures { result ≡ size_code (sizing_of w h) }
{
    vuzgari::vuzgari_noise_windows(w, h)
}

// The noise call: its number, and after 0, 5, 6 or 7 the answer in the first 40 bytes of `out`.
#[unsafe(no_mangle)]
pub extern "C" fn vuzgari_noise(
    pixels: &[u8],
    w: usize,
    h: usize,
    ints: &mut [i32],
    floats: &mut [f32],
    out: &mut [u8],
) -> u32
    ensures { (result ≡ (noise_for pixels.now w h ints.old floats.old out.old).number)
        × (ints.new ≡ left_ints result w h ints.old)
        × (floats.new ≡ left_floats result w h floats.old)
        × (out.new ≡ left_bytes out.old
        (noise_for pixels.now w h ints.old floats.old out.old)) }
{
    vuzgari::vuzgari_noise(pixels, w, h, ints, floats, out)
}

// The edge call for C, with origin (ox, oy) and centre (cx, cy): the width's bits, or 4,294,967,296 plus the number.
#[unsafe(no_mangle)]
pub extern "C" fn vuzgari_edge_width(
    pixels: &[u8],
    width: usize,
    height: usize,
    ox: i32,
    oy: i32,
    cx: i32,
    cy: i32,
) -> u64
    ensures { result ≡ width_code (edge pixels.now width height (ox ∷ oy ∷ []) (cx ∷ cy ∷ [])) }
{
    vuzgari::vuzgari_edge_width(pixels, width, height, ox, oy, cx, cy)
}

// Writes the record of a shot from the image's sides and the answer slice as the noise call left it: 4 where that has under 40
// bytes, then 19, then 18. A refused call changes nothing; bytes past 35 stay.
#[unsafe(no_mangle)]
pub extern "C" fn vuzgari_record_write(
    shot: u32,
    w: usize,
    h: usize,
    answer: &[u8],
    out: &mut [u8],
) -> u32
    ensures { (result ≡ (written_for shot w h answer.now out.old).number)
        × (out.new ≡ (written_for shot w h answer.now out.old).bytes) }
{
    vuzgari::vuzgari_record_write(shot, w, h, answer, out)
}

// Reads the record at the front of `bytes` into ten fields: 4 where fewer are lent, then 18, 17, 19. A refused call changes
// nothing; fields past ten stay, and bytes past 35 are not read.
#[unsafe(no_mangle)]
pub extern "C" fn vuzgari_record_read(bytes: &[u8], fields: &mut [u64]) -> u32
    ensures { (result ≡ (read_for bytes.now fields.old).number)
        × (fields.new ≡ (read_for bytes.now fields.old).fields) }
{
    vuzgari::vuzgari_record_read(bytes, fields)
}

// Reads the header of a grey file from its first bytes into four fields: 4 where fewer are lent, then 20. A refused call changes
// nothing; fields past four stay.
#[unsafe(no_mangle)]
pub extern "C" fn vuzgari_pgm_header(front: &[u8], fields: &mut [u64]) -> u32
    ensures { (result ≡ (header_in front.now fields.old).number)
        × (fields.new ≡ (header_in front.now fields.old).fields) }
{
    vuzgari::vuzgari_pgm_header(front, fields)
}

// Judges a grey file of `len` bytes by its first bytes: 20, 21, 22, or 0 where it holds an image.
#[unsafe(no_mangle)]
pub extern "C" fn vuzgari_pgm_judge(front: &[u8], len: usize) -> u32
    ensures { result ≡ number_for (front_read front.now len) }
{
    vuzgari::vuzgari_pgm_judge(front, len)
}
