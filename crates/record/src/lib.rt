// The record of a shot: 35 bytes, written into a lent slice and read from one.
#![tactic(auto)]

ghost use Rattle.std.specs.Prelude.{◌≡◌, ◌≤◌, ◌<◌, ◌^◌, length};
ghost use Rattle.numbers.specs.Numbers.{number_in};
ghost use Rattle.grid.specs.Grid.{Sides};
ghost use Rattle.record.specs.Rule.{band_sum, stored_answer, sigma_taken, counts_taken, allowed as is_allowed};
ghost use Rattle.record.specs.Records.{form_nf, fields_of, bytes_as, written_as, record_in, read_as, marked as is_marked};

use grid::Grid;
use little_endian::get32;
use numbers::Number;

// What is kept of a shot.
#[derive(Clone, Copy)]
pub struct Record {
    pub shot: u32,
    pub width: usize,
    pub height: usize,
    // the noise call's number: 0, 5, 6 or 7, and any in bytes that the rule has not judged
    pub answer: u32,
    // sigma by its bits
    pub sigma: u32,
    // how many windows each band has
    pub b0: u32,
    pub b1: u32,
    pub b2: u32,
    pub b3: u32,
    // how many were dropped
    pub rail: u32,
}

// ---- the rule

// Whether an answer with this number is stored. A number: a record's bytes hold any, until the rule judges it.
#[tactic(auto, unfolding(crate::specs::Rule::stored_answer))]
fn stored_answer(a: u32) -> bool
    ensures { result ≡ stored_answer a }
{
    matches!(a, 0 | 5 | 6 | 7)
}

// Whether sigma's bits go with the number and the windows that are kept. A number, as in `stored_answer`.
#[tactic(auto, unfolding(crate::specs::Rule::sigma_taken))]
fn sigma_taken(a: u32, bits: u32, kept: u64) -> bool
    ensures { result ≡ sigma_taken a bits kept }
{
    match a {
        0 => bits <= 0x447a_0000 && 512 <= kept,
        _ => bits == 0,
    }
}

// Whether n windows are all those of one of the two passes. The second is counted only where the first has not n.
#[tactic(auto, unfolding(crate::specs::Rule::counts_taken))]
fn counts_taken(w: usize, h: usize, n: u64) -> bool
    requires { Sides w h }
    ensures { result ≡ counts_taken w h n }
{
    n == Grid::first(w, h).window_count() as u64 || n == Grid::dense(w, h).window_count() as u64
}

impl Record {
    // The sum of the bands, which may pass 32 bits.
    fn band_sum(self) -> u64
        ensures { (result ≡ band_sum self) × (result < 2 ^ 34) }
    {
        u64::from(self.b0) + u64::from(self.b1) + u64::from(self.b2) + u64::from(self.b3)
    }

    // The rule on a record, its dear part last.
    #[tactic(auto, unfolding(crate::specs::Rule::allowed))]
    fn allowed(self) -> bool
        ensures { result ≡ is_allowed self }
    {
        let kept = self.band_sum();
        !limits::too_large(self.width, self.height)
            && !limits::too_small(self.width, self.height)
            && stored_answer(self.answer)
            && sigma_taken(self.answer, self.sigma, kept)
            && counts_taken(self.width, self.height, kept + u64::from(self.rail))
    }

    // The ten fields in the order of their bytes.
    pub fn fields(self) -> [u64; 10]
        ensures { result ≡ fields_of self }
    {
        [
            u64::from(self.shot),
            self.width as u64,
            self.height as u64,
            u64::from(self.answer),
            u64::from(self.sigma),
            u64::from(self.b0),
            u64::from(self.b1),
            u64::from(self.b2),
            u64::from(self.b3),
            u64::from(self.rail),
        ]
    }
}

// ---- reading

fn marked(bytes: &[u8]) -> bool
    ensures { result ≡ is_marked form_nf bytes.now }
{
    matches!(bytes, [0x4e, 0x46, ..])
}

// The record behind the mark, not judged. By `get32`: fields of four, two and one bytes.
fn record_in(bytes: &[u8]) -> Record
    requires { 35 ≤ length bytes.now }
    ensures { result ≡ record_in form_nf bytes.now }
{
    Record {
        shot: get32(bytes, 2, 4),
        width: get32(bytes, 6, 2) as usize,
        height: get32(bytes, 8, 2) as usize,
        answer: get32(bytes, 10, 1),
        sigma: get32(bytes, 11, 4),
        b0: get32(bytes, 15, 4),
        b1: get32(bytes, 19, 4),
        b2: get32(bytes, 23, 4),
        b3: get32(bytes, 27, 4),
        rail: get32(bytes, 31, 4),
    }
}

// The record at the front: 18, then 17, then 19. Bytes past 35 are not read.
#[tactic(auto, unfolding(crate::specs::Records::read_as))]
pub fn read(bytes: &[u8]) -> Result<Record, Number>
    ensures { result ≡ read_as form_nf bytes.now }
{
    if bytes.len() < 35 {
        return Err(Number::ShortRecord);
    }
    if !marked(bytes) {
        return Err(Number::OtherMark);
    }
    let r = record_in(bytes);
    if !r.allowed() {
        return Err(Number::BrokenRule);
    }
    Ok(r)
}

// ---- writing

// How many bytes each field takes.
const FIELD_BYTES: [usize; 10] = [4, 2, 2, 1, 4, 4, 4, 4, 4, 4];

impl Record {
    // The bytes of a record, not judged: the mark, then the fields. By `put`: they take four, two and one bytes.
    fn bytes(self) -> [u8; 35]
        ensures { result ≡ bytes_as form_nf self }
    {
        let xs = self.fields();
        let mut bytes = [0; 35];
        bytes[0] = 0x4e;
        bytes[1] = 0x46;
        let mut at = 2;
        for (count, x) in FIELD_BYTES.iter().zip(xs.iter()) {
            little_endian::put(&mut bytes, at, *count, *x);
            at += *count;
        }
        bytes
    }
}

// Writes a record, or answers 19, then 18, and changes nothing. Bytes past 35 stay.
#[tactic(auto, unfolding(crate::specs::Records::written_as))]
pub fn write(r: Record, out: &mut [u8]) -> Result<(), Number>
    ensures { (number_in result ≡ (written_as form_nf r out.old).number)
        × (out.new ≡ (written_as form_nf r out.old).bytes) }
{
    if !r.allowed() {
        return Err(Number::BrokenRule);
    }
    if out.len() < 35 {
        return Err(Number::ShortRecord);
    }
    out[..35].copy_from_slice(&r.bytes());
    Ok(())
}
