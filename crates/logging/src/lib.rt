// From the noise call's answer to the record of a shot.
#![tactic(auto)]

ghost use Rattle.std.specs.Prelude.{◌≡◌, ◌≤◌, ◌<◌, length};
ghost use Rattle.logging.specs.Logging.{field_at, record_from};

use record::Record;

// Field k of an answer's bytes. By `get32`: for `u32::from_le_bytes` each of its four bytes would be named.
fn field(answer: &[u8], k: usize) -> u32
    requires { (k < 10) × (40 ≤ length answer.now) }
    ensures { result ≡ field_at answer.now k }
{
    little_endian::get32(answer, 4 * k, 4)
}

// The record of a shot from the sides and the bytes that the noise call left. Milli, rounds and passes are not looked at.
pub fn record_from(shot: u32, w: usize, h: usize, answer: &[u8]) -> Record
    requires { 40 ≤ length answer.now }
    ensures { result ≡ record_from shot w h answer.now }
{
    Record {
        shot,
        width: w,
        height: h,
        answer: field(answer, 0),
        sigma: field(answer, 1),
        b0: field(answer, 3),
        b1: field(answer, 4),
        b2: field(answer, 5),
        b3: field(answer, 6),
        rail: field(answer, 7),
    }
}
