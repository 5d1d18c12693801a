// Numbers and lines of fields as text, appended to a text of fixed room: by `push_str` and not by `write!`, whose contract does
// not say where it fails, so that no caller could show that all is written. Or laid over lent bytes, of any length, from a place
// on, where a header may be any bytes.
#![tactic(auto)]

ghost use Rattle.std.specs.Prelude.{◌≡◌, ◌+◌, ◌*◌, ◌<◌, ◌≤◌, ◌++◌, ◌∷◌, [], length};
ghost use Rattle.laws.specs.Lists.{laid};
ghost use Rattle.text.specs.Numerals.{decimal_of, digit_of, hex4_of, hex8_of};
ghost use Rattle.text.specs.Line.{field_of, end_of, line_of, under};
ghost use Rattle.text.specs.Placed.{LaidTo, Fronted};

use arrayvec::ArrayString;
use itoa::Buffer;

// A field of a line: a number in decimal without leading zeros, or its low 32 bits as eight hexadecimal digits in capitals.
#[derive(Clone, Copy, Debug, PartialEq, Eq)]
pub enum Field {
    Decimal(u64),
    Hex(u64),
}

// n in decimal, without leading zeros.
pub fn push_decimal<const N: usize>(text: &mut ArrayString<N>, n: u64)
    requires { length text.old.bytes + 20 ≤ N }
    ensures bytes { text.new.bytes ≡ text.old.bytes ++ decimal_of n }
    ensures short { length text.new.bytes ≤ length text.old.bytes + 20 }
{
    let mut digits = Buffer::new();
    text.push_str(digits.format(n));
}

#[tactic(auto, unfolding(crate::specs::Numerals::digit_of))]
fn digit(d: u32) -> char
    requires { d < 16 }
    ensures value { result ≡ digit_of d }
    ensures ascii { result < 128 }
{
    char::from_digit(d, 16).unwrap().to_ascii_uppercase()
}

fn push_digit<const N: usize>(text: &mut ArrayString<N>, d: u32)
    requires room { length text.old.bytes + 1 ≤ N }
    requires below { d < 16 }
    ensures { text.new.bytes ≡ text.old.bytes ++ digit_of d ∷ [] }
{
    text.push(digit(d));
}

fn push_hex4<const N: usize>(text: &mut ArrayString<N>, x: u32)
    requires { length text.old.bytes + 4 ≤ N }
    ensures { text.new.bytes ≡ text.old.bytes ++ hex4_of x }
{
    push_digit(text, x / 4096 % 16);
    push_digit(text, x / 256 % 16);
    push_digit(text, x / 16 % 16);
    push_digit(text, x % 16);
}

// x as eight hexadecimal digits, in capitals.
pub fn push_hex8<const N: usize>(text: &mut ArrayString<N>, x: u32)
    requires { length text.old.bytes + 8 ≤ N }
    ensures { text.new.bytes ≡ text.old.bytes ++ hex8_of x }
{
    push_hex4(text, x / 65536);
    push_hex4(text, x % 65536);
}

// A field's text.
#[tactic(auto, unfolding(crate::specs::Line::field_of))]
fn push_field<const N: usize>(text: &mut ArrayString<N>, field: Field)
    requires { length text.old.bytes + 20 ≤ N }
    ensures { text.new.bytes ≡ text.old.bytes ++ field_of field }
{
    match field {
        Field::Decimal(n) => push_decimal(text, n),
        Field::Hex(x) => push_hex8(text, (x % 0x1_0000_0000) as u32),
    }
}

// What stands after field k of n.
fn end_of(k: usize, n: usize) -> &'static str
    requires { k < n }
    ensures { result.now ≡ end_of n k ∷ [] }
{
    if k + 1 == n { "\n" } else { " " }
}

// The line of these fields.
pub fn push_line<const N: usize>(text: &mut ArrayString<N>, fields: &[Field])
    requires { length text.old.bytes + 21 * length fields.now ≤ N }
    ensures { text.new.bytes ≡ text.old.bytes ++ line_of fields.now }
{
    for (k, field) in fields.iter().enumerate() {
        push_field(text, *field);
        text.push_str(end_of(k, fields.len()));
    }
}

// A header and the line under it.
pub fn report<const N: usize>(header: &str, fields: &[Field]) -> ArrayString<N>
    requires { length header.now + 21 * length fields.now ≤ N }
    ensures { result.bytes ≡ under header.now fields.now }
{
    let mut text = ArrayString::new();
    text.push_str(header);
    push_line(&mut text, fields);
    text
}

// Lays a text, or bytes that are none, over lent bytes from the front on, and answers how long it is. Bytes beyond stay.
pub fn front(out: &mut [u8], text: &[u8]) -> usize
    requires { length text.now ≤ length out.old }
    ensures { Fronted out.old text.now result out.new }
{
    let n = text.len();
    out[..n].copy_from_slice(text);
    n
}

// Lays s over what stands from place `at` on, and answers where it ends. All other bytes stay, here and below.
pub fn put(out: &mut [u8], at: usize, s: &[u8]) -> usize
    requires { at + length s.now ≤ length out.old }
    ensures { LaidTo out.old at s.now result out.new }
{
    let end = at + s.len();
    out[at..end].copy_from_slice(s);
    end
}

// The same of n in decimal.
pub fn put_decimal(out: &mut [u8], at: usize, n: u64) -> usize
    requires { at + 20 ≤ length out.old }
    ensures { LaidTo out.old at (decimal_of n) result out.new }
{
    let mut text = ArrayString::<20>::new();
    push_decimal(&mut text, n);
    put(out, at, text.as_bytes())
}

// The same of x as eight hexadecimal digits.
pub fn put_hex8(out: &mut [u8], at: usize, x: u32) -> usize
    requires { at + 8 ≤ length out.old }
    ensures { (result ≡ at + 8) × (out.new ≡ laid out.old at (hex8_of x)) }
{
    let mut text = ArrayString::<8>::new();
    push_hex8(&mut text, x);
    put(out, at, text.as_bytes())
}

// The same of a field's text.
fn put_field(out: &mut [u8], at: usize, field: Field) -> usize
    requires { at + 20 ≤ length out.old }
    ensures { LaidTo out.old at (field_of field) result out.new }
{
    let mut text = ArrayString::<20>::new();
    push_field(&mut text, field);
    put(out, at, text.as_bytes())
}

// The same of the line of these fields.
pub fn put_line(out: &mut [u8], at: usize, fields: &[Field]) -> usize
    requires { at + 21 * length fields.now ≤ length out.old }
    ensures { LaidTo out.old at (line_of fields.now) result out.new }
{
    let mut to = at;
    for (k, field) in fields.iter().enumerate() {
        to = put_field(out, to, *field);
        to = put(out, to, end_of(k, fields.len()).as_bytes());
    }
    to
}

// The same of a header, which may be no text, and the line under it, from the front on: answers how long both are.
pub fn put_report(out: &mut [u8], header: &[u8], fields: &[Field]) -> usize
    requires { length header.now + 21 * length fields.now ≤ length out.old }
    ensures { Fronted out.old (under header.now fields.now) result out.new }
{
    let to = put(out, 0, header);
    put_line(out, to, fields)
}
