// Replays stored calls that write and read records: a list on standard input, what each call answers and leaves on standard
// output. `oracle/compare --store records` makes both anew.
#![tactic(auto)]

use std::io;
use stored::{Calls, UnknownLetter};

#[derive(Clone, Copy)]
enum Call {
    Write,
    Read,
}

impl TryFrom<u8> for Call {
    type Error = UnknownLetter;

    fn try_from(letter: u8) -> Result<Call, UnknownLetter> {
        match letter {
            b'w' => Ok(Call::Write),
            b'r' => Ok(Call::Read),
            _ => Err(UnknownLetter(letter)),
        }
    }
}

// Writes from an answer into the first m of 40 bytes, and reports all 40.
fn write(
    rt: &impl Print,
    answer: &[u8],
    m: usize,
    shot: u32,
    w: usize,
    h: usize,
) -> io::Result<()> {
    stored::report_call(
        rt,
        "write",
        &mut [0xee; 40],
        m,
        |lent| vuzgari::vuzgari_record_write(shot, w, h, answer, lent),
        |out| stored::report_bytes(rt, out),
    )
}

// Reads from the bytes into the first m of 12 fields, and reports all 12.
fn read(rt: &impl Print, bytes: &[u8], m: usize) -> io::Result<()> {
    stored::report_call(
        rt,
        "read",
        &mut [999; 12],
        m,
        |lent| vuzgari::vuzgari_record_read(bytes, lent),
        |fields| stored::report_fields(rt, fields),
    )
}

// The calls keep nothing from line to line.
#[derive(Drop)]
struct Records;

impl Calls<10> for Records {
    type Call = Call;

    // Of the bytes in the last five columns, the first n are lent.
    fn run(&mut self, rt: &impl Print, call: Call, columns: [u64; 10]) -> io::Result<()> {
        let [shot, w, h, n, m, a, b, c, d, e] = columns;
        let shot = (shot % 0x1_0000_0000) as u32;
        let bytes = stored::bytes_in([a, b, c, d, e]);
        if let Some(front) = bytes.get(..n as usize) {
            match call {
                Call::Write => write(rt, front, m as usize, shot, w as usize, h as usize)?,
                Call::Read => read(rt, front, m as usize)?,
            }
        }
        println!(rt; "")
    }
}

fn main(rt: HostRuntime) -> io::Result<()> {
    stored::replay(&rt, &mut Records)
}
