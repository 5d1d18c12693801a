// Replays stored calls on grey files: a list on standard input, what each call answers and leaves on standard output.
// `oracle/compare --store pgm` makes both anew.
#![tactic(auto)]

use std::io;
use stored::{Calls, UnknownLetter};

#[derive(Clone, Copy)]
enum Call {
    // Reads a header.
    Header,
    // Judges a file.
    Judge,
    // Is the program.
    Pgmnoise,
}

impl TryFrom<u8> for Call {
    type Error = UnknownLetter;

    fn try_from(letter: u8) -> Result<Call, UnknownLetter> {
        match letter {
            b'h' => Ok(Call::Header),
            b'j' => Ok(Call::Judge),
            b'p' => Ok(Call::Pgmnoise),
            _ => Err(UnknownLetter(letter)),
        }
    }
}

// Reads a header at the front into the first m of 6 fields, and reports all 6.
fn header(rt: &impl Print, front: &[u8], m: usize) -> io::Result<()> {
    stored::report_call(
        rt,
        "header",
        &mut [999; 6],
        m,
        |lent| vuzgari::vuzgari_pgm_header(front, lent),
        |fields| stored::report_fields(rt, fields),
    )
}

// Judges a file of `len` bytes by its front.
fn judge(rt: &impl Print, front: &[u8], len: usize) -> io::Result<()> {
    let number = vuzgari::vuzgari_pgm_judge(front, len);
    stored::report_answer(rt, "judge", number)
}

// The ten fields that `pgmnoise` prints for the file.
fn pgmnoise(rt: &impl Print, file: &[u8]) -> io::Result<()> {
    let words = answer::words(grey::answer_to(file));
    print!(rt; "pgmnoise")?;
    stored::report_fields(rt, &words)
}

// The calls keep nothing from line to line.
#[derive(Drop)]
struct Files;

impl Calls<7> for Files {
    type Call = Call;

    // Of the bytes in the last five columns, the first n are lent.
    fn run(&mut self, rt: &impl Print, call: Call, columns: [u64; 7]) -> io::Result<()> {
        let [n, m, a, b, c, d, e] = columns;
        let bytes = stored::bytes_in([a, b, c, d, e]);
        if let Some(front) = bytes.get(..n as usize) {
            match call {
                Call::Header => header(rt, front, m as usize)?,
                Call::Judge => judge(rt, front, m as usize)?,
                Call::Pgmnoise => pgmnoise(rt, front)?,
            }
        }
        println!(rt; "")
    }
}

fn main(rt: HostRuntime) -> io::Result<()> {
    stored::replay(&rt, &mut Files)
}
