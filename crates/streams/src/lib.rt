// A program's standard streams: input read as far as there is room, words after the program's name, and what went wrong.
#![tactic(auto)]

ghost use Rattle.std.specs.Prelude.{◌≡◌, ◌<◌, ◌≤◌, length, take, None};
ghost use Rattle.std.specs.Io.KnownBytes.{Consumes, IsAtEnd};

use arrayvec::ArrayString;
use std::env::{Env, FillError};
use std::fmt::{Display, Write};
use std::io::{Eprint, Error, Print, Read};

// As many bytes as the system's words for an error may take.
const WORD_BYTES: usize = 300;

// How many bytes stand at the front of the room, and why there are no more where a read failed. A count beside the room: a slice
// of it, lent on, has no value after, of which read_full's promises speak; and a Result would lose what was read before a
// failure.
#[derive(Drop)]
pub struct Filled {
    pub count: usize,
    pub failed: Option<Error>,
}

// Reads until the room is full, the input ends or a read fails. A read that a signal interrupts counts as one that failed. The
// loop goes on by as many bytes as a read gives, which no range counts.
pub fn read_full<R: Read>(input: &mut R, room: &mut [u8]) -> Filled
    ensures in_bounds { result.count ≤ length room.new }
    ensures taken { Consumes (R.remaining input.old) (R.remaining input.new) (take result.count room.new) }
    ensures ended { result.failed ≡ None → result.count < length room.new → IsAtEnd (R.remaining input.new) }
{
    let mut count = 0;
    while count < room.len() {
        match input.read(&mut room[count..]) {
            Ok(0) => {
                return Filled {
                    count,
                    failed: None,
                };
            }
            Ok(n) => count += n,
            Err(why) => {
                return Filled {
                    count,
                    failed: Some(why),
                };
            }
        }
    }
    Filled {
        count,
        failed: None,
    }
}

// Whether a word stands after the program's name.
pub fn has_words(rt: &impl Env) -> bool {
    let mut room = [0u8; 1];
    match rt.arg(1, &mut room) {
        Ok(_) => true,
        Err(FillError::TooLong) => true,
        Err(FillError::NotPresent) => false,
    }
}

// Says on standard error that `what` failed, and why in the system's words, without its number. Where that cannot be written,
// nothing is said.
pub fn complain(rt: &impl Eprint, what: impl Display + Drop, why: Error) {
    let mut text = ArrayString::<WORD_BYTES>::new();
    let _ = write!(text, "{why}");
    let whole = text.as_str();
    let word = match whole.split_once(" (os error ") {
        Some((word, _)) => word,
        None => whole,
    };
    let _ = eprintln!(rt; "{what}: {word}");
}

// The bytes on standard input, as far as there is room, of a program that takes no words. Standard error says what is amiss.
// Only the length of read_full's promises can be said: Stdin has no `remaining`, and the room, lent on, has no value after.
pub fn read_input<'a>(rt: &HostRuntime, program: &str, usage: &str, room: &'a mut [u8]) -> &'a [u8]
    ensures fits { length result.now ≤ length room.old }
{
    if has_words(rt) {
        let _ = eprintln!(rt; "{program}: it takes no words and reads {usage}");
    }
    let filled = read_full(&mut rt.stdin(), room);
    if let Some(why) = filled.failed {
        complain(rt, format_args!("{program}: standard input"), why);
    }
    &room[..filled.count]
}

// Writes a program's output, and after it what is said on standard error. No clause can name what these streams hold.
pub fn write_all(rt: &HostRuntime, program: &str, output: &str, remark: &str) {
    if let Err(why) = rt.write_all(output.as_bytes()) {
        complain(rt, format_args!("{program}: standard output"), why);
    }
    let _ = rt.stderr().write_all(remark.as_bytes());
}
