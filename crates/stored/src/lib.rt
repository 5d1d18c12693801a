// Lists of stored answers, read, judged and replayed.
//
// A list is text. Each line has a letter that says which call it is, columns of sixteen hexadecimal digits, each after a blank,
// and a line end. All lines of a list have the same number of columns. A line with any other byte cannot be read, and never
// agrees. A capital letter stands for the same call as the small one: lists keep answers there that were altered, to show that a
// wrong one is noticed.
#![tactic(auto)]

pub mod floats;

ghost use Rattle.std.specs.Prelude.{◌≡◌, ◌+◌, ◌-◌, ◌*◌, ◌<◌, ◌≤◌, ℕ, length, slice_index, MatchOption, IfOk};
ghost use Rattle.std.specs.Iterator.{at_most};
ghost use Rattle.std.specs.Option.{option_map};
ghost use Rattle.stored.specs.Floats.{single, signed};
ghost use Rattle.stored.specs.Lines.{is_digit, is_letter, digit_value, written, line_bytes, belongs, is_line, agrees_at, hit_at};
ghost use Rattle.stored.specs.Lines.{hit_count, lines_of, letter_at, number_at, column_byte};

use floats::{Column, Helper, Pattern};
use std::fmt::Display;
use std::io;

// The longest list that is read, in bytes.
pub const ROOM: usize = 65536;

// A letter that stands for no call.
#[derive(Clone, Copy, Debug, PartialEq, Eq)]
pub struct UnknownLetter(pub u8);

// A list of lines of N columns.
#[derive(Clone, Copy)]
pub struct List<'a, const N: usize> {
    pub text: &'a [u8],
    ghost narrow: { N < 256 },
}

// Line i of a list.
#[derive(Clone, Copy)]
pub struct Line<'a, const N: usize> {
    pub list: List<'a, N>,
    pub i: usize,
    ghost there: { i < lines_of list.text.now N },
}

fn is_digit(c: u8) -> bool
    ensures { result ≡ is_digit c }
{
    matches!(c, b'0'..=b'9' | b'a'..=b'f')
}

fn is_letter(c: u8) -> bool
    ensures { result ≡ is_letter c }
{
    c.is_ascii_alphabetic()
}

// What the digit c stands for. By hand: `written` speaks of any byte, and `to_digit` has none for one that is no digit.
#[tactic(auto, unfolding(crate::specs::Lines::digit_value))]
fn digit(c: u8) -> u64
    ensures value { result ≡ digit_value c }
    ensures below { result < 16 }
{
    let d = u64::from(c);
    if d < 58 { d % 16 } else { (d + 9) % 16 }
}

// The number that the sixteen digits from place at on write. Text and place stay apart: each call has another place.
#[tactic(auto, unfolding(crate::specs::Lines::written))]
pub fn column(text: &[u8], at: usize) -> u64
    requires { at + 16 ≤ length text.now }
    ensures { result ≡ written text.now at 16 }
{
    let mut n: u64 = 0;
    for c in &text[at..at + 16] {
        n = n * 16 + digit(*c);
    }
    n
}

// Whether c may stand at place k of a line.
#[tactic(auto, unfolding(crate::specs::Lines::belongs))]
fn is_placed(columns: u8, k: usize, c: u8) -> bool
    ensures { result ≡ belongs columns k c }
{
    if k == 0 {
        return is_letter(c);
    }
    if k == usize::from(columns) * 17 + 1 {
        return c == b'\n';
    }
    if k % 17 == 1 {
        return c == b' ';
    }
    is_digit(c)
}

// As many bytes as a line has.
fn width(columns: u8) -> usize
    ensures { result ≡ line_bytes columns }
{
    usize::from(columns) * 17 + 2
}

// The place of line i's first byte.
fn start(text: &[u8], columns: u8, i: usize) -> usize
    requires { i < lines_of text.now columns }
    ensures value { result ≡ i * line_bytes columns }
    ensures inside { result + line_bytes columns ≤ length text.now }
{
    let width = width(columns);
    prove!(i < text.len() / width);
    i * width
}

// Whether the line at place at can be read. A loop: the closure of an `all` would need a clause that says again what `is_placed`
// does.
#[tactic(auto, unfolding(crate::specs::Lines::readable))]
fn is_readable(text: &[u8], columns: u8, at: usize) -> bool
    requires { at + line_bytes columns ≤ length text.now }
    ensures { result ≡ is_line text.now columns at }
{
    let mut good = true;
    for (k, c) in text[at..at + width(columns)].iter().enumerate() {
        good = good & is_placed(columns, k, *c);
    }
    good
}

// The number in column j of the line at place at.
fn number_from(text: &[u8], at: usize, j: usize) -> u64
    requires { at + j * 17 + 18 ≤ length text.now }
    ensures { result ≡ written text.now (at + j * 17 + 2) 16 }
{
    column(text, at + j * 17 + 2)
}

// Whether the answer that the line at place at stores is the library's.
#[tactic(auto, unfolding(crate::specs::Lines::agrees_at))]
fn agrees(text: &[u8], columns: u8, at: usize) -> bool
    requires { at + line_bytes columns ≤ length text.now }
    ensures { result ≡ agrees_at text.now columns at }
{
    columns >= 3
        && is_readable(text, columns, at)
        && floats::answer(text[at], number_from(text, at, 0), number_from(text, at, 1))
            == number_from(text, at, 2)
}

// Whether the line at place at has the letter, which is the lists' own, and agrees or not as `good` says.
fn hits(text: &[u8], columns: u8, at: usize, letter: u8, good: bool) -> bool
    requires { at + line_bytes columns ≤ length text.now }
    ensures { result ≡ hit_at text.now columns at letter good }
{
    text[at] == letter && agrees(text, columns, at) == good
}

// How many lines there are. Here and in the calls below the columns are a number that a caller may learn as it runs; a List has
// them in its type.
pub fn lines(text: &[u8], columns: u8) -> usize
    ensures { result ≡ lines_of text.now columns }
{
    text.len() / width(columns)
}

// The letter of line i, if there is such a line and it can be read.
#[tactic(auto, unfolding(crate::specs::Lines::letter_at))]
pub fn letter(text: &[u8], columns: u8, i: usize) -> Option<u8>
    ensures { result ≡ letter_at text.now columns i }
{
    if i >= lines(text, columns) {
        return None;
    }
    let at = start(text, columns, i);
    is_readable(text, columns, at).then_some(text[at])
}

// The number in column j of line i, if there is one.
#[tactic(auto, unfolding(crate::specs::Lines::number_at))]
pub fn number(text: &[u8], columns: u8, i: usize, j: u8) -> Option<u64>
    ensures { result ≡ number_at text.now columns i j }
{
    if i >= lines(text, columns) || j >= columns {
        return None;
    }
    Some(number_from(text, start(text, columns, i), usize::from(j)))
}

// The f32 in column j of line i, if there is one.
pub fn float_in(text: &[u8], columns: u8, i: usize, j: u8) -> Option<f32>
    ensures { result ≡ option_map single (number_at text.now columns i j) }
{
    number(text, columns, i, j).map(f32::of)
}

// The whole number in column j of line i, if there is one.
pub fn int_in(text: &[u8], columns: u8, i: usize, j: u8) -> Option<i32>
    ensures { result ≡ option_map signed (number_at text.now columns i j) }
{
    number(text, columns, i, j).map(i32::of)
}

// How many lines have the letter, which is the lists' own, and agree, or do not, as `good` says.
#[tactic(auto, unfolding(crate::specs::Lines::hits, crate::specs::Lines::hit_count))]
pub fn count(text: &[u8], columns: u8, letter: u8, good: bool) -> usize
    ensures { result ≡ hit_count text.now columns letter good }
{
    let mut n = 0;
    for i in 0..lines(text, columns) {
        if hits(text, columns, start(text, columns, i), letter, good) {
            n += 1;
        }
    }
    n
}

// Writes, after the name, how many lines with the small letter agree and differ, and how many with the capital one.
pub fn report(
    rt: &impl Print,
    name: &str,
    text: &[u8],
    columns: u8,
    small: u8,
    capital: u8,
) -> io::Result<()> {
    print!(rt; "{name}: ")?;
    report_letter(rt, text, columns, small)?;
    print!(rt; "; altered: ")?;
    report_letter(rt, text, columns, capital)?;
    println!(rt; "")
}

// The letter is the lists' own, small or capital.
fn report_letter(rt: &impl Print, text: &[u8], columns: u8, letter: u8) -> io::Result<()> {
    let agree = count(text, columns, letter, true);
    let differ = count(text, columns, letter, false);
    print!(rt; "{agree} agree, {differ} differ")
}

// Writes how many lines there are, and how many bytes after the last whole one.
pub fn report_lines(rt: &impl Print, text: &[u8], columns: u8) -> io::Result<()> {
    let lines = lines(text, columns);
    let over = text.len() % width(columns);
    println!(rt; "{lines} lines, {over} bytes over")
}

// A list's lines, one after the other.
#[derive(Drop)]
struct EachLine<'a, const N: usize> {
    list: List<'a, N>,
    next: usize,
}

impl<'a, const N: usize> Iterator for EachLine<'a, N> {
    type Item = Line<'a, N>;

    ghost remaining = { λ s. at_most (lines_of s.list.text.now N - s.next) };

    ghost next_gives = { λ s r t. (t.list ≡ s.list) × MatchOption r
        ((lines_of s.list.text.now N ≤ s.next) × (t.next ≡ s.next))
        (λ line. (line.list ≡ s.list) × (line.i ≡ s.next) × (t.next ≡ s.next + 1)) };

    fn next(&mut self) -> Option<Line<'a, N>> {
        let line = self.list.line(self.next)?;
        self.next += 1;
        Some(line)
    }
}

impl<'a, const N: usize> List<'a, N> {
    // The list on standard input, as far as there is room.
    pub fn read(rt: &impl Input, room: &'a mut [u8; ROOM]) -> io::Result<List<'a, N>>
        requires { N < 256 }
        ensures { IfOk result (λ list. length list.text.now ≤ ROOM) }
    {
        let filled = streams::read_full(&mut rt.reader(), room);
        if let Some(why) = filled.failed {
            return Err(why);
        }
        Ok(List {
            text: &room[..filled.count],
        })
    }

    // How many lines there are.
    pub fn len(&self) -> usize
        ensures { result ≡ lines_of self.now.text.now N }
    {
        lines(self.text, N as u8)
    }

    // Line i, if there is one. An `if`: the closure of a `then` is not told that i is below the length, and a Line holds that.
    pub fn line(&self, i: usize) -> Option<Line<'a, N>>
        ensures { MatchOption result (lines_of self.now.text.now N ≤ i) (λ line. (line.list ≡ self.now) × (line.i ≡ i)) }
    {
        if i < self.len() {
            Some(Line { list: *self, i })
        } else {
            None
        }
    }

    // All of them, in order.
    fn lines(&self) -> EachLine<'a, N>
        ensures { (result.list ≡ self.now) × (result.next ≡ 0) }
    {
        EachLine {
            list: *self,
            next: 0,
        }
    }

    // How many lines have the letter, which is the lists' own, and agree, or do not, as `good` says.
    pub fn count(&self, letter: u8, good: bool) -> usize
        ensures { result ≡ hit_count self.now.text.now N letter good }
    {
        count(self.text, N as u8, letter, good)
    }

    // Writes, after the helper's name, how many lines with its small letter agree and differ, and how many with the capital one.
    pub fn report(&self, rt: &impl Print, helper: Helper) -> io::Result<()> {
        let letter = helper.letter();
        report(
            rt,
            helper.name(),
            self.text,
            N as u8,
            letter,
            letter.to_ascii_uppercase(),
        )
    }

    // Writes how many lines there are, and how many bytes after the last whole one.
    pub fn report_size(&self, rt: &impl Print) -> io::Result<()> {
        report_lines(rt, self.text, N as u8)
    }
}

impl<'a, const N: usize> Line<'a, N> {
    // Its letter, if it can be read.
    pub fn letter(&self) -> Option<u8>
        ensures { result ≡ letter_at self.now.list.text.now N self.now.i }
    {
        letter(self.list.text, N as u8, self.i)
    }

    // The call that its letter stands for, if it can be read and there is one.
    fn call<C: TryFrom<u8, Error = UnknownLetter>>(&self) -> Option<C> {
        C::try_from(self.letter()?).ok()
    }

    // The number in column j.
    fn number(&self, j: usize) -> u64
        requires { j < N }
        ensures { result ≡ written self.now.list.text.now (self.now.i * line_bytes N + j * 17 + 2) 16 }
    {
        let at = start(self.list.text, N as u8, self.i);
        number_from(self.list.text, at, j)
    }

    // The numbers in its columns. The checker refuses the closure that `array::from_fn` would take here.
    #[tactic(auto, unfolding(crate::specs::Lines::number_at))]
    pub fn columns(&self) -> [u64; N]
        ensures { (j : ℕ) → j < N → number_at self.now.list.text.now N self.now.i j ≡ Some (slice_index result j) }
    {
        let mut numbers = [0; N];
        for (j, number) in numbers.iter_mut().enumerate() {
            *number = self.number(j);
        }
        numbers
    }
}

// What a program keeps from line to line, and what it does at each. A trait: a closure over a line's `[u64; N]` gets no proof.
pub trait Calls<const N: usize> {
    // What the letters stand for.
    type Call: TryFrom<u8, Error = UnknownLetter> + Drop;

    // Makes the call with these columns, and writes what it answers.
    fn run(&mut self, rt: &impl Print, call: Self::Call, columns: [u64; N]) -> io::Result<()>;
}

// Replays the list on standard input line by line, and says so where a line cannot be read or its letter stands for no call. At
// last it says how many lines there are.
pub fn replay<const N: usize>(
    rt: &(impl Input + Print),
    calls: &mut impl Calls<N>,
) -> io::Result<()>
    requires { N < 256 }
{
    let mut room = [0; ROOM];
    let list = List::<N>::read(rt, &mut room)?;
    for line in list.lines() {
        match line.call() {
            Some(call) => calls.run(rt, call, line.columns())?,
            None => println!(rt; "a line that cannot be read")?,
        }
    }
    list.report_size(rt)
}

// The bytes of five columns, the first in the highest place.
pub fn bytes_in(columns: [u64; 5]) -> [u8; 40]
    ensures { (k : ℕ) → k < 40 → slice_index result k ≡ column_byte columns k }
{
    let mut bytes = [0; 40];
    for (k, byte) in bytes.iter_mut().enumerate() {
        *byte = columns[k / 8].to_be_bytes()[k % 8];
    }
    bytes
}

// Makes a call on the first m elements of a room, and writes its name, the number that it answers and, by `show`, the whole room.
// Where the room is shorter it writes nothing.
pub fn report_call<T, C, S>(
    rt: &impl Print,
    name: &str,
    room: &mut [T],
    m: usize,
    call: C,
    show: S,
) -> io::Result<()>
where
    C: FnOnce(&mut [T]) -> u32,
    S: FnOnce(&[T]) -> io::Result<()>,
    requires { C.IsAlwaysCallable call × S.IsAlwaysCallable show }
{
    let Some(lent) = room.get_mut(..m) else {
        return Ok(());
    };
    report_answer(rt, name, call(lent))?;
    show(room)
}

// Writes the name of a call and the number that it answers, as C reads it: the calls replayed here are the exported ones.
pub fn report_answer(rt: &impl Print, name: &str, number: u32) -> io::Result<()> {
    print!(rt; "{name} {number}")
}

// Writes a blank and x's pattern in eight hexadecimal digits, for each x.
pub fn report_floats(rt: &impl Print, all: &[f32]) -> io::Result<()> {
    for x in all {
        let pattern = (*x).pattern();
        print!(rt; " {pattern:08x}")?;
    }
    Ok(())
}

// Writes a blank and a field, for each field.
pub fn report_fields<T: Display>(rt: &impl Print, fields: &[T]) -> io::Result<()> {
    for field in fields {
        print!(rt; " {field}")?;
    }
    Ok(())
}

// Writes each byte in two hexadecimal digits, after a blank.
pub fn report_bytes(rt: &impl Print, bytes: &[u8]) -> io::Result<()> {
    print!(rt; " ")?;
    for byte in bytes {
        print!(rt; "{byte:02x}")?;
    }
    Ok(())
}
