// What the noise call answers, as numbers and as the bytes that C reads.
#![tactic(auto)]

ghost use Rattle.std.specs.Prelude.{◌≡◌, ◌++◌, ◌≤◌, length, drop};
ghost use Rattle.answer.specs.Fields.{words_of, bytes_of_words, answer_bytes};

// Document 01's list: ten flat fields, a number beside sigma.
#[derive(Drop)]
pub struct Answer {
    // 0, or the number of document 01 that says why there is no sigma
    pub number: u32,
    pub sigma: f32,
    // thousandths of sigma
    pub milli: u32,
    // how many windows each band has
    pub b0: u32,
    pub b1: u32,
    pub b2: u32,
    pub b3: u32,
    // how many were dropped
    pub rail: u32,
    pub rounds: u32,
    pub passes: u32,
}

// The ten fields in document 01's order, sigma by its bits.
pub fn words(a: Answer) -> [u32; 10]
    ensures { result ≡ words_of a }
{
    let sigma = float::bits32(a.sigma);
    [
        a.number, sigma, a.milli, a.b0, a.b1, a.b2, a.b3, a.rail, a.rounds, a.passes,
    ]
}

// Ten numbers, four bytes each, from the front on. By `put`: a copy of `to_le_bytes` would name both ends of its place in `out`.
fn put_words(out: &mut [u8], words: [u32; 10])
    requires { 40 ≤ length out.old }
    ensures { out.new ≡ bytes_of_words words ++ drop 40 out.old }
{
    for (k, x) in words.iter().enumerate() {
        little_endian::put(out, k * 4, 4, u64::from(*x));
    }
}

// The answer's 40 bytes from the front on. Bytes beyond stay.
pub fn put(out: &mut [u8], a: Answer)
    requires { 40 ≤ length out.old }
    ensures { out.new ≡ answer_bytes a ++ drop 40 out.old }
{
    put_words(out, words(a));
}
