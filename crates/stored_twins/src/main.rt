// Replays stored calls of the noise and edge calls, of the rounds and of thousandths: a list on standard input, what each call
// answers on standard output. `oracle/compare --store twins` makes both anew.
#![tactic(auto)]

ghost use Rattle.std.specs.Prelude.{◌<◌, ◌≤◌, ◌^◌, slice_index};

use compare::bands::{
    vuzgari_compare_noise_number, vuzgari_compare_noise_rounds, vuzgari_compare_noise_sigma,
};
use compare::floats::vuzgari_compare_milli;
use std::io;
use stored::floats::Column;
use stored::{Calls, UnknownLetter};
use vuzgari::{vuzgari_edge_width, vuzgari_noise};

#[derive(Clone, Copy)]
enum Call {
    // Starts an image.
    Image,
    // Sets the level of a quarter.
    Level,
    // Fills the image.
    Fill,
    // Sets a pixel.
    Pixel,
    // Asks for the noise.
    Noise,
    // Asks for the edge's width.
    Edge,
    // Starts a list of windows.
    Bands,
    // Adds windows to a band.
    Windows,
    // Asks for the rounds.
    Rounds,
    // Asks for the thousandths of a pattern.
    Milli,
}

impl TryFrom<u8> for Call {
    type Error = UnknownLetter;

    fn try_from(letter: u8) -> Result<Call, UnknownLetter> {
        match letter {
            b'i' => Ok(Call::Image),
            b'l' => Ok(Call::Level),
            b'f' => Ok(Call::Fill),
            b'p' => Ok(Call::Pixel),
            b'n' => Ok(Call::Noise),
            b'e' => Ok(Call::Edge),
            b'b' => Ok(Call::Bands),
            b'w' => Ok(Call::Windows),
            b'r' => Ok(Call::Rounds),
            b'm' => Ok(Call::Milli),
            _ => Err(UnknownLetter(letter)),
        }
    }
}

// The product of a's and b's last 14 bits.
fn times(a: u64, b: u64) -> u64
    ensures { result < 2 ^ 28 }
{
    (a % 16384) * (b % 16384)
}

// A quarter of an image's width: its level, and the share of the generator's byte that is added.
#[derive(Clone, Copy)]
struct Quarter {
    level: u64,
    share: u64,
}

#[derive(Drop)]
struct Image {
    pixels: [u8; 4096],
    w: usize,
    h: usize,
    quarters: [Quarter; 4],
}

impl Image {
    // The pixels that are lent, if there are as many as the sides say.
    fn lent(&self) -> Option<&[u8]> {
        let n = times(self.w as u64, self.h as u64) as usize;
        self.pixels.get(..n)
    }

    // Sets the pixel, if the image has room for it.
    fn set(&mut self, x: u64, y: u64, pixel: u8) {
        let k = (times(y, self.w as u64) + x % 16384) as usize;
        if k < 4096 {
            self.pixels[k] = pixel;
        }
    }

    // Fills the image row by row. A pixel has the level of its quarter, a slope times its column, and a share of the generator's
    // byte, up to 255.
    fn fill(&mut self, seed: u64, slope: u64) {
        let w = self.w;
        if w == 0 {
            return;
        }
        let mut state = (seed % 0x1_0000_0000) as u32;
        for k in 0..4096 {
            state = state.wrapping_mul(1_664_525).wrapping_add(1_013_904_223);
            let x = k % w;
            let quarter = self.quarters[x * 4 / w % 4];
            let drawn = times(u64::from(state >> 24), quarter.share) / 256;
            let sum = quarter.level % 256 + times(slope, x as u64) + drawn;
            self.pixels[k] = sum.min(255) as u8;
        }
    }

    fn noise(&self, rt: &impl Print) -> io::Result<()> {
        let Some(pixels) = self.lent() else {
            return Ok(());
        };
        let mut ints = [0; 12288];
        let mut floats = [0.0; 8194];
        let mut out = [0; 40];
        let number = vuzgari_noise(pixels, self.w, self.h, &mut ints, &mut floats, &mut out);
        stored::report_answer(rt, "noise", number)?;
        stored::report_bytes(rt, &out)
    }

    fn edge(&self, rt: &impl Print, cx: i32, cy: i32) -> io::Result<()> {
        let Some(pixels) = self.lent() else {
            return Ok(());
        };
        let code = vuzgari_edge_width(pixels, self.w, self.h, 0, 0, cx, cy);
        print!(rt; "edge {code:08x}")
    }
}

// Windows in four bands, each with its gate and its squared output, which the exported calls take as two lists; and where each
// band ends.
#[derive(Drop)]
struct Windows {
    gate: [f32; 4096],
    square: [f32; 4096],
    ends: [usize; 4],
    ghost in_order: { (slice_index ends 0 ≤ slice_index ends 1) × (slice_index ends 1 ≤ slice_index ends 2)
        × (slice_index ends 2 ≤ slice_index ends 3) × (slice_index ends 3 ≤ 4096) },
}

impl Windows {
    fn new() -> Windows {
        Windows {
            gate: [0.0; 4096],
            square: [0.0; 4096],
            ends: [0; 4],
        }
    }

    // So many more windows with this gate and squared output, as far as there is room. The band, and those after it, end behind
    // them.
    fn add(&mut self, band: usize, count: usize, gate: f32, square: f32) {
        let start = self.ends[3];
        let end = start.saturating_add(count).min(4096);
        self.gate[start..end].fill(gate);
        self.square[start..end].fill(square);
        self.ends[band.min(3)..].fill(end);
    }

    // What the rounds answer.
    fn rounds(&self, rt: &impl Print) -> io::Result<()> {
        let [e1, e2, e3, end] = self.ends;
        let gate = &self.gate[..end];
        let square = &self.square[..end];
        let number = vuzgari_compare_noise_number(gate, square, e1, e2, e3);
        let sigma = vuzgari_compare_noise_sigma(gate, square, e1, e2, e3);
        let count = vuzgari_compare_noise_rounds(gate, square, e1, e2, e3);
        stored::report_answer(rt, "windows", number)?;
        stored::report_floats(rt, &[sigma])?;
        print!(rt; " {count}")
    }
}

#[derive(Drop)]
struct Bench {
    image: Image,
    windows: Windows,
}

impl Calls<4> for Bench {
    type Call = Call;

    fn run(&mut self, rt: &impl Print, call: Call, columns: [u64; 4]) -> io::Result<()> {
        let [a, b, c, d] = columns;
        match call {
            Call::Image => {
                self.image.w = a as usize;
                self.image.h = b as usize;
                return Ok(());
            }
            Call::Level => {
                self.image.quarters[(a % 4) as usize] = Quarter { level: b, share: c };
                return Ok(());
            }
            Call::Fill => {
                self.image.fill(a, b);
                return Ok(());
            }
            Call::Pixel => {
                self.image.set(a, b, (c % 256) as u8);
                return Ok(());
            }
            Call::Bands => {
                // What lies past the ends is never read.
                self.windows.ends = [0; 4];
                return Ok(());
            }
            Call::Windows => {
                self.windows
                    .add(a as usize, b as usize, f32::of(c), f32::of(d));
                return Ok(());
            }
            Call::Noise => self.image.noise(rt)?,
            Call::Edge => self.image.edge(rt, i32::of(a), i32::of(b))?,
            Call::Rounds => self.windows.rounds(rt)?,
            Call::Milli => {
                stored::report_answer(rt, "milli", vuzgari_compare_milli(f32::of(a)))?
            }
        }
        println!(rt; "")
    }
}

fn main(rt: HostRuntime) -> io::Result<()> {
    let mut bench = Bench {
        image: Image {
            pixels: [0; 4096],
            w: 0,
            h: 0,
            quarters: [Quarter { level: 0, share: 0 }; 4],
        },
        windows: Windows::new(),
    };
    stored::replay(&rt, &mut bench)
}
