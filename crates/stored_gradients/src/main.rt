// Replays stored calls of the gradient accumulator: a list on standard input, what each call answers on standard output.
// `oracle/compare --store gradients` makes both anew.
#![tactic(auto)]

use compare::pixel_gradients::{
    vuzgari_compare_add, vuzgari_compare_covariance, vuzgari_compare_reset,
};
use gradients::PixelGradients;
use std::io;
use stored::floats::Column;
use stored::{Calls, UnknownLetter};

#[derive(Clone, Copy)]
enum Call {
    // Sets the state's origin and side without a call.
    Set,
    // Resets the state to an origin and a side.
    Reset,
    // Adds at a pixel.
    Add,
    // Asks for the covariance.
    Covariance,
}

impl TryFrom<u8> for Call {
    type Error = UnknownLetter;

    fn try_from(letter: u8) -> Result<Call, UnknownLetter> {
        match letter {
            b's' => Ok(Call::Set),
            b'r' => Ok(Call::Reset),
            b'a' => Ok(Call::Add),
            b'c' => Ok(Call::Covariance),
            _ => Err(UnknownLetter(letter)),
        }
    }
}

// The accumulator's state, which the exported calls lend by its parts.
#[derive(Drop)]
struct State(PixelGradients);

impl Calls<4> for State {
    type Call = Call;

    fn run(&mut self, rt: &impl Print, call: Call, columns: [u64; 4]) -> io::Result<()> {
        let PixelGradients {
            origin,
            side,
            gx,
            gy,
        } = &mut self.0;
        let [a, b, c, d] = columns;
        let x = i32::of(a);
        let y = i32::of(b);
        match call {
            Call::Set => {
                *origin = [x, y];
                *side = c as usize;
                return Ok(());
            }
            Call::Reset => {
                let number = vuzgari_compare_reset(origin, side, gx, gy, x, y, c as usize);
                stored::report_answer(rt, "reset", number)?;
            }
            Call::Add => {
                let (vx, vy) = (f32::of(c), f32::of(d));
                let number = vuzgari_compare_add(origin, side, gx, gy, x, y, vx, vy);
                stored::report_answer(rt, "add", number)?;
            }
            Call::Covariance => {
                let mut out = [0.0; 3];
                let number = vuzgari_compare_covariance(origin, *side, gx, gy, &mut out);
                stored::report_answer(rt, "covariance", number)?;
                stored::report_floats(rt, &out)?;
            }
        }
        println!(rt; "")
    }
}

fn main(rt: HostRuntime) -> io::Result<()> {
    stored::replay(&rt, &mut State(PixelGradients::default()))
}
