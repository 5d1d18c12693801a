// Replays stored calls of the systematic model and the covariance model: a list on standard input, what each call answers on
// standard output. `oracle/compare --store model` makes both anew.
#![tactic(auto)]

use compare::covariance_model::{
    vuzgari_compare_at, vuzgari_compare_model, vuzgari_compare_noise_at, vuzgari_compare_total,
};
use model::SystematicModel;
use std::io;
use stored::floats::Column;
use stored::{Calls, UnknownLetter};

#[derive(Clone, Copy)]
enum Call {
    // Starts anew with a count of knots and a floor.
    Start,
    // Sets a knot.
    Knot,
    // Asks the systematic model for gain and residual at a width.
    At,
    // Asks for the covariance model.
    Model,
    // Asks the covariance model for the noise part alone.
    NoiseAt,
    // Asks the covariance model for the whole covariance.
    Total,
}

impl TryFrom<u8> for Call {
    type Error = UnknownLetter;

    fn try_from(letter: u8) -> Result<Call, UnknownLetter> {
        match letter {
            b's' => Ok(Call::Start),
            b'k' => Ok(Call::Knot),
            b'a' => Ok(Call::At),
            b'm' => Ok(Call::Model),
            b'n' => Ok(Call::NoiseAt),
            b't' => Ok(Call::Total),
            _ => Err(UnknownLetter(letter)),
        }
    }
}

// The systematic model, which the exported calls take by its fields.
#[derive(Drop)]
struct Systematic(SystematicModel);

impl Systematic {
    // As many knots, all zeros, and the floor.
    fn start(count: usize, floor: f32) -> Systematic {
        Systematic(SystematicModel {
            widths: [0.0; 16],
            gains: [0.0; 16],
            residuals: [0.0; 16],
            count,
            floor,
        })
    }

    fn set(&mut self, k: usize, width: f32, gain: f32, residual: f32) {
        if k < 16 {
            self.0.widths[k] = width;
            self.0.gains[k] = gain;
            self.0.residuals[k] = residual;
        }
    }

    // Gain and residual at the width, if it is known.
    fn at(&self, rt: &impl Print, width: Option<f32>) -> io::Result<()> {
        let s = &self.0;
        let mut out = [0.0; 2];
        let number = vuzgari_compare_at(
            &s.widths,
            &s.gains,
            &s.residuals,
            s.count,
            s.floor,
            width.is_some(),
            width.unwrap_or(0.0),
            &mut out,
        );
        stored::report_answer(rt, "at", number)?;
        stored::report_floats(rt, &out)
    }

    // The model of the width, if it is known, and of the grid, the noise part and the offset in the columns.
    fn model(&self, rt: &impl Print, width: Option<f32>, columns: [f32; 9]) -> io::Result<()> {
        let [_, _, grid, a, b, c, x, y, _] = columns;
        let s = &self.0;
        let mut out = [0.0; 8];
        let number = vuzgari_compare_model(
            &s.widths,
            &s.gains,
            &s.residuals,
            s.count,
            s.floor,
            &[a, b, c],
            &[x, y],
            width.is_some(),
            width.unwrap_or(0.0),
            grid,
            &mut out,
        );
        stored::report_answer(rt, "model", number)?;
        stored::report_floats(rt, &out)
    }
}

// What `ask` answers of the noise part, the systematic part, the growth and sigma.
fn level<F>(rt: &impl Print, name: &str, columns: [f32; 9], ask: F) -> io::Result<()>
where
    F: FnOnce(&[f32; 3], &[f32; 3], &[f32; 2], f32, &mut [f32; 3]) -> u32,
    requires { F.IsAlwaysCallable ask }
{
    let [a, b, c, d, e, f, x, y, sigma] = columns;
    let mut out = [0.0; 3];
    let number = ask(&[a, b, c], &[d, e, f], &[x, y], sigma, &mut out);
    stored::report_answer(rt, name, number)?;
    stored::report_floats(rt, &out)
}

impl Calls<9> for Systematic {
    type Call = Call;

    fn run(&mut self, rt: &impl Print, call: Call, columns: [u64; 9]) -> io::Result<()> {
        let first = columns[0];
        let floats = columns.map(f32::of);
        let width = (first != 0).then_some(floats[1]);
        match call {
            Call::Start => {
                *self = Systematic::start(first as usize, floats[1]);
                return Ok(());
            }
            Call::Knot => {
                self.set((first % 16) as usize, floats[1], floats[2], floats[3]);
                return Ok(());
            }
            Call::At => self.at(rt, width)?,
            Call::Model => self.model(rt, width, floats)?,
            Call::NoiseAt => level(rt, "noise_at", floats, vuzgari_compare_noise_at)?,
            Call::Total => level(rt, "total", floats, vuzgari_compare_total)?,
        }
        println!(rt; "")
    }
}

fn main(rt: HostRuntime) -> io::Result<()> {
    stored::replay(&rt, &mut Systematic::start(0, 0.0))
}
