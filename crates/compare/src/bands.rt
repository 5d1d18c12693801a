// The rounds and the joining, a number an export. The bands end before e1, e2, e3 and the end.
// The facts stand in each contract, as C's caller owes them: C hands over slices and ends, and no Band.
ghost use Rattle.std.specs.Prelude.{◌≡◌, length};
ghost use Rattle.quantile.specs.Rising.{at};
ghost use Rattle.quantile.specs.Quantile.{quiet};
ghost use Rattle.sums.specs.Admitted.{admitted_at};
ghost use Rattle.sums.specs.Start.{mean_quiet};
ghost use Rattle.rounds.specs.Rounds.{band_variance, image_variance};
ghost use Rattle.numbers.specs.Numbers.{number_in};
ghost use Rattle.joining.specs.Joining.{variance_of, noise, figure_of};
ghost use Rattle.joining.specs.Windows.{windows_of};
ghost use Rattle.compare.specs.Bands.{BandsInOrder, starts};

use rounds::Image;
use sums::Band;

fn image<'a>(gate: &'a [f32], op: &'a [f32], e1: usize, e2: usize, e3: usize) -> Image<'a>
    requires { BandsInOrder gate.now op.now e1 e2 e3 }
    ensures { (result.all.gate.now ≡ gate.now) × (result.all.op.now ≡ op.now)
        × (result.starts ≡ starts gate.now e1 e2 e3) }
{
    Image {
        all: Band { gate, op },
        starts: [0, e1, e2, e3, gate.len()],
    }
}

pub fn vuzgari_compare_quantile(values: &[f32]) -> f32
    ensures { result ≡ quiet values.now }
{
    quantile::quantile(values)
}

pub fn vuzgari_compare_mean_quiet(op: &[f32], gate: &[f32], quiet: f32) -> f64
    requires { length gate.now ≡ length op.now }
    ensures { result ≡ mean_quiet op.now gate.now quiet }
{
    Band { gate, op }.mean_quiet(quiet)
}

pub fn vuzgari_compare_admitted_count(gate: &[f32], op: &[f32], gate_var: f64, op_var: f64) -> usize
    requires { length gate.now ≡ length op.now }
    ensures { result ≡ (admitted_at gate.now op.now gate_var op_var).n }
{
    Band { gate, op }.admitted(gate_var, op_var).n
}

pub fn vuzgari_compare_admitted_sum(gate: &[f32], op: &[f32], gate_var: f64, op_var: f64) -> f64
    requires { length gate.now ≡ length op.now }
    ensures { result ≡ (admitted_at gate.now op.now gate_var op_var).sum }
{
    Band { gate, op }.admitted(gate_var, op_var).sum
}

// The windows that a band's variance rests on, 0 where it has none.
pub fn vuzgari_compare_variance_count(gate: &[f32], op: &[f32], image_var: f64) -> usize
    requires { length gate.now ≡ length op.now }
    ensures { result ≡ windows_of (band_variance gate.now op.now image_var).found }
{
    rounds::variance(Band { gate, op }, image_var)
        .found
        .map_or(0, |found| found.n)
}

// The variance, and no number where there is none.
pub fn vuzgari_compare_variance(gate: &[f32], op: &[f32], image_var: f64) -> f64
    requires { length gate.now ≡ length op.now }
    ensures { result ≡ at (variance_of (band_variance gate.now op.now image_var).found) 0 }
{
    rounds::variance(Band { gate, op }, image_var)
        .found
        .map_or(f64::NAN, |found| found.var)
}

pub fn vuzgari_compare_variance_rounds(gate: &[f32], op: &[f32], image_var: f64) -> usize
    requires { length gate.now ≡ length op.now }
    ensures { result ≡ (band_variance gate.now op.now image_var).rounds }
{
    rounds::variance(Band { gate, op }, image_var).rounds
}

pub fn vuzgari_compare_image_variance(
    gate: &[f32],
    op: &[f32],
    e1: usize,
    e2: usize,
    e3: usize,
) -> f64
    requires { BandsInOrder gate.now op.now e1 e2 e3 }
    ensures { result ≡ (image_variance gate.now op.now (starts gate.now e1 e2 e3)).var }
{
    rounds::image_variance(image(gate, op, e1, e2, e3)).var
}

pub fn vuzgari_compare_image_rounds(
    gate: &[f32],
    op: &[f32],
    e1: usize,
    e2: usize,
    e3: usize,
) -> usize
    requires { BandsInOrder gate.now op.now e1 e2 e3 }
    ensures { result ≡ (image_variance gate.now op.now (starts gate.now e1 e2 e3)).rounds }
{
    rounds::image_variance(image(gate, op, e1, e2, e3)).rounds
}

pub fn vuzgari_compare_noise_number(
    gate: &[f32],
    op: &[f32],
    e1: usize,
    e2: usize,
    e3: usize,
) -> u32
    requires { BandsInOrder gate.now op.now e1 e2 e3 }
    ensures { result ≡ number_in (noise gate.now op.now (starts gate.now e1 e2 e3)).sigma }
{
    numbers::number_in(joining::noise_sigma(image(gate, op, e1, e2, e3)).sigma)
}

pub fn vuzgari_compare_noise_sigma(gate: &[f32], op: &[f32], e1: usize, e2: usize, e3: usize) -> f32
    requires { BandsInOrder gate.now op.now e1 e2 e3 }
    ensures { result ≡ figure_of (noise gate.now op.now (starts gate.now e1 e2 e3)).sigma }
{
    joining::noise_sigma(image(gate, op, e1, e2, e3))
        .sigma
        .unwrap_or(0.0)
}

pub fn vuzgari_compare_noise_rounds(
    gate: &[f32],
    op: &[f32],
    e1: usize,
    e2: usize,
    e3: usize,
) -> usize
    requires { BandsInOrder gate.now op.now e1 e2 e3 }
    ensures { result ≡ (noise gate.now op.now (starts gate.now e1 e2 e3)).rounds }
{
    joining::noise_sigma(image(gate, op, e1, e2, e3)).rounds
}
