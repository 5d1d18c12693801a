ghost use Rattle.std.specs.Prelude.{◌≡◌, length};
ghost use Rattle.quantile.specs.Rising.{at};
ghost use Rattle.quantile.specs.Quantile.{quiet};
ghost use Rattle.sums.specs.Admitted.{admitted_at};
ghost use Rattle.sums.specs.Start.{mean_quiet};
ghost use Rattle.rounds.specs.Rounds.{band_variance, image_variance};
ghost use Rattle.numbers.specs.Numbers.{number_in};
ghost use Rattle.joining.specs.Joining.{variance_of, noise, figure_of};
ghost use Rattle.joining.specs.Windows.{windows_of};
ghost use Rattle.compare.specs.Bands.{BandsInOrder, starts};

#[unsafe(no_mangle)]
pub extern "C" fn vuzgari_compare_quantile(values: &[f32]) -> f32
    ensures { result ≡ quiet values.now }
{
    compare::bands::vuzgari_compare_quantile(values)
}

#[unsafe(no_mangle)]
pub extern "C" fn vuzgari_compare_mean_quiet(op: &[f32], gate: &[f32], quiet: f32) -> f64
    requires { length gate.now ≡ length op.now }
    ensures { result ≡ mean_quiet op.now gate.now quiet }
{
    compare::bands::vuzgari_compare_mean_quiet(op, gate, quiet)
}

#[unsafe(no_mangle)]
pub extern "C" fn vuzgari_compare_admitted_count(
    gate: &[f32],
    op: &[f32],
    gate_var: f64,
    op_var: f64,
) -> usize
    requires { length gate.now ≡ length op.now }
    ensures { result ≡ (admitted_at gate.now op.now gate_var op_var).n }
{
    compare::bands::vuzgari_compare_admitted_count(gate, op, gate_var, op_var)
}

#[unsafe(no_mangle)]
pub extern "C" fn vuzgari_compare_admitted_sum(
    gate: &[f32],
    op: &[f32],
    gate_var: f64,
    op_var: f64,
) -> f64
    requires { length gate.now ≡ length op.now }
    ensures { result ≡ (admitted_at gate.now op.now gate_var op_var).sum }
{
    compare::bands::vuzgari_compare_admitted_sum(gate, op, gate_var, op_var)
}

// The windows that a band's variance rests on, 0 where it has none.
#[unsafe(no_mangle)]
pub extern "C" fn vuzgari_compare_variance_count(gate: &[f32], op: &[f32], image_var: f64) -> usize
    requires { length gate.now ≡ length op.now }
    ensures { result ≡ windows_of (band_variance gate.now op.now image_var).found }
{
    compare::bands::vuzgari_compare_variance_count(gate, op, image_var)
}

// The variance, and no number where there is none.
#[unsafe(no_mangle)]
pub extern "C" fn vuzgari_compare_variance(gate: &[f32], op: &[f32], image_var: f64) -> f64
    requires { length gate.now ≡ length op.now }
    ensures { result ≡ at (variance_of (band_variance gate.now op.now image_var).found) 0 }
{
    compare::bands::vuzgari_compare_variance(gate, op, image_var)
}

#[unsafe(no_mangle)]
pub extern "C" fn vuzgari_compare_variance_rounds(gate: &[f32], op: &[f32], image_var: f64) -> usize
    requires { length gate.now ≡ length op.now }
    ensures { result ≡ (band_variance gate.now op.now image_var).rounds }
{
    compare::bands::vuzgari_compare_variance_rounds(gate, op, image_var)
}

#[unsafe(no_mangle)]
pub extern "C" fn vuzgari_compare_image_variance(
    gate: &[f32],
    op: &[f32],
    e1: usize,
    e2: usize,
    e3: usize,
) -> f64
    requires { BandsInOrder gate.now op.now e1 e2 e3 }
    ensures { result ≡ (image_variance gate.now op.now (starts gate.now e1 e2 e3)).var }
{
    compare::bands::vuzgari_compare_image_variance(gate, op, e1, e2, e3)
}

#[unsafe(no_mangle)]
pub extern "C" fn vuzgari_compare_image_rounds(
    gate: &[f32],
    op: &[f32],
    e1: usize,
    e2: usize,
    e3: usize,
) -> usize
    requires { BandsInOrder gate.now op.now e1 e2 e3 }
    ensures { result ≡ (image_variance gate.now op.now (starts gate.now e1 e2 e3)).rounds }
{
    compare::bands::vuzgari_compare_image_rounds(gate, op, e1, e2, e3)
}

#[unsafe(no_mangle)]
pub extern "C" fn vuzgari_compare_noise_number(
    gate: &[f32],
    op: &[f32],
    e1: usize,
    e2: usize,
    e3: usize,
) -> u32
    requires { BandsInOrder gate.now op.now e1 e2 e3 }
    ensures { result ≡ number_in (noise gate.now op.now (starts gate.now e1 e2 e3)).sigma }
{
    compare::bands::vuzgari_compare_noise_number(gate, op, e1, e2, e3)
}

#[unsafe(no_mangle)]
pub extern "C" fn vuzgari_compare_noise_sigma(
    gate: &[f32],
    op: &[f32],
    e1: usize,
    e2: usize,
    e3: usize,
) -> f32
    requires { BandsInOrder gate.now op.now e1 e2 e3 }
    ensures { result ≡ figure_of (noise gate.now op.now (starts gate.now e1 e2 e3)).sigma }
{
    compare::bands::vuzgari_compare_noise_sigma(gate, op, e1, e2, e3)
}

#[unsafe(no_mangle)]
pub extern "C" fn vuzgari_compare_noise_rounds(
    gate: &[f32],
    op: &[f32],
    e1: usize,
    e2: usize,
    e3: usize,
) -> usize
    requires { BandsInOrder gate.now op.now e1 e2 e3 }
    ensures { result ≡ (noise gate.now op.now (starts gate.now e1 e2 e3)).rounds }
{
    compare::bands::vuzgari_compare_noise_rounds(gate, op, e1, e2, e3)
}
