// Sums over a band's windows: noise.rs, `Band::admitted` and `mean_quiet`.
#![tactic(auto)]

ghost use Rattle.std.specs.Prelude.{◌≡◌, ℕ, ◌+◌, ◌-◌, ◌*◌, ◌<◌, ◌≤◌, length, slice_range, if◌then◌else◌};
ghost use Rattle.quantile.specs.Tally.{tally};
ghost use Rattle.quantile.specs.Rising.{at};
ghost use Rattle.sums.specs.Admitted as Admitted;
ghost use Rattle.sums.specs.Admitted.{keeps, threshold, cut, block_sum, block_count, blocks_sum, admitted_at};
ghost use Rattle.sums.specs.Lanes.{Lanes, CountsFit, lanes_sum, lanes_count};
ghost use Rattle.sums.specs.Start.{mean_quiet};

// A window's gate is kept below this many times the variance.
const GATE: f64 = 20.0;
// The truncation of the output, in its standard deviations.
const TRUNC: f64 = 4.0;
// The operator's variance of the 8-bit rounding noise: the gate is never set tighter than by this.
pub const ROUNDING_OP_VAR: f64 = 400.0 / 12.0;
// Windows of a block.
const BLOCK: usize = 256;
// Blocks summed side by side.
const LANES: usize = 8;

// How many windows are admitted, and their sum.
#[derive(Clone, Copy)]
pub struct Total {
    pub n: usize,
    pub sum: f64,
}

// What a variance admits: a window whose gate is below the one and whose squared output is at most the other.
#[derive(Clone, Copy)]
struct Limits {
    gate: f32,
    op: f32,
}

// So many times a variance, which counts as 400 / 12 at least.
fn limit(factor: f64, var: f64) -> f32
    ensures { result ≡ Admitted.limit factor var }
{
    convert::to_f32(factor * float::max(var, ROUNDING_OP_VAR))
}

impl Limits {
    fn new(gate_var: f64, op_var: f64) -> Limits
        ensures { (result.gate ≡ threshold gate_var) × (result.op ≡ cut op_var) }
    {
        Limits {
            gate: limit(GATE, gate_var),
            op: limit(TRUNC * TRUNC, op_var),
        }
    }

    // Whether a window is admitted. No jump turns on it.
    fn keeps(self, gate: f32, op: f32) -> bool
        ensures { result ≡ keeps self.gate self.op gate op }
    {
        (gate < self.gate) & (op <= self.op)
    }

    // What a window adds to its block's sum.
    fn value(self, gate: f32, op: f32) -> f32
        ensures { result ≡ Admitted.value self.gate self.op gate op }
    {
        if self.keeps(gate, op) { op } else { 0.0 }
    }

    // What a window adds to its block's count.
    fn one(self, gate: f32, op: f32) -> u32
        ensures same { result ≡ (if keeps self.gate self.op gate op then 1 else 0) }
        ensures few { result ≤ 1 }
    {
        u32::from(self.keeps(gate, op))
    }
}

// The windows of a band: their gates, and as many squared outputs.
#[derive(Clone, Copy)]
pub struct Band<'a> {
    pub gate: &'a [f32],
    pub op: &'a [f32],
    ghost same: { length gate.now ≡ length op.now },
}

impl<'a> Band<'a> {
    // The windows from a to e.
    pub fn part(self, a: usize, e: usize) -> Band<'a>
        requires { (a ≤ e) × (e ≤ length self.gate.now) }
        ensures { (result.gate.now ≡ slice_range self.entry.gate.now a e)
            × (result.op.now ≡ slice_range self.entry.op.now a e) }
    {
        Band {
            gate: &self.gate[a..e],
            op: &self.op[a..e],
        }
    }

    // The windows whose gate is below 20 times gate_var and whose squared output is at most 16 times op_var, where neither
    // variance counts as less than 400 / 12.
    pub fn admitted(self, gate_var: f64, op_var: f64) -> Total
        ensures { result ≡ admitted_at self.entry.gate.now self.entry.op.now gate_var op_var }
    {
        let limits = Limits::new(gate_var, op_var);
        let eights = self.gate.len() / (LANES * BLOCK);
        let mut k = self.side_by_side(eights, limits);
        for i in eights * LANES..self.gate.len().div_ceil(BLOCK) {
            let a = i * BLOCK;
            let m = BLOCK.min(self.gate.len() - a);
            k.sum += f64::from(self.block_sum(a, m, limits));
            k.n += self.block_count(a, m, limits);
        }
        k
    }

    // The sum of the admitted ones of the m windows from window a on. Sum and count by a loop each have no jump a window. Here
    // and below a, m and limits are one call's: a struct of them would be made for that call, and taken apart in it.
    fn block_sum(self, a: usize, m: usize, limits: Limits) -> f32
        requires { a + m ≤ length self.gate.now }
        ensures { result ≡ block_sum limits.gate limits.op self.entry.gate.now self.entry.op.now a m }
    {
        let mut sum = 0.0f32;
        for k in 0..m {
            sum += limits.value(self.gate[a + k], self.op[a + k]);
        }
        sum
    }

    // How many of them are admitted.
    fn block_count(self, a: usize, m: usize, limits: Limits) -> usize
        requires { (a + m ≤ length self.gate.now) × (m ≤ 256) }
        ensures { result ≡ block_count limits.gate limits.op self.entry.gate.now self.entry.op.now a m }
    {
        let mut n = 0u32;
        for k in 0..m {
            n += limits.one(self.gate[a + k], self.op[a + k]);
        }
        n as usize
    }

    // The first m times eight blocks, eight at a time, so that no sum waits on one chain of additions.
    fn side_by_side(self, m: usize, limits: Limits) -> Total
        requires { m * 2048 ≤ length self.gate.now }
        ensures n { result.n
            ≡ tally (λ (k : ℕ). keeps limits.gate limits.op (at self.entry.gate.now k) (at self.entry.op.now k)) (m * 2048) }
        ensures sum { result.sum ≡ blocks_sum limits.gate limits.op self.entry.gate.now self.entry.op.now (m * 8) }
    {
        let mut k = Total { n: 0, sum: 0.0 };
        for j in 0..m {
            k = self.eight(j * (LANES * BLOCK), limits).added_to(k);
        }
        k
    }

    // The eight blocks from window a on.
    fn eight(self, a: usize, limits: Limits) -> Eight
        requires { a + 2048 ≤ length self.gate.now }
        ensures { Lanes limits.gate limits.op self.entry.gate.now self.entry.op.now a 256 result.sums result.counts }
    {
        let mut eight = Eight {
            sums: [0.0; LANES],
            counts: [0; LANES],
        };
        for i in 0..BLOCK {
            eight.add_window(self, a, i, limits);
        }
        eight
    }

    // The mean squared output of the windows whose gate is at most quiet (0 if none), summed in window order. By place, as each
    // loop here over gates and outputs, or sums and counts: with a `zip`, tried here, the turns (`loop-gate-preserved`) stay
    // open, which this form proves by itself.
    pub fn mean_quiet(self, quiet: f32) -> f64
        ensures { result ≡ mean_quiet self.entry.op.now self.entry.gate.now quiet }
    {
        let mut sum = 0.0f64;
        let mut n: usize = 0;
        for k in 0..self.gate.len() {
            if self.gate[k] <= quiet {
                sum += f64::from(self.op[k]);
                n += 1;
            }
        }
        if n == 0 {
            return 0.0;
        }
        sum / std::num::nearest_usize_to_f64(n)
    }
}

// The sums and the counts of eight blocks, a lane each: two columns, as both are added to eight at a time.
#[derive(Clone, Copy)]
struct Eight {
    sums: [f32; LANES],
    counts: [u32; LANES],
}

impl Eight {
    // Window i of each of the eight blocks from window a on.
    fn add_window(&mut self, band: Band, a: usize, i: usize, limits: Limits)
        requires { (a + 2048 ≤ length band.gate.now) × (i < 256)
            × Lanes limits.gate limits.op band.gate.now band.op.now a i self.old.sums self.old.counts }
        ensures { Lanes limits.gate limits.op band.entry.gate.now band.entry.op.now a (i + 1) self.new.sums self.new.counts }
    {
        for l in 0..LANES {
            let k = a + l * BLOCK + i;
            self.sums[l] += limits.value(band.gate[k], band.op[k]);
            self.counts[l] += limits.one(band.gate[k], band.op[k]);
        }
    }

    // k and the eight lanes, in block order.
    fn added_to(self, mut k: Total) -> Total
        requires { (k.n < 9223372036854775808) × CountsFit self.counts }
        ensures { (result.n ≡ lanes_count self.counts k.n 8) × (result.sum ≡ lanes_sum self.sums k.sum 8) }
    {
        for l in 0..LANES {
            k.sum += f64::from(self.sums[l]);
            k.n += self.counts[l] as usize;
        }
        k
    }
}
