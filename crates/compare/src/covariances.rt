// What an answer is to C: its number, and its figures in a lent slice.
ghost use Rattle.std.specs.Prelude.{◌≡◌};
ghost use Rattle.compare.specs.Lent.{covariance_from, entries, Told, ToldFloats};

use numbers::Number;
use refine::PositionCovariance;

// The number, and the floats, zeros where there are none.
pub fn lay<const N: usize>(answer: Result<[f32; N], Number>, out: &mut [f32; N]) -> u32
    ensures { ToldFloats N answer.entry result out.new }
{
    match answer {
        Ok(floats) => {
            *out = floats;
            0
        }
        Err(why) => {
            out.fill(0.0);
            u32::from(why)
        }
    }
}

// A covariance's three floats. A function, as `covariance_of` is.
fn entries_of(c: PositionCovariance) -> [f32; 3]
    ensures { result ≡ entries c }
{
    [c.xx, c.xy, c.yy]
}

// A covariance, by its floats.
pub fn told(answer: Result<PositionCovariance, Number>, out: &mut [f32; 3]) -> u32
    ensures { Told answer result out.new }
{
    lay(answer.map(entries_of), out)
}

// The covariance with these floats. A function, not `From<[f32; 3]>`: that would be refine's to have, and only C lends floats so.
pub fn covariance_of(floats: &[f32; 3]) -> PositionCovariance
    ensures { result ≡ covariance_from floats.now }
{
    PositionCovariance::new(floats[0], floats[1], floats[2])
}
