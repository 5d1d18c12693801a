// The square of pixels that an accumulator covers.
#![tactic(auto)]

ghost use Rattle.std.specs.Prelude.{◌≡◌, ◌+◌, ◌*◌, ◌<◌, ◌≤◌};
ghost use Rattle.support.specs.Support.{state_judged};
ghost use Rattle.support.specs.Steps.{past_origin};

use numbers::Number;

// What refuses a support, if anything does.
#[tactic(auto, unfolding(crate::specs::Support::after_state))]
pub fn judge(origin: [i32; 2], side: usize) -> Result<(), Number>
    ensures { result ≡ state_judged origin side }
{
    if limits::far_place(origin) {
        return Err(Number::Far);
    }
    if side > 32 {
        return Err(Number::Support);
    }
    Ok(())
}

// How far x lies past o, where that is one of the `side` places from o on.
#[tactic(auto, unfolding(crate::specs::Steps::past))]
pub fn past_origin(x: i32, o: i32, side: usize) -> Option<usize>
    ensures { result ≡ past_origin x o side }
{
    let i = usize::try_from(i64::from(x) - i64::from(o)).ok()?;
    (i < side).then_some(i)
}

// The cell of the pixel in row j and column i of the support.
pub fn index(i: usize, j: usize, side: usize) -> usize
    requires { (i < side) × (j < side) × (side ≤ 32) }
    ensures { (result ≡ j * side + i) × (result < 1024) }
{
    j * side + i
}
