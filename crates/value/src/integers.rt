ghost use Rattle.std.specs.Prelude.{◌≡◌};
ghost use Rattle.value.specs.Operations.{counted};

use crate::codes::{Cause, Operation};

// What the operation gives for two numbers of 32 bits.
#[tactic(auto, using(std::proofs::lemmas::Int::wraps))]
pub fn combine(op: Operation, a: i32, b: i32) -> Result<i32, Cause>
    ensures { result ≡ counted op a b }
{
    match op {
        Operation::Sum => Ok(a.wrapping_add(b)),
        Operation::Difference => Ok(a.wrapping_sub(b)),
        Operation::Smaller => Ok(a.min(b)),
        Operation::Equal => Ok(i32::from(a == b)),
        Operation::Less => Ok(i32::from(a < b)),
        Operation::Quotient if b == 0 => Err(Cause::ZeroDivisor),
        Operation::Quotient => a.checked_div(b).ok_or(Cause::Overflow),
    }
}
