ghost use Rattle.std.specs.Prelude.{◌≡◌, ◌≢◌, pos, negsuc, int_div, FitsSigned};
ghost use Rattle.std.specs.Int.{w64};
ghost use Rattle.gv_values.specs.Arithmetic.{arith_of, floor_div, floor_rem, rounds};

use crate::arith::Arith;
use crate::fault::FaultKind;

/// The result of the operation; `OverflowError` past 64 bits, and `ZeroDivisionError` at the divisor 0.
pub fn arith(op: Arith, a: i64, b: i64) -> Result<i64, FaultKind>
    ensures { result ≡ arith_of op a b }
{
    match op {
        Arith::Add => a.checked_add(b).ok_or(FaultKind::OverflowError),
        Arith::Sub => a.checked_sub(b).ok_or(FaultKind::OverflowError),
        Arith::Mul => a.checked_mul(b).ok_or(FaultKind::OverflowError),
        Arith::Div => quotient(a, b),
        Arith::Rem => rest(a, b),
    }
}

#[tactic(auto, unfolding(crate::specs::Arithmetic::rounds))]
fn quotient(a: i64, b: i64) -> Result<i64, FaultKind>
    ensures { result ≡ arith_of Arith.Div a b }
{
    if b == 0 {
        return Err(FaultKind::ZeroDivisionError);
    }
    // The one quotient that does not fit.
    if a == i64::MIN && b == -1 {
        return Err(FaultKind::OverflowError);
    }
    Ok(floor_quotient(a, b))
}

#[tactic(auto, unfolding(crate::specs::Arithmetic::rounds))]
fn rest(a: i64, b: i64) -> Result<i64, FaultKind>
    ensures { result ≡ arith_of Arith.Rem a b }
{
    if b == 0 {
        return Err(FaultKind::ZeroDivisionError);
    }
    // The quotient of the least integer by -1 does not fit, and the rest by -1 is always 0.
    if b == -1 {
        return Ok(0);
    }
    Ok(floor_rest(a, b))
}

#[tactic(auto, unfolding(crate::specs::Arithmetic::rounds))]
fn rounds(a: i64, b: i64) -> bool
    requires divisor { b ≢ pos 0 }
    requires fits { FitsSigned w64 (int_div a b) }
    ensures { result ≡ rounds a b }
{
    a % b != 0 && (a < 0) != (b < 0)
}

#[tactic(auto, unfolding(crate::specs::Arithmetic::rounds))]
fn floor_quotient(a: i64, b: i64) -> i64
    requires divisor { b ≢ pos 0 }
    requires fits { FitsSigned w64 (int_div a b) }
    ensures { result ≡ floor_div a b }
{
    let quotient = a / b;
    if rounds(a, b) { quotient - 1 } else { quotient }
}

#[tactic(auto, unfolding(crate::specs::Arithmetic::rounds))]
fn floor_rest(a: i64, b: i64) -> i64
    requires divisor { b ≢ pos 0 }
    requires fits { b ≢ negsuc 0 }
    ensures { result ≡ floor_rem a b }
{
    let rest = a % b;
    let rounds = rest != 0 && (a < 0) != (b < 0);
    if rounds { rest + b } else { rest }
}
