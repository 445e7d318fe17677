//! Whole-number arithmetic as Python 2.7 has it: a quotient is rounded down, and a remainder has the divisor's sign.
ghost use Rattle.std.specs.Prelude.{◌≡◌, ◌≢◌, ◌↔◌, IsTrue, ℤ, pos, negsuc};
ghost use Rattle.py_data.specs.Arithmetic.{floor_quotient, floor_remainder, IsAcross, IsFloorDivision};

/// Whether 0 lies between two numbers.
fn is_across(a: i64, b: i64) -> bool
    ensures { IsTrue result ↔ IsAcross a b }
{
    (a < 0 && b > 0) || (a > 0 && b < 0)
}

/// The quotient of two whole numbers, rounded down, as `a / b` and `a // b` of Python 2.7 give it.
///
/// The one quotient of 64-bit numbers that 64 bits can't hold, that of the least number by -1, is the caller's to rule
/// out.
pub fn floor_divide(a: i64, b: i64) -> i64
    requires divisor { b ≢ pos 0 }
    requires fits { a ≡ negsuc 9223372036854775807 → b ≢ negsuc 0 }
    ensures { result ≡ floor_quotient a b }
{
    let quotient = a / b;
    if is_across(a % b, b) {
        quotient - 1
    } else {
        quotient
    }
}

/// What a division rounded down leaves, as `a % b` of Python 2.7 gives it: 0, or a number on the divisor's side of 0.
pub fn floor_modulo(a: i64, b: i64) -> i64
    requires { b ≢ pos 0 }
    ensures { result ≡ floor_remainder a b }
{
    if b == -1 {
        return 0;
    }
    let rest = a % b;
    if is_across(rest, b) { rest + b } else { rest }
}

/// The law of both: they make the dividend up again, what is left is on the divisor's side of 0 and nearer to 0 than
/// it, and no other two numbers do so.
pub fn floor_division_law()
    ensures divides { (a b : ℤ) → b ≢ pos 0
        → IsFloorDivision a b (floor_quotient a b) (floor_remainder a b) }
    ensures alone { (a b q r : ℤ) → b ≢ pos 0 → IsFloorDivision a b q r
        → (q ≡ floor_quotient a b) × (r ≡ floor_remainder a b) }
{}
