// Exact arithmetic on i64: each operation answers the exact result, or says why there is none.
#![tactic(auto)]

ghost use Rattle.std.specs.Prelude.{◌≡◌, pos, nat_abs};
ghost use Rattle.std.specs.Int.Signed.{lt_z};
ghost use Rattle.std.specs.Prelude.{if◌then◌else◌};
ghost use Rattle.arith.specs.Exact.{add_of, sub_of, mul_of, div_of, signed, unsigned};

// The largest value, and the largest sum of balances: `largest` in specs/Balance.antt.
pub const LARGEST: i64 = 9223372036854775807;

// Why an operation has no result of 64 signed bits.
#[derive(Clone, Copy, Debug, PartialEq, Eq)]
pub enum NoResult {
    Overflow,
    ZeroDivisor,
}

// The sum a + b, or Overflow where it is outside the range.
pub fn add(a: i64, b: i64) -> Result<i64, NoResult>
    ensures { result ≡ add_of a b }
{
    a.checked_add(b).ok_or(NoResult::Overflow)
}

// The difference a - b, or Overflow where it is outside the range.
pub fn sub(a: i64, b: i64) -> Result<i64, NoResult>
    ensures { result ≡ sub_of a b }
{
    a.checked_sub(b).ok_or(NoResult::Overflow)
}

// The product a b, or Overflow where it is outside the range.
pub fn mul(a: i64, b: i64) -> Result<i64, NoResult>
    ensures { result ≡ mul_of a b }
{
    a.checked_mul(b).ok_or(NoResult::Overflow)
}

// Whether a rest is on the other side of 0 than the divisor b.
fn opposed(rest: i64, b: i64) -> bool
    ensures { result ≡ (if lt_z b (pos 0) then lt_z (pos 0) rest else lt_z rest (pos 0)) }
{
    if b < 0 { 0 < rest } else { rest < 0 }
}

// The quotient of a by b, rounded toward minus infinity: one less than the truncated one where the
// rest is on the other side of 0 than b. ZeroDivisor for b = 0, and Overflow for -2^63 by -1.
pub fn div(a: i64, b: i64) -> Result<i64, NoResult>
    ensures { result ≡ div_of a b }
{
    if b == 0 {
        return Err(NoResult::ZeroDivisor);
    }
    let Some(q) = a.checked_div(b) else {
        return Err(NoResult::Overflow);
    };
    if opposed(a % b, b) { Ok(q - 1) } else { Ok(q) }
}

// A number without its sign.
pub fn magnitude(z: i64) -> u64
    ensures { result ≡ nat_abs z }
{
    z.unsigned_abs()
}

// The integer that 64 bits name in two's complement.
pub fn signed64(n: u64) -> i64
    ensures { result ≡ signed 64 n }
{
    n.cast_signed()
}

// The integer that 32 bits name in two's complement: a sign extension.
pub fn signed32(n: u32) -> i64
    ensures { result ≡ signed 32 n }
{
    i64::from(n.cast_signed())
}

// The 64 bits that name z in two's complement.
pub fn unsigned64(z: i64) -> u64
    ensures { result ≡ unsigned 64 z }
{
    z.cast_unsigned()
}
