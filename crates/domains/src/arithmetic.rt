//! Whole numbers at 32 and 64 bits: sums and products that wrap, and division that rounds down.

ghost use Rattle.std.specs.Prelude.{◌≡◌, ℕ, pos, ◌^◌, ◌<◌, ◌+ℤ◌, ◌-ℤ◌, ◌*ℤ◌, ◌≤ℤ◌, ◌<ℤ◌, unsigned_abs, neg_ℤ};
ghost use Rattle.domains.specs.Arithmetic.{wrapped, wrapped_long, floor_div, floor_rem};

/// `a + b`, wrapped at 32 bits.
#[inline]
#[tactic(auto, using(std::proofs::lemmas::Int::wraps))]
pub fn wrapping_add(a: i32, b: i32) -> i32
    ensures { result ≡ wrapped (a +ℤ b) }
{
    a.wrapping_add(b)
}

/// `a - b`, wrapped at 32 bits.
#[inline]
#[tactic(auto, using(std::proofs::lemmas::Int::wraps))]
pub fn wrapping_sub(a: i32, b: i32) -> i32
    ensures { result ≡ wrapped (a -ℤ b) }
{
    a.wrapping_sub(b)
}

/// `a * b`, wrapped at 32 bits.
#[inline]
#[tactic(auto, using(std::proofs::lemmas::Int::wraps))]
pub fn wrapping_mul(a: i32, b: i32) -> i32
    ensures { result ≡ wrapped (a *ℤ b) }
{
    a.wrapping_mul(b)
}

/// `-a`, wrapped at 32 bits: the least number is its own negation.
#[inline]
#[tactic(auto, using(std::proofs::lemmas::Int::wraps))]
pub fn wrapping_neg(a: i32) -> i32
    ensures { result ≡ wrapped (neg_ℤ a) }
{
    a.wrapping_neg()
}

/// The absolute value of `a`, wrapped at 32 bits: that of the least number is itself.
#[inline]
pub fn wrapping_abs(a: i32) -> i32
    ensures { result ≡ wrapped (pos (unsigned_abs a)) }
{
    a.wrapping_abs()
}

/// `a * 2^count`, wrapped at 32 bits.
#[inline]
pub fn wrapping_shl(a: i32, count: u32) -> i32
    requires { count < 32 }
    ensures { result ≡ wrapped (a *ℤ pos (2 ^ count)) }
{
    a << count
}

/// `a / 2^count`, rounded down.
#[inline]
pub fn floor_shr(a: i32, count: u32) -> i32
    requires { count < 32 }
    ensures { result ≡ floor_div a (pos (2 ^ count)) }
{
    a >> count
}

/// `a / divisor`, rounded down: -7 / 2 is -4.
#[inline]
pub fn floor_div(a: i32, divisor: i32) -> i32
    requires { pos 0 <ℤ divisor }
    ensures { result ≡ floor_div a divisor }
{
    a.div_euclid(divisor)
}

/// What `floor_div` leaves, from 0 up to below the divisor: -7 % 2 is 1.
#[inline]
pub fn floor_rem(a: i32, divisor: i32) -> i32
    requires { pos 0 <ℤ divisor }
    ensures { result ≡ floor_rem a divisor }
{
    a.rem_euclid(divisor)
}

/// `sum + other`, wrapped at 64 bits.
#[inline]
#[tactic(auto, using(std::proofs::lemmas::Int::wraps))]
pub fn add_wrapping_at_64_bits(sum: i64, other: i64) -> i64
    ensures { result ≡ wrapped_long (sum +ℤ other) }
{
    sum.wrapping_add(other)
}

/// `sum + v`, where `v` is widened first, wrapped at 64 bits.
#[inline]
pub fn add_int32_wrapping_at_64_bits(sum: i64, v: i32) -> i64
    ensures { result ≡ wrapped_long (sum +ℤ v) }
{
    add_wrapping_at_64_bits(sum, i64::from(v))
}
