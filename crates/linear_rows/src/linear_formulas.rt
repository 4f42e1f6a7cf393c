#![tactic(auto)]
//! The sum in a formula, and what is made of it.

ghost use Rattle.std.specs.Prelude.{◌≡◌, ◌≤ℤ◌, ◌*ℤ◌, true, pos, negsuc, IfSome};
ghost use Rattle.job.specs.Values.{Valuation, formula_value};
ghost use Rattle.job.specs.Views.{formula_view};
ghost use Rattle.job.specs.Formula.{literal as quotient};
ghost use Rattle.job.specs.Reads.{reads_in};
ghost use Rattle.linear_rows.specs.inside.Divisions.{is_division};
ghost use Rattle.linear_rows.specs.inside.LinearSums.{made, is_joined, is_linear_operator, IsMadeOf};
ghost use Rattle.std.specs.Prelude.{ℤ, []};
ghost use Rattle.domains.specs.Arithmetic.{clamped};
ghost use Rattle.std.specs.Int.{int_min, int_max};

use crate::linear_make::LinearMake;
use domains::arithmetic::wrapping_neg;
use job::Formula;
use operators::{BinaryOp, LiteralOp, TernaryOp, UnaryOp};

/// A number of the text, or one with the other sign.
pub(crate) fn find_linear_bound(formula: &Formula) -> Option<i32>
    ensures value { IfSome result (λ it. (env : Valuation) (r c : ℤ)
        → formula_value env (formula_view formula.now) r c ≡ it) }
    ensures reads { IfSome result (λ it. reads_in (formula_view formula.now) ≡ []) }
{
    match formula {
        Formula::Number(number) => Some(*number),
        Formula::Unary(UnaryOp::Neg, of) => match &**of {
            Formula::Number(number) => Some(wrapping_neg(*number)),
            _ => None,
        },
        _ => None,
    }
}

/// A factor times a number, if that fits in 16 bits with either sign.
#[tactic(auto, using(std::proofs::lemmas::Int::ints))]
pub(crate) fn multiply_linear_factor(factor: i16, number: i32) -> Option<i16>
    ensures some { IfSome result (λ it. it ≡ factor *ℤ number) }
    ensures least { IfSome result (λ it. negsuc 32766 ≤ℤ it) }
{
    let product = i64::from(factor) * i64::from(number);
    if -32767 <= product && product <= 32767 {
        Some(product as i16)
    } else {
        None
    }
}

// Whether an operator joins the parts of a sum.
fn is_linear_sum_operator(op: BinaryOp) -> bool
    ensures { result ≡ is_linear_operator op }
{
    match op {
        BinaryOp::Add | BinaryOp::Sub | BinaryOp::Mul => true,
        BinaryOp::Min | BinaryOp::Max => false,
    }
}

// Whether a formula is joined by such an operator.
fn is_joined_linear_sum(formula: &Formula) -> bool
    ensures { result ≡ is_joined (formula_view formula.now) }
{
    match formula {
        Formula::Binary(op, _, _) => is_linear_sum_operator(*op),
        _ => false,
    }
}

// Whether an operator divides, within its limits.
fn is_linear_division(op: LiteralOp, literal: u32) -> bool
    ensures { result ≡ is_division op literal }
{
    match op {
        LiteralOp::Div => 0 < literal && literal < 65536,
        LiteralOp::Shr => literal < 32,
        LiteralOp::Rem | LiteralOp::Shl => false,
    }
}

impl LinearMake {
    // The quotient alone.
    fn new(op: LiteralOp, literal: u32) -> LinearMake
        requires { is_division op literal ≡ true }
        ensures op { result.op ≡ op }
        ensures literal { result.literal ≡ literal }
        ensures low { result.low ≡ negsuc 2147483647 }
        ensures high { result.high ≡ pos 2147483647 }
    {
        LinearMake {
            op,
            literal,
            low: i32::MIN,
            high: i32::MAX,
        }
    }

    // The same, at least a number.
    fn at_least(self, number: i32) -> LinearMake
        ensures right { (s : ℤ) → made result s ≡ int_max (made self s) number }
        ensures left { (s : ℤ) → made result s ≡ int_max number (made self s) }
    {
        LinearMake {
            op: self.op,
            literal: self.literal,
            low: self.low.max(number),
            high: self.high.max(number),
        }
    }

    // The same, at most a number.
    fn at_most(self, number: i32) -> LinearMake
        ensures right { (s : ℤ) → made result s ≡ int_min (made self s) number }
        ensures left { (s : ℤ) → made result s ≡ int_min number (made self s) }
    {
        LinearMake {
            op: self.op,
            literal: self.literal,
            low: self.low,
            high: self.high.min(number),
        }
    }
}

// The sum in a quotient, and what is made of it.
fn match_linear_quotient(
    op: LiteralOp,
    of: &Formula,
    literal: u32,
) -> Option<(&Formula, LinearMake)>
    ensures made { IfSome result (λ it. IsMadeOf (quotient op (formula_view of.now) literal) (formula_view it.0.now) it.1) }
    ensures reads { IfSome result (λ it. reads_in (formula_view it.0.now) ≡ reads_in (formula_view of.now)) }
    ensures joined { IfSome result (λ it. is_joined (formula_view it.0.now) ≡ true) }
{
    if is_linear_division(op, literal) && is_joined_linear_sum(of) {
        Some((of, LinearMake::new(op, literal)))
    } else {
        None
    }
}

// The sum in a formula, and what is made of it and of a number that bounds it from above.
#[cycle(match_linear_formula)]
fn match_linear_minimum(of: &Formula, number: i32) -> Option<(&Formula, LinearMake)>
    ensures made { IfSome result (λ it. (env : Valuation) (r c : ℤ)
        → made it.1 (formula_value env (formula_view it.0.now) r c)
        ≡ int_min (formula_value env (formula_view of.now) r c) number) }
    ensures left { IfSome result (λ it. (env : Valuation) (r c : ℤ)
        → made it.1 (formula_value env (formula_view it.0.now) r c)
        ≡ int_min number (formula_value env (formula_view of.now) r c)) }
    ensures reads { IfSome result (λ it. reads_in (formula_view it.0.now) ≡ reads_in (formula_view of.now)) }
    ensures joined { IfSome result (λ it. is_joined (formula_view it.0.now) ≡ true) }
{
    let (sum, make) = match_linear_formula(of)?;
    Some((sum, make.at_most(number)))
}

// The same, where the number bounds it from below.
#[cycle(match_linear_formula)]
fn match_linear_maximum(of: &Formula, number: i32) -> Option<(&Formula, LinearMake)>
    ensures made { IfSome result (λ it. (env : Valuation) (r c : ℤ)
        → made it.1 (formula_value env (formula_view it.0.now) r c)
        ≡ int_max (formula_value env (formula_view of.now) r c) number) }
    ensures left { IfSome result (λ it. (env : Valuation) (r c : ℤ)
        → made it.1 (formula_value env (formula_view it.0.now) r c)
        ≡ int_max number (formula_value env (formula_view of.now) r c)) }
    ensures reads { IfSome result (λ it. reads_in (formula_view it.0.now) ≡ reads_in (formula_view of.now)) }
    ensures joined { IfSome result (λ it. is_joined (formula_view it.0.now) ≡ true) }
{
    let (sum, make) = match_linear_formula(of)?;
    Some((sum, make.at_least(number)))
}

// The same, where two numbers clamp it.
#[cycle(match_linear_formula)]
fn match_linear_clamp(of: &Formula, low: i32, high: i32) -> Option<(&Formula, LinearMake)>
    ensures made { IfSome result (λ it. (env : Valuation) (r c : ℤ)
        → made it.1 (formula_value env (formula_view it.0.now) r c)
        ≡ clamped (formula_value env (formula_view of.now) r c) low high) }
    ensures reads { IfSome result (λ it. reads_in (formula_view it.0.now) ≡ reads_in (formula_view of.now)) }
    ensures joined { IfSome result (λ it. is_joined (formula_view it.0.now) ≡ true) }
{
    let (sum, make) = match_linear_maximum(of, low)?;
    Some((sum, make.at_most(high)))
}

/// What a formula divides, and what is made of it, if the formula is a quotient that numbers bound.
#[cycle(match_linear_formula)]
pub(crate) fn match_linear_formula(formula: &Formula) -> Option<(&Formula, LinearMake)>
    ensures made { IfSome result (λ it. IsMadeOf (formula_view formula.now) (formula_view it.0.now) it.1) }
    ensures reads { IfSome result (λ it. reads_in (formula_view it.0.now) ≡ reads_in (formula_view formula.now)) }
    ensures joined { IfSome result (λ it. is_joined (formula_view it.0.now) ≡ true) }
{
    match formula {
        Formula::Literal(op, of, literal) => match_linear_quotient(*op, of, *literal),
        Formula::Ternary(TernaryOp::Clamp, of, low, high) => {
            match_linear_clamp(of, find_linear_bound(low)?, find_linear_bound(high)?)
        }
        Formula::Binary(BinaryOp::Min, a, b) => match find_linear_bound(b) {
            Some(number) => match_linear_minimum(a, number),
            None => match_linear_minimum(b, find_linear_bound(a)?),
        },
        Formula::Binary(BinaryOp::Max, a, b) => match find_linear_bound(b) {
            Some(number) => match_linear_maximum(a, number),
            None => match_linear_maximum(b, find_linear_bound(a)?),
        },
        _ => None,
    }
}
