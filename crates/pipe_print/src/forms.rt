#![tactic(auto)]
//! How the operators of expressions are written: a table for each kind of operator.

ghost use Rattle.std.specs.Prelude.{◌≡◌};
ghost use Rattle.pipe_print.specs.Canonical.{unary_form, binary_form, ternary_word, literal_mark, relation_mark};

use operators::{BinaryOp, LiteralOp, Relation, TernaryOp, UnaryOp};
use pipe_tokens::{Keyword, Punct};

/// How an operator on one number is written.
#[derive(Clone, Copy)]
pub(crate) enum UnaryForm {
    /// A mark before the operand.
    Prefix(Punct),
    /// A word before the operand in parentheses.
    Call(Keyword),
}

/// How an operator on two numbers is written.
#[derive(Clone, Copy)]
pub(crate) enum BinaryForm {
    /// A mark between any expression and a product.
    Sum(Punct),
    /// A mark between a product and what is no product.
    Product(Punct),
    /// A word before the operands in parentheses.
    Call(Keyword),
}

pub(crate) fn choose_printed_unary_form(op: UnaryOp) -> UnaryForm
    ensures { result ≡ unary_form op }
{
    match op {
        UnaryOp::Neg => UnaryForm::Prefix(Punct::Minus),
        UnaryOp::Abs => UnaryForm::Call(Keyword::Abs),
    }
}

pub(crate) fn choose_printed_binary_form(op: BinaryOp) -> BinaryForm
    ensures { result ≡ binary_form op }
{
    match op {
        BinaryOp::Add => BinaryForm::Sum(Punct::Plus),
        BinaryOp::Sub => BinaryForm::Sum(Punct::Minus),
        BinaryOp::Mul => BinaryForm::Product(Punct::Star),
        BinaryOp::Min => BinaryForm::Call(Keyword::Min),
        BinaryOp::Max => BinaryForm::Call(Keyword::Max),
    }
}

pub(crate) fn choose_printed_ternary_keyword(op: TernaryOp) -> Keyword
    ensures { result ≡ ternary_word op }
{
    match op {
        TernaryOp::Clamp => Keyword::Clamp,
    }
}

pub(crate) fn choose_printed_literal_operator_punct(op: LiteralOp) -> Punct
    ensures { result ≡ literal_mark op }
{
    match op {
        LiteralOp::Div => Punct::Slash,
        LiteralOp::Rem => Punct::Percent,
        LiteralOp::Shl => Punct::ShiftLeft,
        LiteralOp::Shr => Punct::ShiftRight,
    }
}

pub(crate) fn choose_printed_relation_punct(relation: Relation) -> Punct
    ensures { result ≡ relation_mark relation }
{
    match relation {
        Relation::AtMost => Punct::AtMost,
        Relation::AtLeast => Punct::AtLeast,
        Relation::Equals => Punct::Equals,
    }
}
