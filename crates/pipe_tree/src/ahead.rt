//! What the token ahead may begin.

ghost use Rattle.std.specs.Prelude.{◌≡◌};
ghost use Rattle.pipe_tree.specs.Operators.{call_at};

use operators::{BinaryOp, LiteralOp, TernaryOp, UnaryOp};
use pipe_tokens::{Keyword, Token};

/// What a unary begins with.
#[derive(Clone, Copy)]
pub enum UnaryStart {
    Number,
    Name,
    Stencil,
    Opening(Opening),
    Nothing,
}

/// What opens a level.
#[derive(Clone, Copy)]
pub enum Opening {
    Minus,
    Group,
    Call,
    Select,
}

/// An operator that is called by a word, with its operands in parentheses.
#[derive(Clone, Copy)]
pub enum CallOp {
    Unary(UnaryOp),
    Binary(BinaryOp),
    Ternary(TernaryOp),
}

impl CallOp {
    /// The operator that the token calls, if it is the word of one.
    pub fn from_token(token: Option<Token>) -> Option<Self>
        ensures { result ≡ call_at token }
    {
        match token {
            Some(Token::Keyword(Keyword::Abs)) => Some(CallOp::Unary(UnaryOp::Abs)),
            Some(Token::Keyword(Keyword::Min)) => Some(CallOp::Binary(BinaryOp::Min)),
            Some(Token::Keyword(Keyword::Max)) => Some(CallOp::Binary(BinaryOp::Max)),
            Some(Token::Keyword(Keyword::Clamp)) => Some(CallOp::Ternary(TernaryOp::Clamp)),
            _ => None,
        }
    }
}

/// An operator of a product.
#[derive(Clone, Copy)]
pub enum ProductOp {
    Times,
    Literal(LiteralOp),
}

/// What an item begins with, except for the image.
#[derive(Clone, Copy)]
pub enum ItemStart {
    Param,
    Table,
    Func,
    Accum,
    Output,
    Nothing,
}
