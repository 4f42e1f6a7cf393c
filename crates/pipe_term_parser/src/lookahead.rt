#![tactic(auto)]
//! What the token ahead begins.

ghost use Rattle.std.specs.Prelude.{◌≡◌};
ghost use Rattle.pipe_tree.specs.Operators.{sign_at, factor_at, relation_at, fold_at};
ghost use Rattle.pipe_tree.specs.Lookahead.{start_at, is_number_at, is_mark_at, is_word_at};

use operators::{LiteralOp, ReductionOp, Relation};
use pipe_tokens::{Keyword, Punct, Token};
use pipe_tree::{CallOp, Opening, ProductOp, UnaryStart};

pub(crate) fn is_punct_token_ahead(token: Option<Token>, mark: Punct) -> bool
    ensures { result ≡ is_mark_at mark token }
{
    match token {
        Some(Token::Punct(found)) => found == mark,
        _ => false,
    }
}

pub(crate) fn is_keyword_token_ahead(token: Option<Token>, word: Keyword) -> bool
    ensures { result ≡ is_word_at word token }
{
    match token {
        Some(Token::Keyword(found)) => found == word,
        _ => false,
    }
}

// Whether a number is ahead, even one that is too big.
pub(crate) fn is_number_token_ahead(token: Option<Token>) -> bool
    ensures { result ≡ is_number_at token }
{
    matches!(token, Some(Token::Int(_) | Token::TooBig))
}

// Whether the sign ahead is a minus.
pub(crate) fn interpret_token_ahead_as_sign(token: Option<Token>) -> Option<bool>
    ensures { result ≡ sign_at token }
{
    match token {
        Some(Token::Punct(Punct::Plus)) => Some(false),
        Some(Token::Punct(Punct::Minus)) => Some(true),
        _ => None,
    }
}

pub(crate) fn interpret_token_ahead_as_product_op(token: Option<Token>) -> Option<ProductOp>
    ensures { result ≡ factor_at token }
{
    match token {
        Some(Token::Punct(Punct::Star)) => Some(ProductOp::Times),
        Some(Token::Punct(Punct::Slash)) => Some(ProductOp::Literal(LiteralOp::Div)),
        Some(Token::Punct(Punct::Percent)) => Some(ProductOp::Literal(LiteralOp::Rem)),
        Some(Token::Punct(Punct::ShiftLeft)) => Some(ProductOp::Literal(LiteralOp::Shl)),
        Some(Token::Punct(Punct::ShiftRight)) => Some(ProductOp::Literal(LiteralOp::Shr)),
        _ => None,
    }
}

pub(crate) fn interpret_token_ahead_as_relation(token: Option<Token>) -> Option<Relation>
    ensures { result ≡ relation_at token }
{
    match token {
        Some(Token::Punct(Punct::AtMost)) => Some(Relation::AtMost),
        Some(Token::Punct(Punct::AtLeast)) => Some(Relation::AtLeast),
        Some(Token::Punct(Punct::Equals)) => Some(Relation::Equals),
        _ => None,
    }
}

pub(crate) fn interpret_token_ahead_as_reduction(token: Option<Token>) -> Option<ReductionOp>
    ensures { result ≡ fold_at token }
{
    match token {
        Some(Token::Keyword(Keyword::Sum)) => Some(ReductionOp::Sum),
        Some(Token::Keyword(Keyword::Min)) => Some(ReductionOp::Min),
        Some(Token::Keyword(Keyword::Max)) => Some(ReductionOp::Max),
        _ => None,
    }
}

pub(crate) fn classify_unary_by_token_ahead(token: Option<Token>) -> UnaryStart
    ensures { result ≡ start_at token }
{
    match token {
        Some(Token::Int(_) | Token::TooBig) => UnaryStart::Number,
        Some(Token::Name(_)) => UnaryStart::Name,
        Some(Token::Punct(Punct::Minus)) => UnaryStart::Opening(Opening::Minus),
        Some(Token::Punct(Punct::OpenRound)) => UnaryStart::Opening(Opening::Group),
        Some(Token::Keyword(Keyword::Select)) => UnaryStart::Opening(Opening::Select),
        Some(Token::Keyword(Keyword::Stencil)) => UnaryStart::Stencil,
        _ if CallOp::from_token(token).is_some() => UnaryStart::Opening(Opening::Call),
        _ => UnaryStart::Nothing,
    }
}
