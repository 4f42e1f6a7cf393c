//! The shortest text of some tokens.

ghost use Rattle.std.specs.Prelude.{◌≡◌, ℕ, ◌≤◌, ◌++◌, List, length, IfOk, OnOk};
ghost use Rattle.std.specs.Fmt.{decimal};
ghost use Rattle.std.specs.List.{AllByRecursion};
ghost use Rattle.pipe_tokens.specs.Lexing.{tokens_of};
ghost use Rattle.pipe_tokens.specs.Spelling.{bytes_of, begins_word, spelling, HasSpelling, IsReadable};
ghost use Rattle.pipe_tokens.specs.Subsequence.{IsSubsequence};

use crate::token::Token;
use std::alloc::{AllocError, Global};

/// The tokens in the fewest bytes: one blank between two neighbours that both begin with a letter or a digit, and no other.
/// Numbers have no leading zeros. `TooBig`, `Bad` and `NotAscii` have no spelling and are omitted.
pub fn spell_tokens(alloc: Global, tokens: &[Token]) -> Result<Vec<u8>, AllocError>
    ensures { IfOk result (λ bytes. bytes.items ≡ spelling tokens.now) }
{
    let mut bytes = Vec::new(alloc);
    let mut behind_word = false;
    for token in tokens {
        let is_word = is_word_or_number_token(token);
        if behind_word && is_word {
            bytes.push(b' ')?;
        }
        push_token_bytes(alloc, &mut bytes, token)?;
        behind_word = is_word;
    }
    Ok(bytes)
}

/// The spelling of tokens is cut into the same tokens again.
pub fn spelled_tokens_come_back()
    ensures { (tokens : List Token) → AllByRecursion HasSpelling tokens
        → tokens_of (spelling tokens) ≡ tokens }
{}

/// A text is no shorter than the spelling of its tokens. All of its tokens have a spelling, except numbers that are too big and
/// the lexical fault at the end.
pub fn spelled_tokens_are_shortest()
    ensures shortest { (text : List ℕ) → length (spelling (tokens_of text)) ≤ length text }
    ensures readable { (text : List ℕ) → AllByRecursion IsReadable (tokens_of text) }
{}

/// If some tokens are omitted, the spelling of the others is no longer.
pub fn fewer_tokens_are_no_longer()
    ensures { (few : List Token) (many : List Token) → IsSubsequence few many
        → AllByRecursion HasSpelling many → length (spelling few) ≤ length (spelling many) }
{}

/// Whether the token begins with a letter or a digit.
fn is_word_or_number_token(token: &Token) -> bool
    ensures { result ≡ begins_word token.now }
{
    matches!(token, Token::Keyword(_) | Token::Name(_) | Token::Int(_))
}

fn push_token_bytes(alloc: Global, bytes: &mut Vec<u8>, token: &Token) -> Result<(), AllocError>
    ensures { OnOk result (bytes.new.items ≡ bytes.old.items ++ bytes_of token.now) }
{
    match token {
        Token::Keyword(word) => bytes.extend_from_slice(word.as_bytes()),
        Token::Punct(mark) => bytes.extend_from_slice(mark.as_bytes()),
        Token::Name(name) => bytes.extend_from_slice(name.as_bytes()),
        Token::Int(value) => push_number_token_digits(alloc, bytes, *value),
        Token::TooBig | Token::Bad | Token::NotAscii => Ok(()),
    }
}

fn push_number_token_digits(
    alloc: Global,
    bytes: &mut Vec<u8>,
    value: u32,
) -> Result<(), AllocError>
    ensures { OnOk result (bytes.new.items ≡ bytes.old.items ++ decimal value) }
{
    let digits = format!(in alloc; "{value}")?;
    bytes.extend_from_slice(digits.as_bytes())
}
