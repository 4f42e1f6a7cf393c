//! Cuts a text into its tokens.

ghost use Rattle.std.specs.Prelude.{◌≡◌, ℕ, ◌<◌, List, length, All, IfOk, vec_len};
ghost use Rattle.std.specs.List.Sorted.{IsStrictlyIncreasing};
ghost use Rattle.pipe_tokens.specs.Cutting.{CutsInto};
ghost use Rattle.pipe_tokens.specs.Lexing.{tokens_of, starts_of};

use crate::piece::{Piece, lex_longest_piece};
use crate::token::Token;
use std::alloc::{AllocError, Global};

/// The tokens of a text, in order, and the offset where each starts.
#[derive(Debug, Drop)]
pub struct TokenList {
    pub tokens: Vec<Token>,
    /// As many as there are tokens.
    pub starts: Vec<usize>,
}

/// Cuts a text into its longest tokens. Lexing ends at the first lexical fault, `Bad` or `NotAscii`, which is then the last
/// token. The text has any length. Memory is the only error.
pub fn lex(alloc: Global, text: &[u8]) -> Result<TokenList, AllocError>
    // Gaps and longest tokens alternate.
    ensures longest { IfOk result
        (λ lexed. CutsInto 0 text.now lexed.tokens.items lexed.starts.items) }
    // There is one such list, and these definitions compute it.
    ensures tokens { IfOk result (λ lexed. lexed.tokens.items ≡ tokens_of text.now) }
    ensures starts { IfOk result (λ lexed. lexed.starts.items ≡ starts_of text.now) }

    ensures as_many { IfOk result (λ lexed. vec_len lexed.starts ≡ vec_len lexed.tokens) }
    ensures rising { IfOk result (λ lexed. IsStrictlyIncreasing lexed.starts.items) }
    ensures within { IfOk result
        (λ lexed. All (λ start. start < length text.now) lexed.starts.items) }
{
    lex_text_piece_by_piece(alloc, text)
}

fn lex_text_piece_by_piece(alloc: Global, text: &[u8]) -> Result<TokenList, AllocError>
    ensures tokens { IfOk result (λ lexed. lexed.tokens.items ≡ tokens_of text.now) }
    ensures starts { IfOk result (λ lexed. lexed.starts.items ≡ starts_of text.now) }
{
    let mut tokens = Vec::new(alloc);
    let mut starts = Vec::new(alloc);
    let mut at = 0;
    while at < text.len() {
        let Piece { token, len } = lex_longest_piece(&text[at..]);
        if let Some(token) = token {
            let is_fault = token.is_lexical_fault();
            tokens.push(token)?;
            starts.push(at)?;
            if is_fault {
                return Ok(TokenList { tokens, starts });
            }
        }
        at += len;
    }
    Ok(TokenList { tokens, starts })
}

/// A text is cut in one way only.
pub fn texts_have_one_token_list()
    ensures tokens { (text : List ℕ) (tokens : List Token) (starts : List ℕ)
        → CutsInto 0 text tokens starts → tokens ≡ tokens_of text }
    ensures starts { (text : List ℕ) (tokens : List Token) (starts : List ℕ)
        → CutsInto 0 text tokens starts → starts ≡ starts_of text }
{}
