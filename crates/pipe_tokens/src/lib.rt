//! The tokens of a program's text. `lex` cuts a text into its longest tokens, each with the offset where it starts, and `spell_tokens`
//! writes tokens in the fewest bytes. The spelling of tokens is cut into the same tokens again, and no text that is cut into
//! these tokens is shorter.
//!
//! Words: token, lex, name, keyword, punct, identifier, comment, white byte.
#![tactic(auto)]

mod character;
pub mod lexer;
pub mod name;
mod piece;
pub mod spelling;
pub mod token;

pub use lexer::{TokenList, lex};
pub use name::Name;
pub use spelling::spell_tokens;
pub use token::{Keyword, Punct, Token};
