//! The longest piece at the front of a text.

ghost use Rattle.std.specs.Prelude.{◌≡◌, ◌<◌, ◌≤◌, length, take_while};
ghost use Rattle.std.specs.List.{prefix_len, AllPass};
ghost use Rattle.std.specs.Char.{is_ascii_digit};
ghost use Rattle.pipe_tokens.specs.Character as character;
ghost use Rattle.pipe_tokens.specs.Lexing as lexing;

use crate::character::{is_comment_byte, is_name_byte, is_white_byte};
use crate::name::Name;
use crate::token::{Keyword, Punct, Token};

/// The largest number that a text may have.
pub const MAX_INT: u32 = 2147483647;

/// What a text begins with: a token, or if there is none a part of the gap before one.
#[derive(Clone, Copy, Debug)]
pub struct Piece {
    pub token: Option<Token>,
    /// The number of its bytes.
    pub len: usize,
}

fn new_piece_without_token(len: usize) -> Piece
    ensures { result ≡ lexing.gap len }
{
    Piece { token: None, len }
}

fn new_token_piece(token: Token, len: usize) -> Piece
    ensures { result ≡ lexing.lexeme token len }
{
    Piece {
        token: Some(token),
        len,
    }
}

/// The longest piece at the front of a text that is not empty.
#[tactic(auto, unfolding(crate::specs::Lexing::piece_of))]
pub fn lex_longest_piece(text: &[u8]) -> Piece
    requires { 0 < length text.now }
    ensures piece { result ≡ lexing.piece_of text.now }
{
    let first = text[0];
    if is_white_byte(first) {
        new_piece_without_token(1)
    } else if first == b'#' {
        new_piece_without_token(count_leading_comment_bytes(text))
    } else if first.is_ascii_alphabetic() {
        lex_word(text)
    } else if first.is_ascii_digit() {
        lex_digits(text)
    } else if first >= 128 {
        new_token_piece(Token::NotAscii, 1)
    } else {
        lex_punct(text)
    }
}

fn count_leading_comment_bytes(text: &[u8]) -> usize
    ensures { result ≡ prefix_len character.is_comment_byte text.now }
{
    text.iter().take_while(|b| is_comment_byte(**b)).count()
}

fn count_leading_name_bytes(text: &[u8]) -> usize
    ensures len { result ≡ prefix_len character.is_name_byte text.now }
    ensures within { result ≤ length text.now }
{
    text.iter().take_while(|b| is_name_byte(**b)).count()
}

fn count_leading_token_digits(text: &[u8]) -> usize
    ensures len { result ≡ prefix_len is_ascii_digit text.now }
    ensures within { result ≤ length text.now }
{
    text.iter().take_while(|b| b.is_ascii_digit()).count()
}

fn lex_word(text: &[u8]) -> Piece
    ensures { result ≡ lexing.word_piece text.now }
{
    let len = count_leading_name_bytes(text);
    new_token_piece(convert_word_to_token(&text[..len]), len)
}

fn convert_word_to_token(bytes: &[u8]) -> Token
    ensures { result ≡ lexing.token_of_word bytes.now }
{
    if let Some(word) = Keyword::from_bytes(bytes) {
        return Token::Keyword(word);
    }
    match Name::from_bytes(bytes) {
        Some(name) => Token::Name(name),
        None => Token::Bad,
    }
}

fn lex_digits(text: &[u8]) -> Piece
    ensures { result ≡ lexing.digits_piece text.now }
{
    let len = count_leading_token_digits(text);
    if count_leading_name_bytes(text) != len {
        return new_token_piece(Token::Bad, len);
    }
    new_token_piece(convert_digits_to_token(&text[..len]), len)
}

fn convert_digits_to_token(digits: &[u8]) -> Token
    requires { AllPass is_ascii_digit digits.now }
    ensures { result ≡ lexing.token_of_digits digits.now }
{
    let mut value = 0;
    for digit in digits {
        value = value * 10 + u64::from(*digit - b'0');
        if value > u64::from(MAX_INT) {
            return Token::TooBig;
        }
    }
    Token::Int(value as u32)
}

fn lex_punct(text: &[u8]) -> Piece
    ensures { result ≡ lexing.mark_piece text.now }
{
    match Punct::from_text_start(text) {
        Some(mark) => new_token_piece(Token::Punct(mark), mark.as_bytes().len()),
        None => new_token_piece(Token::Bad, 1),
    }
}
