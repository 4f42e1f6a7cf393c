//! The tokens of a program's text.

ghost use Rattle.std.specs.Prelude.{◌≡◌};

use crate::name::Name;

/// A reserved word. None of these is a name.
#[derive(Clone, Copy, Debug, PartialEq, Eq)]
pub enum Keyword {
    Param,
    Image,
    Func,
    In,
    Case,
    Else,
    Accum,
    Over,
    Sum,
    Min,
    Max,
    At,
    Output,
    And,
    Abs,
    Clamp,
    Select,
    Stencil,
    Table,
}

/// A mark: a bracket, a separator or an operator.
#[derive(Clone, Copy, Debug, PartialEq, Eq)]
pub enum Punct {
    /// `(`
    OpenRound,
    /// `)`
    CloseRound,
    /// `[`
    OpenSquare,
    /// `]`
    CloseSquare,
    /// `{`
    OpenCurly,
    /// `}`
    CloseCurly,
    /// `,`
    Comma,
    /// `;`
    Semicolon,
    /// `:`
    Colon,
    /// `+`
    Plus,
    /// `-`
    Minus,
    /// `*`
    Star,
    /// `/`
    Slash,
    /// `%`
    Percent,
    /// `<<`
    ShiftLeft,
    /// `>>`
    ShiftRight,
    /// `<=`
    AtMost,
    /// `>=`
    AtLeast,
    /// `==`
    Equals,
    /// `..`
    DotDot,
}

/// A token: the longest piece of text that is one unit.
#[derive(Clone, Copy, Debug, PartialEq, Eq)]
pub enum Token {
    Keyword(Keyword),
    Punct(Punct),
    /// A name that is not reserved, of 1 to 32 bytes.
    Name(Name),
    /// A number from 0 to 2147483647.
    Int(u32),
    /// Digits whose value is above 2147483647.
    TooBig,
    /// A byte that begins no token, a name of more than 32 bytes, or digits with a letter or `_` directly after them.
    Bad,
    /// A byte of 128 or more.
    NotAscii,
}

impl Keyword {
    ghost use Rattle.pipe_tokens.specs.Spelled.{bytes_of_word, word_of};

    /// The reserved words.
    const ALL: [Keyword; 19] = [
        Keyword::Param,
        Keyword::Image,
        Keyword::Func,
        Keyword::In,
        Keyword::Case,
        Keyword::Else,
        Keyword::Accum,
        Keyword::Over,
        Keyword::Sum,
        Keyword::Min,
        Keyword::Max,
        Keyword::At,
        Keyword::Output,
        Keyword::And,
        Keyword::Abs,
        Keyword::Clamp,
        Keyword::Select,
        Keyword::Stencil,
        Keyword::Table,
    ];

    /// How the word is spelled.
    #[tactic(auto, unfolding(crate::specs::Spelled::bytes_of_word))]
    pub fn as_bytes(self) -> &'static [u8]
        ensures { result.now ≡ bytes_of_word self }
    {
        match self {
            Keyword::Param => b"param",
            Keyword::Image => b"image",
            Keyword::Func => b"func",
            Keyword::In => b"in",
            Keyword::Case => b"case",
            Keyword::Else => b"else",
            Keyword::Accum => b"accum",
            Keyword::Over => b"over",
            Keyword::Sum => b"sum",
            Keyword::Min => b"min",
            Keyword::Max => b"max",
            Keyword::At => b"at",
            Keyword::Output => b"output",
            Keyword::And => b"and",
            Keyword::Abs => b"abs",
            Keyword::Clamp => b"clamp",
            Keyword::Select => b"select",
            Keyword::Stencil => b"stencil",
            Keyword::Table => b"table",
        }
    }

    /// The reserved word that the bytes spell, if they are one.
    pub fn from_bytes(bytes: &[u8]) -> Option<Self>
        ensures { result ≡ word_of bytes.now }
    {
        Keyword::ALL.iter().copied().find(|w| w.as_bytes() == bytes)
    }
}

impl Punct {
    ghost use Rattle.pipe_tokens.specs.Spelled.{bytes_of_mark, mark_at};

    /// The marks. None is a prefix of another.
    const ALL: [Punct; 20] = [
        Punct::OpenRound,
        Punct::CloseRound,
        Punct::OpenSquare,
        Punct::CloseSquare,
        Punct::OpenCurly,
        Punct::CloseCurly,
        Punct::Comma,
        Punct::Semicolon,
        Punct::Colon,
        Punct::Plus,
        Punct::Minus,
        Punct::Star,
        Punct::Slash,
        Punct::Percent,
        Punct::ShiftLeft,
        Punct::ShiftRight,
        Punct::AtMost,
        Punct::AtLeast,
        Punct::Equals,
        Punct::DotDot,
    ];

    /// How the mark is spelled.
    #[tactic(auto, unfolding(crate::specs::Spelled::bytes_of_mark))]
    pub fn as_bytes(self) -> &'static [u8]
        ensures { result.now ≡ bytes_of_mark self }
    {
        match self {
            Punct::OpenRound => b"(",
            Punct::CloseRound => b")",
            Punct::OpenSquare => b"[",
            Punct::CloseSquare => b"]",
            Punct::OpenCurly => b"{",
            Punct::CloseCurly => b"}",
            Punct::Comma => b",",
            Punct::Semicolon => b";",
            Punct::Colon => b":",
            Punct::Plus => b"+",
            Punct::Minus => b"-",
            Punct::Star => b"*",
            Punct::Slash => b"/",
            Punct::Percent => b"%",
            Punct::ShiftLeft => b"<<",
            Punct::ShiftRight => b">>",
            Punct::AtMost => b"<=",
            Punct::AtLeast => b">=",
            Punct::Equals => b"==",
            Punct::DotDot => b"..",
        }
    }

    /// The mark that the text begins with, if it begins with one.
    pub(crate) fn from_text_start(text: &[u8]) -> Option<Self>
        ensures { result ≡ mark_at text.now }
    {
        Punct::ALL
            .iter()
            .copied()
            .find(|m| text.starts_with(m.as_bytes()))
    }
}

impl Token {
    ghost use Rattle.pipe_tokens.specs.Lexing.{is_fault};

    /// Whether the token is a lexical fault, which ends the lexing.
    pub fn is_lexical_fault(&self) -> bool
        ensures { result ≡ is_fault self.now }
    {
        matches!(self, Token::Bad | Token::NotAscii)
    }
}
