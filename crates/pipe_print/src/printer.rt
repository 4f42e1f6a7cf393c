#![tactic(auto)]
//! The tokens that were printed so far, and how one more is added after them. Each rule of the grammar is a method of `TokenPrinter`
//! that prints what a parser reads by it.

ghost use Rattle.std.specs.Prelude.{◌≡◌, [], ◌∷◌, ◌++◌, OnOk};
ghost use Rattle.pipe_print.specs.Canonical.{sign_tokens, scaled_tokens};

use pipe_tokens::{Keyword, Name, Punct, Token};
use std::alloc::{AllocError, Global};
use std::marker::Model;

#[derive(Drop)]
pub(crate) struct TokenPrinter {
    pub tokens: Vec<Token>,
}

impl Model for TokenPrinter {
    ghost use Rattle.std.specs.Prelude.{List};
    ghost use Rattle.pipe_tokens.specs.declared.token.Token.{Token as TokenType};

    ghost Value = { List TokenType };

    ghost view = { λ p. p.tokens.items };
}

impl TokenPrinter {
    pub fn new(alloc: Global) -> Self
        ensures { result ≡ [] }
    {
        TokenPrinter {
            tokens: Vec::new(alloc),
        }
    }

    pub fn print_token(&mut self, token: Token) -> Result<(), AllocError>
        ensures { OnOk result (self.new ≡ self.old ++ token ∷ []) }
    {
        self.tokens.push(token)?;
        Ok(())
    }

    pub fn print_punct(&mut self, mark: Punct) -> Result<(), AllocError>
        ensures { OnOk result (self.new ≡ self.old ++ Token.Punct mark ∷ []) }
    {
        self.print_token(Token::Punct(mark))
    }

    pub fn print_keyword(&mut self, word: Keyword) -> Result<(), AllocError>
        ensures { OnOk result (self.new ≡ self.old ++ Token.Keyword word ∷ []) }
    {
        self.print_token(Token::Keyword(word))
    }

    pub fn print_number(&mut self, value: u32) -> Result<(), AllocError>
        ensures { OnOk result (self.new ≡ self.old ++ Token.Int value ∷ []) }
    {
        self.print_token(Token::Int(value))
    }

    pub fn print_name(&mut self, name: &Name) -> Result<(), AllocError>
        ensures { OnOk result (self.new ≡ self.old ++ Token.Name name.now ∷ []) }
    {
        self.print_token(Token::Name(*name))
    }

    // `-` or `+`.
    pub fn print_plus_or_minus(&mut self, negative: bool) -> Result<(), AllocError>
        ensures { OnOk result (self.new ≡ self.old ++ sign_tokens negative) }
    {
        self.print_punct(if negative { Punct::Minus } else { Punct::Plus })
    }

    // A factor and the name that it multiplies; the name alone where the factor is 1.
    pub fn print_scaled_name(&mut self, factor: u32, name: &Name) -> Result<(), AllocError>
        ensures { OnOk result (self.new ≡ self.old ++ scaled_tokens factor name.now) }
    {
        if factor != 1 {
            self.print_number(factor)?;
            self.print_punct(Punct::Star)?;
        }
        self.print_name(name)
    }
}
