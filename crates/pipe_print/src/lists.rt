#![tactic(auto)]
//! Lists, with a token between neighbours.

ghost use Rattle.std.specs.Prelude.{◌≡◌, List, [], ◌∷◌, ◌++◌, OnOk};
ghost use Rattle.pipe_tokens.specs.declared.token.Token.{Token as TokenType};
ghost use Rattle.pipe_print.specs.Canonical.{separated, bracketed};

use crate::printer::TokenPrinter;
use pipe_tokens::{Punct, Token};
use std::alloc::AllocError;

/// An entry of a list.
pub(crate) trait ListEntry {
    ghost tokens: { Self → List TokenType };

    fn print_list_entry(&self, printer: &mut TokenPrinter) -> Result<(), AllocError>
        ensures { OnOk result (printer.new ≡ printer.old ++ tokens self.now) };
}

impl TokenPrinter {
    // The entries, with the separator between neighbours.
    pub fn print_separated_entries<T: ListEntry>(
        &mut self,
        separator: &Token,
        entries: &[T],
    ) -> Result<(), AllocError>
        ensures { OnOk result
            (self.new ≡ self.old ++ separated (separator.now ∷ []) T.tokens entries.now) }
    {
        let [first, others @ ..] = entries else {
            return Ok(());
        };
        first.print_list_entry(self)?;
        for entry in others {
            self.print_token(*separator)?;
            entry.print_list_entry(self)?;
        }
        Ok(())
    }

    // The entries in brackets, with commas between neighbours.
    pub fn print_bracketed_entries<T: ListEntry>(&mut self, entries: &[T]) -> Result<(), AllocError>
        ensures { OnOk result (self.new ≡ self.old ++ bracketed T.tokens entries.now) }
    {
        self.print_punct(Punct::OpenSquare)?;
        self.print_separated_entries(&Token::Punct(Punct::Comma), entries)?;
        self.print_punct(Punct::CloseSquare)
    }
}
