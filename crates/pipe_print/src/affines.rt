#![tactic(auto)]
//! Affine sums of parameters, spans of them, and the variables that run over spans.

ghost use Rattle.std.specs.Prelude.{◌≡◌, ◌++◌, OnOk};
ghost use Rattle.pipe_print.specs.Canonical.{term_tokens, affine_tokens, span_tokens, variable_tokens};

use crate::printer::TokenPrinter;
use pipe_tokens::{Keyword, Punct};
use pipe_tree::{Affine, AffineSpan, AffineTerm, Variable};
use std::alloc::AllocError;

impl TokenPrinter {
    // A term without its sign.
    fn print_unsigned_affine_term(&mut self, term: &AffineTerm) -> Result<(), AllocError>
        ensures { OnOk result (self.new ≡ self.old ++ term_tokens term.now) }
    {
        match &term.name {
            Some(name) => self.print_scaled_name(term.factor, name),
            None => self.print_number(term.factor),
        }
    }

    // The first term has a sign only where it is subtracted.
    pub fn print_affine_sum(&mut self, affine: &Affine) -> Result<(), AllocError>
        ensures { OnOk result (self.new ≡ self.old ++ affine_tokens affine.now) }
    {
        let [first, others @ ..] = affine.terms() else {
            return Ok(());
        };
        if first.negative {
            self.print_punct(Punct::Minus)?;
        }
        self.print_unsigned_affine_term(first)?;
        for term in others {
            self.print_plus_or_minus(term.negative)?;
            self.print_unsigned_affine_term(term)?;
        }
        Ok(())
    }

    pub fn print_affine_span(&mut self, span: &AffineSpan) -> Result<(), AllocError>
        ensures { OnOk result (self.new ≡ self.old ++ span_tokens span.now) }
    {
        self.print_punct(Punct::OpenSquare)?;
        self.print_affine_sum(&span.first)?;
        self.print_punct(Punct::DotDot)?;
        self.print_affine_sum(&span.last)?;
        self.print_punct(Punct::CloseSquare)
    }

    pub fn print_variable_with_span(&mut self, variable: &Variable) -> Result<(), AllocError>
        ensures { OnOk result (self.new ≡ self.old ++ variable_tokens variable.now) }
    {
        self.print_name(&variable.name)?;
        self.print_keyword(Keyword::In)?;
        self.print_affine_span(&variable.span)
    }
}
