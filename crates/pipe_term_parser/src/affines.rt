#![tactic(auto)]
//! Affine sums of parameters, spans of them, and the variables that run over spans.

ghost use Rattle.std.specs.Prelude.{◌≡◌, ◌<◌, ◌≤◌, length, OnOk};
ghost use Rattle.pipe_tree.specs.Reading as reading;
ghost use Rattle.pipe_term_parser.specs.Answers.{at, Reads};

use crate::lookahead::{interpret_token_ahead_as_sign, is_number_token_ahead};
use crate::parse_error::ParseError;
use crate::parser::TermParser;
use pipe_tokens::{Keyword, Name, Punct};
use pipe_tree::{Affine, AffineSpan, AffineTerm, Role, Variable};

impl TermParser<'_> {
    // A minus, if there is one.
    pub(crate) fn parse_optional_minus(&mut self) -> Result<bool, ParseError>
        ensures exact { Reads (λ b. (b, at self.new)) result (reading.minus (at self.old)) }
        ensures shorter { length self.new.rest.now ≤ length self.old.rest.now }
    {
        if self.is_punct_ahead(Punct::Minus) {
            self.expect_punct(Punct::Minus, Role::Plain)?;
            return Ok(true);
        }
        Ok(false)
    }

    // A number and the name that it is multiplied by, if there is one; 1 and a name, where there is no number.
    #[tactic(auto, unfolding(pipe_tree::specs::Reading::scaled_name))]
    fn parse_affine_product(&mut self) -> Result<(u32, Option<Name>), ParseError>
        ensures exact { Reads (λ f. (f, at self.new)) result (reading.scaled_name (at self.old)) }
        ensures shorter { length self.new.rest.now ≤ length self.old.rest.now }
    {
        if !is_number_token_ahead(self.peek_token()) {
            return Ok((1, Some(self.parse_name(Role::Plain)?)));
        }
        let factor = self.parse_unsigned_number(Role::Plain)?;
        if !self.is_punct_ahead(Punct::Star) {
            return Ok((factor, None));
        }
        self.expect_punct(Punct::Star, Role::Plain)?;
        Ok((factor, Some(self.parse_name(Role::Plain)?)))
    }

    // Adds one more term after the others.
    fn parse_and_append_affine_term(
        &mut self,
        terms: &mut Vec<AffineTerm>,
        negative: bool,
    ) -> Result<(), ParseError>
        ensures exact { Reads (λ _. (terms.new.items, at self.new)) result
            (reading.term negative terms.old.items (at self.old)) }
        ensures shorter { length self.new.rest.now ≤ length self.old.rest.now }
    {
        let (factor, name) = self.parse_affine_product()?;
        terms.push(AffineTerm {
            negative,
            factor,
            name,
        })?;
        Ok(())
    }

    /// An affine expression: a sum of numbers, and of names that are multiplied by numbers.
    #[tactic(auto, using(crate::proofs::Unrolled::affine_unroll), unfolding(pipe_tree::specs::Reading::affine))]
    pub fn parse_affine(&mut self) -> Result<Affine, ParseError>
        ensures exact { Reads (λ a. (a, at self.new)) result (reading.affine (at self.old)) }
        ensures shorter { length self.new.rest.now ≤ length self.old.rest.now }
    {
        let mut terms = Vec::new(self.alloc);
        let negative = self.parse_optional_minus()?;
        self.parse_and_append_affine_term(&mut terms, negative)?;
        while interpret_token_ahead_as_sign(self.peek_token()).is_some() {
            let negative = self.parse_sign(Role::Plain)?;
            self.parse_and_append_affine_term(&mut terms, negative)?;
        }
        Ok(Affine::new(terms))
    }

    /// A span of numbers, between two affine expressions in brackets.
    #[tactic(auto, unfolding(pipe_tree::specs::Reading::span))]
    pub fn parse_affine_span(&mut self) -> Result<AffineSpan, ParseError>
        ensures exact { Reads (λ s. (s, at self.new)) result (reading.span (at self.old)) }
        ensures shorter { length self.new.rest.now ≤ length self.old.rest.now }
    {
        self.expect_punct(Punct::OpenSquare, Role::Plain)?;
        let first = self.parse_affine()?;
        self.expect_punct(Punct::DotDot, Role::Plain)?;
        let last = self.parse_affine()?;
        self.expect_punct(Punct::CloseSquare, Role::Plain)?;
        Ok(AffineSpan { first, last })
    }

    /// A variable with its span.
    #[tactic(auto, unfolding(pipe_tree::specs::Reading::a_variable))]
    pub fn parse_variable_with_span(&mut self) -> Result<Variable, ParseError>
        ensures exact { Reads (λ v. (v, at self.new)) result (reading.a_variable (at self.old)) }
        ensures shorter { length self.new.rest.now ≤ length self.old.rest.now }
    {
        let name = self.parse_name(Role::Plain)?;
        self.expect_keyword(Keyword::In, Role::Plain)?;
        let span = self.parse_affine_span()?;
        Ok(Variable { name, span })
    }
}
