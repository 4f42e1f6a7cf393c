#![tactic(auto)]
//! Where a parser is, and how it passes one token.

ghost use Rattle.std.specs.Prelude.{◌≡◌, ◌<◌, ◌≤◌, length, Some, IfOk, OnOk};
ghost use Rattle.pipe_tree.specs.Limits.{none_yet};
ghost use Rattle.pipe_tree.specs.Reading as reading;
ghost use Rattle.pipe_tree.specs.Reading.{halt_of, kind_at};
ghost use Rattle.pipe_term_parser.specs.Answers.{at, Reads};
ghost use Rattle.pipe_tree.specs.Tokens.{head, tail};
ghost use Rattle.pipe_tree.specs.Operators.{name_at};
ghost use Rattle.pipe_tree.specs.Lookahead.{is_mark_at, is_word_at};

use crate::lookahead::{
    interpret_token_ahead_as_product_op, interpret_token_ahead_as_reduction,
    interpret_token_ahead_as_relation, interpret_token_ahead_as_sign, is_keyword_token_ahead,
    is_punct_token_ahead,
};
use crate::parse_error::ParseError;
use operators::{ReductionOp, Relation};
use pipe_tokens::{Keyword, Name, Punct, Token};
use pipe_tree::{CallOp, Halt, ParseFaultKind, ProductOp, Role, TextCounts};
use std::alloc::Global;

/// The greatest number of a text.
pub const MAX_NUMBER: u32 = 2147483647;

/// A position in a list of tokens: the tokens that remain, and what was counted so far.
#[derive(Drop)]
pub struct TermParser<'a> {
    pub alloc: Global,
    pub rest: &'a [Token],
    pub counts: TextCounts,
}

impl<'a> TermParser<'a> {
    /// A parser that is at the first of these tokens.
    pub fn new(alloc: Global, tokens: &'a [Token]) -> Self
        ensures { at result ≡ record { counts = none_yet; rest = tokens.now } }
    {
        TermParser {
            alloc,
            rest: tokens,
            counts: TextCounts {
                nodes: 0,
                stages: 0,
                params: 0,
                tables: 0,
                cases: 0,
            },
        }
    }
}

impl TermParser<'_> {
    /// The token ahead, unless all were passed.
    pub fn peek_token(&self) -> Option<Token>
        ensures { result ≡ head self.now.rest.now }
    {
        self.rest.first().copied()
    }

    fn peek_name(&self) -> Option<Name>
        ensures { result ≡ name_at (head self.now.rest.now) }
    {
        match self.rest {
            [Token::Name(name), ..] => Some(*name),
            _ => None,
        }
    }

    /// Whether this punctuation is ahead.
    pub fn is_punct_ahead(&self, mark: Punct) -> bool
        ensures { result ≡ is_mark_at mark (head self.now.rest.now) }
    {
        is_punct_token_ahead(self.peek_token(), mark)
    }

    /// Whether this keyword is ahead.
    pub fn is_keyword_ahead(&self, word: Keyword) -> bool
        ensures { result ≡ is_word_at word (head self.now.rest.now) }
    {
        is_keyword_token_ahead(self.peek_token(), word)
    }

    pub(crate) fn build_parse_error(&self, kind: ParseFaultKind) -> ParseError
        ensures { result ≡ ParseError.Fault (halt_of kind self.now.rest.now) }
    {
        ParseError::Fault(Halt {
            kind,
            remaining: self.rest.len(),
        })
    }

    /// The fault of the token ahead, or of the end, where the grammar does not allow it.
    pub fn build_unexpected_token_error(&self) -> ParseError
        ensures { result
            ≡ ParseError.Fault (halt_of (kind_at (head self.now.rest.now)) self.now.rest.now) }
    {
        match self.rest {
            [Token::NotAscii, ..] => self.build_parse_error(ParseFaultKind::NotAscii),
            [Token::Bad, ..] => self.build_parse_error(ParseFaultKind::BadToken),
            _ => self.build_parse_error(ParseFaultKind::Unexpected),
        }
    }

    // Passes the token ahead, which counts as the role.
    pub(crate) fn consume_and_count_token(&mut self, role: Role) -> Result<(), ParseError>
        ensures exact { Reads (λ _. (tt, at self.new)) result (reading.begin role (at self.old)) }
        ensures shorter { length self.new.rest.now ≤ length self.old.rest.now }
        ensures passes { OnOk result (self.new.rest.now ≡ tail self.old.rest.now) }
    {
        let Some(counts) = self.counts.compute_counts_within_limits_after_role(role) else {
            return Err(self.build_parse_error(ParseFaultKind::TooMany));
        };
        self.counts = counts;
        if let [_, rest @ ..] = self.rest {
            self.rest = rest;
        }
        Ok(())
    }

    /// Passes this punctuation, which counts as the role.
    #[tactic(auto, using(crate::proofs::Passing::mark_passes))]
    pub fn expect_punct(&mut self, mark: Punct, role: Role) -> Result<(), ParseError>
        ensures exact { Reads (λ _. (tt, at self.new)) result
            (reading.mark mark role (at self.old)) }
        ensures shorter { length self.new.rest.now ≤ length self.old.rest.now }
        ensures passes { OnOk result (length self.new.rest.now < length self.old.rest.now) }
    {
        if self.is_punct_ahead(mark) {
            self.consume_and_count_token(role)
        } else {
            Err(self.build_unexpected_token_error())
        }
    }

    // Passes the token ahead, which counts as the role, if it has a meaning; returns the meaning.
    fn expect_token_meaning<T: Drop>(
        &mut self,
        meaning: Option<T>,
        role: Role,
    ) -> Result<T, ParseError>
        ensures exact { Reads (λ x. (x, at self.new)) result
            (reading.meant role meaning (at self.old)) }
        ensures shorter { length self.new.rest.now ≤ length self.old.rest.now }
        ensures passes { OnOk result (self.new.rest.now ≡ tail self.old.rest.now) }
        ensures means { IfOk result (λ x. meaning ≡ Some x) }
    {
        let Some(meaning) = meaning else {
            return Err(self.build_unexpected_token_error());
        };
        self.consume_and_count_token(role)?;
        Ok(meaning)
    }

    /// Returns what was read, if this punctuation comes after it.
    pub fn expect_punct_and_return_value<T: Drop>(
        &mut self,
        value: T,
        mark: Punct,
    ) -> Result<T, ParseError>
        ensures exact { Reads (λ _. (tt, at self.new)) result
            (reading.mark mark Role.Plain (at self.old)) }
        ensures shorter { length self.new.rest.now ≤ length self.old.rest.now }
        ensures same { IfOk result (λ x. x ≡ value) }
    {
        self.expect_punct(mark, Role::Plain)?;
        Ok(value)
    }

    /// Passes this keyword, which counts as the role.
    #[tactic(auto, using(crate::proofs::Passing::word_passes))]
    pub fn expect_keyword(&mut self, word: Keyword, role: Role) -> Result<(), ParseError>
        ensures exact { Reads (λ _. (tt, at self.new)) result
            (reading.word word role (at self.old)) }
        ensures shorter { length self.new.rest.now ≤ length self.old.rest.now }
        ensures passes { OnOk result (length self.new.rest.now < length self.old.rest.now) }
    {
        if self.is_keyword_ahead(word) {
            self.consume_and_count_token(role)
        } else {
            Err(self.build_unexpected_token_error())
        }
    }

    /// Reads a name, which counts as the role.
    pub fn parse_name(&mut self, role: Role) -> Result<Name, ParseError>
        ensures exact { Reads (λ x. (x, at self.new)) result (reading.name role (at self.old)) }
        ensures shorter { length self.new.rest.now ≤ length self.old.rest.now }
    {
        let name = self.peek_name();
        self.expect_token_meaning(name, role)
    }

    /// Reads a number of at most 2,147,483,647, which counts as the role.
    pub fn parse_unsigned_number(&mut self, role: Role) -> Result<u32, ParseError>
        ensures exact { Reads (λ n. (n, at self.new)) result (reading.int role (at self.old)) }
        ensures shorter { length self.new.rest.now ≤ length self.old.rest.now }
        ensures fits { IfOk result (λ n. n ≤ MAX_NUMBER) }
    {
        match self.peek_token() {
            Some(Token::Int(value)) if value <= MAX_NUMBER => {
                self.consume_and_count_token(role)?;
                Ok(value)
            }
            Some(Token::Int(_) | Token::TooBig) => Err(self.build_parse_error(
                ParseFaultKind::NumberTooBig,
            )),
            _ => Err(self.build_unexpected_token_error()),
        }
    }

    // Whether the sign is a minus.
    #[tactic(auto, using(crate::proofs::Passing::sign_passes))]
    pub(crate) fn parse_sign(&mut self, role: Role) -> Result<bool, ParseError>
        ensures exact { Reads (λ b. (b, at self.new)) result (reading.sign role (at self.old)) }
        ensures shorter { length self.new.rest.now ≤ length self.old.rest.now }
        ensures passes { OnOk result (length self.new.rest.now < length self.old.rest.now) }
    {
        let negative = interpret_token_ahead_as_sign(self.peek_token());
        self.expect_token_meaning(negative, role)
    }

    #[tactic(auto, using(crate::proofs::Passing::factor_passes))]
    pub(crate) fn parse_product_op(&mut self) -> Result<ProductOp, ParseError>
        ensures exact { Reads (λ f. (f, at self.new)) result (reading.factor (at self.old)) }
        ensures shorter { length self.new.rest.now ≤ length self.old.rest.now }
        ensures passes { OnOk result (length self.new.rest.now < length self.old.rest.now) }
    {
        let factor = interpret_token_ahead_as_product_op(self.peek_token());
        self.expect_token_meaning(factor, Role::Node)
    }

    // Reads the keyword of an operator that is written as a call.
    pub(crate) fn parse_called_operator(&mut self) -> Result<CallOp, ParseError>
        ensures exact { Reads (λ c. (c, at self.new)) result (reading.call (at self.old)) }
        ensures shorter { length self.new.rest.now ≤ length self.old.rest.now }
    {
        let call = CallOp::from_token(self.peek_token());
        self.expect_token_meaning(call, Role::Node)
    }

    /// Reads a relation.
    pub fn parse_relation(&mut self) -> Result<Relation, ParseError>
        ensures exact { Reads (λ r. (r, at self.new)) result (reading.relation (at self.old)) }
        ensures shorter { length self.new.rest.now ≤ length self.old.rest.now }
    {
        let relation = interpret_token_ahead_as_relation(self.peek_token());
        self.expect_token_meaning(relation, Role::Plain)
    }

    /// Reads how an accumulator joins numbers.
    pub fn parse_reduction_op(&mut self) -> Result<ReductionOp, ParseError>
        ensures exact { Reads (λ f. (f, at self.new)) result (reading.fold (at self.old)) }
        ensures shorter { length self.new.rest.now ≤ length self.old.rest.now }
    {
        let fold = interpret_token_ahead_as_reduction(self.peek_token());
        self.expect_token_meaning(fold, Role::Plain)
    }
}
