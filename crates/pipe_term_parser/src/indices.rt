#![tactic(auto)]
//! Reads at an index, and stencils with a kernel.

ghost use Rattle.std.specs.Prelude.{◌≡◌, ◌<◌, ◌≤◌, length, OnOk};
ghost use Rattle.pipe_tree.specs.Grammar as grammar;
ghost use Rattle.pipe_tree.specs.Tree.{view};
ghost use Rattle.pipe_tree.specs.Reading as reading;
ghost use Rattle.pipe_term_parser.specs.Answers.{at, Reads};
ghost use Rattle.pipe_term_parser.specs.declared.parser.TheConstants.{MAX_NUMBER};

use crate::lookahead::{interpret_token_ahead_as_sign, is_number_token_ahead};
use crate::parse_error::ParseError;
use crate::parser::{MAX_NUMBER, TermParser};
use pipe_tokens::{Keyword, Name, Punct};
use pipe_tree::{Expr, Index, Kernel, Role, StencilRow};

// A number with its sign.
fn apply_sign_to_literal(negative: bool, number: u32) -> i32
    requires { number ≤ MAX_NUMBER }
    ensures { result ≡ grammar.signed negative number }
{
    if negative {
        -(number as i32)
    } else {
        number as i32
    }
}

impl TermParser<'_> {
    // `MUL * NAME`, or a name alone.
    #[tactic(auto, unfolding(pipe_tree::specs::Reading::scaled))]
    fn parse_index_product(&mut self) -> Result<(u32, Name), ParseError>
        ensures exact { Reads (λ f. (f, at self.new)) result (reading.scaled (at self.old)) }
        ensures shorter { length self.new.rest.now ≤ length self.old.rest.now }
    {
        if !is_number_token_ahead(self.peek_token()) {
            return Ok((1, self.parse_name(Role::Plain)?));
        }
        let mul = self.parse_unsigned_number(Role::Plain)?;
        self.expect_punct(Punct::Star, Role::Plain)?;
        Ok((mul, self.parse_name(Role::Plain)?))
    }

    // A number that is added or subtracted, if there is one.
    #[tactic(auto, unfolding(pipe_tree::specs::Reading::addend))]
    fn parse_index_addend(&mut self) -> Result<i32, ParseError>
        ensures exact { Reads (λ k. (k, at self.new)) result (reading.addend (at self.old)) }
        ensures shorter { length self.new.rest.now ≤ length self.old.rest.now }
    {
        if interpret_token_ahead_as_sign(self.peek_token()).is_none() {
            return Ok(0);
        }
        let negative = self.parse_sign(Role::Plain)?;
        let number = self.parse_unsigned_number(Role::Plain)?;
        Ok(apply_sign_to_literal(negative, number))
    }

    #[tactic(auto, unfolding(pipe_tree::specs::Reading::divisor))]
    fn parse_index_divisor(&mut self) -> Result<u32, ParseError>
        ensures exact { Reads (λ d. (d, at self.new)) result (reading.divisor (at self.old)) }
        ensures shorter { length self.new.rest.now ≤ length self.old.rest.now }
    {
        self.expect_punct(Punct::Slash, Role::Plain)?;
        self.parse_unsigned_number(Role::Plain)
    }

    #[tactic(auto, unfolding(pipe_tree::specs::Reading::index))]
    fn parse_index(&mut self) -> Result<Index, ParseError>
        ensures exact { Reads (λ i. (i, at self.new)) result (reading.index (at self.old)) }
        ensures shorter { length self.new.rest.now ≤ length self.old.rest.now }
    {
        if self.is_punct_ahead(Punct::OpenRound) {
            return self.parse_grouped_index();
        }
        let (mul, name) = self.parse_index_product()?;
        if self.is_punct_ahead(Punct::Slash) {
            let div = self.parse_index_divisor()?;
            return Ok(Index {
                mul,
                name,
                add: 0,
                div,
            });
        }
        let add = self.parse_index_addend()?;
        Ok(Index {
            mul,
            name,
            add,
            div: 1,
        })
    }

    #[tactic(auto, unfolding(pipe_tree::specs::Reading::grouped_index))]
    fn parse_grouped_index(&mut self) -> Result<Index, ParseError>
        ensures exact { Reads (λ i. (i, at self.new)) result (reading.grouped_index (at self.old)) }
        ensures shorter { length self.new.rest.now ≤ length self.old.rest.now }
    {
        self.expect_punct(Punct::OpenRound, Role::Plain)?;
        let (mul, name) = self.parse_index_product()?;
        let add = self.parse_index_addend()?;
        self.expect_punct(Punct::CloseRound, Role::Plain)?;
        let div = self.parse_index_divisor()?;
        Ok(Index {
            mul,
            name,
            add,
            div,
        })
    }

    // A read of what a name names.
    pub(crate) fn parse_read_after_name(&mut self, name: Name) -> Result<Expr, ParseError>
        ensures exact { Reads (λ e. (view e, at self.new)) result (reading.read_end name (at self.old)) }
        ensures shorter { length self.new.rest.now ≤ length self.old.rest.now }
    {
        self.expect_punct(Punct::OpenRound, Role::Plain)?;
        let row = self.parse_index()?;
        self.expect_punct(Punct::Comma, Role::Plain)?;
        let column = self.parse_index()?;
        self.expect_punct(Punct::CloseRound, Role::Plain)?;
        Ok(Expr::Read(name, row, column))
    }

    #[tactic(auto, unfolding(pipe_tree::specs::Reading::a_stencil))]
    pub(crate) fn parse_stencil(&mut self) -> Result<Expr, ParseError>
        ensures exact { Reads (λ e. (view e, at self.new)) result
            (reading.a_stencil (at self.old)) }
        ensures shorter { length self.new.rest.now ≤ length self.old.rest.now }
    {
        self.expect_keyword(Keyword::Stencil, Role::Node)?;
        self.expect_punct(Punct::OpenRound, Role::Plain)?;
        let name = self.parse_name(Role::Plain)?;
        self.expect_punct(Punct::Comma, Role::Plain)?;
        let divisor = self.parse_unsigned_number(Role::Plain)?;
        self.expect_punct(Punct::Comma, Role::Plain)?;
        let kernel = self.parse_kernel()?;
        self.expect_punct(Punct::CloseRound, Role::Plain)?;
        Ok(Expr::Stencil(name, divisor, kernel))
    }

    #[tactic(auto, using(crate::proofs::Unrolled::kernel_unroll), unfolding(pipe_tree::specs::Reading::kernel))]
    fn parse_kernel(&mut self) -> Result<Kernel, ParseError>
        ensures exact { Reads (λ k. (k, at self.new)) result (reading.kernel (at self.old)) }
        ensures shorter { length self.new.rest.now ≤ length self.old.rest.now }
    {
        self.expect_punct(Punct::OpenSquare, Role::Plain)?;
        let first = self.parse_kernel_row()?;
        let mut rows = Vec::new(self.alloc);
        rows.push(first)?;
        while self.is_punct_ahead(Punct::Comma) {
            self.expect_punct(Punct::Comma, Role::Plain)?;
            let row = self.parse_kernel_row()?;
            rows.push(row)?;
        }
        self.expect_punct(Punct::CloseSquare, Role::Plain)?;
        Ok(Kernel::new(rows))
    }

    #[tactic(auto, using(crate::proofs::Unrolled::row_unroll), unfolding(pipe_tree::specs::Reading::row))]
    fn parse_kernel_row(&mut self) -> Result<StencilRow, ParseError>
        ensures exact { Reads (λ r. (r, at self.new)) result (reading.row (at self.old)) }
        ensures shorter { length self.new.rest.now ≤ length self.old.rest.now }
    {
        self.expect_punct(Punct::OpenSquare, Role::Plain)?;
        let first = self.parse_kernel_entry()?;
        let mut entries = Vec::new(self.alloc);
        entries.push(first)?;
        while self.is_punct_ahead(Punct::Comma) {
            self.expect_punct(Punct::Comma, Role::Plain)?;
            let entry = self.parse_kernel_entry()?;
            entries.push(entry)?;
        }
        self.expect_punct(Punct::CloseSquare, Role::Plain)?;
        Ok(StencilRow::new(entries))
    }

    #[tactic(auto, unfolding(pipe_tree::specs::Reading::entry))]
    fn parse_kernel_entry(&mut self) -> Result<i32, ParseError>
        ensures exact { Reads (λ k. (k, at self.new)) result (reading.entry (at self.old)) }
        ensures shorter { length self.new.rest.now ≤ length self.old.rest.now }
    {
        let negative = self.parse_optional_minus()?;
        let number = self.parse_unsigned_number(Role::Plain)?;
        Ok(apply_sign_to_literal(negative, number))
    }
}
