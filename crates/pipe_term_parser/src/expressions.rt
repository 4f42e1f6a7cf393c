#![tactic(auto)]
//! Expressions, within the number of levels that may still be opened.

ghost use Rattle.std.specs.Prelude.{◌≡◌, ◌<◌, ◌≤◌, length, suc, IfOk, IfErr};
ghost use Rattle.pipe_tree.specs.Tree.{view};
ghost use Rattle.pipe_tree.specs.Reading as reading;
ghost use Rattle.pipe_tree.specs.Reading.{halt_of, unary_at, product_at, expression_at};
ghost use Rattle.pipe_term_parser.specs.Answers.{at, Reads};

use crate::lookahead::{
    classify_unary_by_token_ahead, interpret_token_ahead_as_product_op,
    interpret_token_ahead_as_sign,
};
use crate::parse_error::ParseError;
use crate::parser::TermParser;
use operators::{BinaryOp, UnaryOp};
use pipe_tokens::{Keyword, Name, Punct};
use pipe_tree::{CallOp, Expr, Opening, ParseFaultKind, ProductOp, Role, UnaryStart};

impl TermParser<'_> {
    // The levels that are left after the token ahead, which opens one.
    fn compute_expression_levels_left(&self, levels: u32) -> Result<u32, ParseError>
        ensures ok { IfOk result (λ rest. levels ≡ suc rest) }
        ensures err { IfErr result
            (λ e. (levels ≡ 0) × (e ≡ ParseError.Fault (halt_of ParseFaultKind.TooDeep self.now.rest.now))) }
    {
        if levels == 0 {
            return Err(self.build_parse_error(ParseFaultKind::TooDeep));
        }
        Ok(levels - 1)
    }

    #[cycle(expression)]
    #[tactic(auto, using(pipe_tree::proofs::ExpressionLaws::expression_unroll), unfolding(pipe_tree::specs::Reading::expression_at))]
    pub fn parse_expression(&mut self, levels: u32) -> Result<Expr, ParseError>
        ensures exact { Reads (λ e. (view e, at self.new)) result
            (expression_at levels (at self.old)) }
        ensures shorter { length self.new.rest.now ≤ length self.old.rest.now }
    {
        let mut left = self.parse_product(levels)?;
        while interpret_token_ahead_as_sign(self.peek_token()).is_some() {
            let sum = Box::new(self.alloc, left)?;
            let op = if self.parse_sign(Role::Node)? {
                BinaryOp::Sub
            } else {
                BinaryOp::Add
            };
            let right = self.parse_product(levels)?;
            left = Expr::Binary(op, sum, Box::new(self.alloc, right)?);
        }
        Ok(left)
    }

    // An expression in a box of its own, as the operand of another.
    #[cycle(expression)]
    fn parse_boxed_expression(&mut self, levels: u32) -> Result<Box<Expr>, ParseError>
        ensures exact { Reads (λ e. (view e.value, at self.new)) result
            (expression_at levels (at self.old)) }
        ensures shorter { length self.new.rest.now ≤ length self.old.rest.now }
    {
        let value = self.parse_expression(levels)?;
        Ok(Box::new(self.alloc, value)?)
    }

    #[cycle(expression)]
    #[tactic(auto, using(pipe_tree::proofs::ExpressionLaws::product_at_unroll), unfolding(pipe_tree::specs::Reading::product_at))]
    fn parse_product(&mut self, levels: u32) -> Result<Expr, ParseError>
        ensures exact { Reads (λ e. (view e, at self.new)) result
            (product_at levels (at self.old)) }
        ensures shorter { length self.new.rest.now ≤ length self.old.rest.now }
    {
        let mut left = self.parse_unary(levels)?;
        while interpret_token_ahead_as_product_op(self.peek_token()).is_some() {
            let product = Box::new(self.alloc, left)?;
            left = match self.parse_product_op()? {
                ProductOp::Times => {
                    let right = self.parse_unary(levels)?;
                    Expr::Binary(BinaryOp::Mul, product, Box::new(self.alloc, right)?)
                }
                ProductOp::Literal(op) => Expr::Literal(
                    op,
                    product,
                    self.parse_unsigned_number(Role::Plain)?,
                ),
            };
        }
        Ok(left)
    }

    #[cycle(expression)]
    #[tactic(auto, using(pipe_tree::proofs::ExpressionLaws::names_at), unfolding(pipe_tree::specs::Reading::unary_at, pipe_tree::specs::Reading::product_at, pipe_tree::specs::Reading::expression_at))]
    fn parse_unary(&mut self, levels: u32) -> Result<Expr, ParseError>
        ensures exact { Reads (λ e. (view e, at self.new)) result (unary_at levels (at self.old)) }
        ensures shorter { length self.new.rest.now ≤ length self.old.rest.now }
    {
        match classify_unary_by_token_ahead(self.peek_token()) {
            UnaryStart::Number => Ok(Expr::Number(self.parse_unsigned_number(Role::Node)?)),
            UnaryStart::Name => self.parse_named_expression(levels),
            UnaryStart::Stencil => self.parse_stencil(),
            UnaryStart::Opening(opening) => {
                let levels = self.compute_expression_levels_left(levels)?;
                self.parse_expression_that_opens_level(opening, levels)
            }
            UnaryStart::Nothing => Err(self.build_unexpected_token_error()),
        }
    }

    // A name, a read of what it names, or an entry of a table, which opens a level.
    #[cycle(expression)]
    #[tactic(auto, unfolding(pipe_tree::specs::Reading::named, pipe_tree::specs::Reading::unary_at, pipe_tree::specs::Reading::product_at, pipe_tree::specs::Reading::expression_at))]
    fn parse_named_expression(&mut self, levels: u32) -> Result<Expr, ParseError>
        ensures exact { Reads (λ e. (view e, at self.new)) result
            (reading.named (reading.entry_at levels) (at self.old)) }
        ensures shorter { length self.new.rest.now ≤ length self.old.rest.now }
    {
        let name = self.parse_name(Role::Node)?;
        if self.is_punct_ahead(Punct::OpenRound) {
            return self.parse_read_after_name(name);
        }
        if self.is_punct_ahead(Punct::OpenSquare) {
            let levels = self.compute_expression_levels_left(levels)?;
            return self.parse_table_entry(name, levels);
        }
        Ok(Expr::Name(name))
    }

    // An entry of a table, with `levels` left after the bracket.
    #[cycle(expression)]
    fn parse_table_entry(&mut self, name: Name, levels: u32) -> Result<Expr, ParseError>
        ensures exact { Reads (λ e. (view e, at self.new)) result
            (reading.entry_of (expression_at levels) name (at self.old)) }
        ensures shorter { length self.new.rest.now ≤ length self.old.rest.now }
    {
        self.expect_punct(Punct::OpenSquare, Role::Plain)?;
        let index = self.parse_boxed_expression(levels)?;
        self.expect_punct(Punct::CloseSquare, Role::Plain)?;
        Ok(Expr::Lookup(name, index))
    }

    // What opens a level, with `levels` left after it.
    #[cycle(expression)]
    fn parse_expression_that_opens_level(
        &mut self,
        opening: Opening,
        levels: u32,
    ) -> Result<Expr, ParseError>
        ensures exact { Reads (λ e. (view e, at self.new)) result
            (reading.opened (unary_at levels) (expression_at levels) opening (at self.old)) }
        ensures shorter { length self.new.rest.now ≤ length self.old.rest.now }
    {
        match opening {
            Opening::Minus => {
                self.expect_punct(Punct::Minus, Role::Node)?;
                let operand = self.parse_unary(levels)?;
                Ok(Expr::Unary(UnaryOp::Neg, Box::new(self.alloc, operand)?))
            }
            Opening::Group => {
                self.expect_punct(Punct::OpenRound, Role::Plain)?;
                let inner = self.parse_expression(levels)?;
                Ok(self.expect_punct_and_return_value(inner, Punct::CloseRound)?)
            }
            Opening::Call => {
                let call = self.parse_called_operator()?;
                self.expect_punct(Punct::OpenRound, Role::Plain)?;
                let called = self.parse_arguments_into_call(call, levels)?;
                Ok(self.expect_punct_and_return_value(called, Punct::CloseRound)?)
            }
            Opening::Select => self.parse_select(levels),
        }
    }

    // The rest of a call, after its opening parenthesis.
    #[cycle(expression)]
    fn parse_arguments_into_call(&mut self, call: CallOp, levels: u32) -> Result<Expr, ParseError>
        ensures exact { Reads (λ e. (view e, at self.new)) result
            (reading.arguments (expression_at levels) call (at self.old)) }
        ensures shorter { length self.new.rest.now ≤ length self.old.rest.now }
    {
        match call {
            CallOp::Unary(op) => Ok(Expr::Unary(op, self.parse_boxed_expression(levels)?)),
            CallOp::Binary(op) => {
                let left = self.parse_boxed_expression(levels)?;
                self.expect_punct(Punct::Comma, Role::Plain)?;
                let right = self.parse_boxed_expression(levels)?;
                Ok(Expr::Binary(op, left, right))
            }
            CallOp::Ternary(op) => {
                let first = self.parse_boxed_expression(levels)?;
                self.expect_punct(Punct::Comma, Role::Plain)?;
                let second = self.parse_boxed_expression(levels)?;
                self.expect_punct(Punct::Comma, Role::Plain)?;
                let third = self.parse_boxed_expression(levels)?;
                Ok(Expr::Ternary(op, first, second, third))
            }
        }
    }

    #[cycle(expression)]
    fn parse_select(&mut self, levels: u32) -> Result<Expr, ParseError>
        ensures exact { Reads (λ e. (view e, at self.new)) result
            (reading.selected (expression_at levels) (at self.old)) }
        ensures shorter { length self.new.rest.now ≤ length self.old.rest.now }
    {
        self.expect_keyword(Keyword::Select, Role::Node)?;
        self.expect_punct(Punct::OpenRound, Role::Plain)?;
        let left = self.parse_boxed_expression(levels)?;
        let relation = self.parse_relation()?;
        let right = self.parse_boxed_expression(levels)?;
        self.expect_punct(Punct::Comma, Role::Plain)?;
        let then = self.parse_boxed_expression(levels)?;
        self.expect_punct(Punct::Comma, Role::Plain)?;
        let otherwise = self.parse_boxed_expression(levels)?;
        self.expect_punct(Punct::CloseRound, Role::Plain)?;
        Ok(Expr::Select(left, relation, right, then, otherwise))
    }
}
