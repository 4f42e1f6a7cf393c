#![tactic(auto)]
//! Expressions, with parentheses only where the grammar needs them.

ghost use Rattle.std.specs.Prelude.{◌≡◌, ◌++◌, OnOk};
ghost use Rattle.pipe_tree.specs.Tree.{view, unary, binary};
ghost use Rattle.pipe_print.specs.Canonical.{mark as mark_tokens, ◌⌢◌, grouped_if, relation_mark, expression_tokens};

use crate::forms::{
    BinaryForm, UnaryForm, choose_printed_binary_form, choose_printed_literal_operator_punct,
    choose_printed_relation_punct, choose_printed_ternary_keyword, choose_printed_unary_form,
};
use crate::place::ExpressionPlace;
use crate::printer::TokenPrinter;
use operators::{BinaryOp, Relation, UnaryOp};
use pipe_tokens::{Keyword, Punct};
use pipe_tree::Expr;
use std::alloc::AllocError;

// Whether the expression has parentheses there.
fn is_printed_in_parentheses(e: &Expr, place: ExpressionPlace) -> bool
    ensures { expression_tokens (view e.now) place
        ≡ grouped_if result (expression_tokens (view e.now) ExpressionPlace.Sum) }
{
    match e {
        Expr::Binary(op, ..) => match choose_printed_binary_form(*op) {
            BinaryForm::Sum(_) => place.has_sums_in_parentheses(),
            BinaryForm::Product(_) => place.has_products_in_parentheses(),
            BinaryForm::Call(_) => false,
        },
        Expr::Literal(..) => place.has_products_in_parentheses(),
        Expr::Number(_)
        | Expr::Name(_)
        | Expr::Read(..)
        | Expr::Lookup(..)
        | Expr::Unary(..)
        | Expr::Ternary(..)
        | Expr::Select(..)
        | Expr::Stencil(..) => false,
    }
}

impl TokenPrinter {
    pub fn print_relation_punct(&mut self, relation: Relation) -> Result<(), AllocError>
        ensures { OnOk result (self.new ≡ self.old ++ mark_tokens (relation_mark relation)) }
    {
        self.print_punct(choose_printed_relation_punct(relation))
    }

    /// The expression, in parentheses where the place needs them.
    #[cycle(expression)]
    pub fn print_expression(&mut self, e: &Expr, place: ExpressionPlace) -> Result<(), AllocError>
        ensures { OnOk result (self.new ≡ self.old ++ expression_tokens (view e.now) place) }
    {
        if is_printed_in_parentheses(e, place) {
            self.print_punct(Punct::OpenRound)?;
            self.print_expression_without_parentheses(e)?;
            self.print_punct(Punct::CloseRound)
        } else {
            self.print_expression_without_parentheses(e)
        }
    }

    // A mark, and an expression after it.
    #[cycle(expression)]
    fn print_punct_and_expression(
        &mut self,
        mark: Punct,
        e: &Expr,
        place: ExpressionPlace,
    ) -> Result<(), AllocError>
        ensures { OnOk result
            (self.new ≡ self.old ++ (mark_tokens mark ⌢ expression_tokens (view e.now) place)) }
    {
        self.print_punct(mark)?;
        self.print_expression(e, place)
    }

    // The expression without parentheses around it.
    #[cycle(expression)]
    fn print_expression_without_parentheses(&mut self, e: &Expr) -> Result<(), AllocError>
        ensures { OnOk result (self.new ≡ self.old ++ expression_tokens (view e.now) ExpressionPlace.Sum) }
    {
        match e {
            Expr::Number(value) => self.print_number(*value),
            Expr::Name(name) => self.print_name(name),
            Expr::Read(name, row, column) => self.print_read(name, row, column),
            Expr::Lookup(name, index) => {
                self.print_name(name)?;
                self.print_punct_and_expression(Punct::OpenSquare, index, ExpressionPlace::Sum)?;
                self.print_punct(Punct::CloseSquare)
            }
            Expr::Stencil(name, divisor, kernel) => self.print_stencil(name, *divisor, kernel),
            Expr::Unary(op, a) => self.print_unary(*op, a),
            Expr::Binary(op, a, b) => self.print_binary(*op, a, b),
            Expr::Ternary(op, a, b, c) => {
                self.print_keyword(choose_printed_ternary_keyword(*op))?;
                self.print_punct_and_expression(Punct::OpenRound, a, ExpressionPlace::Sum)?;
                self.print_punct_and_expression(Punct::Comma, b, ExpressionPlace::Sum)?;
                self.print_punct_and_expression(Punct::Comma, c, ExpressionPlace::Sum)?;
                self.print_punct(Punct::CloseRound)
            }
            Expr::Literal(op, a, number) => {
                self.print_expression(a, ExpressionPlace::Product)?;
                self.print_punct(choose_printed_literal_operator_punct(*op))?;
                self.print_number(*number)
            }
            Expr::Select(a, relation, b, then, otherwise) => {
                self.print_keyword(Keyword::Select)?;
                self.print_punct_and_expression(Punct::OpenRound, a, ExpressionPlace::Sum)?;
                self.print_punct_and_expression(
                    choose_printed_relation_punct(*relation),
                    b,
                    ExpressionPlace::Sum,
                )?;
                self.print_punct_and_expression(Punct::Comma, then, ExpressionPlace::Sum)?;
                self.print_punct_and_expression(Punct::Comma, otherwise, ExpressionPlace::Sum)?;
                self.print_punct(Punct::CloseRound)
            }
        }
    }

    #[cycle(expression)]
    fn print_unary(&mut self, op: UnaryOp, a: &Expr) -> Result<(), AllocError>
        ensures { OnOk result
            (self.new ≡ self.old ++ expression_tokens (unary op (view a.now)) ExpressionPlace.Sum) }
    {
        match choose_printed_unary_form(op) {
            UnaryForm::Prefix(mark) => self.print_punct_and_expression(
                mark,
                a,
                ExpressionPlace::Unary,
            ),
            UnaryForm::Call(word) => {
                self.print_keyword(word)?;
                self.print_punct_and_expression(Punct::OpenRound, a, ExpressionPlace::Sum)?;
                self.print_punct(Punct::CloseRound)
            }
        }
    }

    #[cycle(expression)]
    fn print_binary(&mut self, op: BinaryOp, a: &Expr, b: &Expr) -> Result<(), AllocError>
        ensures { OnOk result (self.new
            ≡ self.old ++ expression_tokens (binary op (view a.now) (view b.now)) ExpressionPlace.Sum) }
    {
        match choose_printed_binary_form(op) {
            BinaryForm::Sum(mark) => {
                self.print_expression(a, ExpressionPlace::Sum)?;
                self.print_punct_and_expression(mark, b, ExpressionPlace::Product)
            }
            BinaryForm::Product(mark) => {
                self.print_expression(a, ExpressionPlace::Product)?;
                self.print_punct_and_expression(mark, b, ExpressionPlace::Unary)
            }
            BinaryForm::Call(word) => {
                self.print_keyword(word)?;
                self.print_punct_and_expression(Punct::OpenRound, a, ExpressionPlace::Sum)?;
                self.print_punct_and_expression(Punct::Comma, b, ExpressionPlace::Sum)?;
                self.print_punct(Punct::CloseRound)
            }
        }
    }
}
