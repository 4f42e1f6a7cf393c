#![tactic(auto)]
//! Items.

ghost use Rattle.std.specs.Prelude.{◌≡◌, ◌++◌, OnOk};
ghost use Rattle.std.specs.List.{flat_map};
ghost use Rattle.std.specs.Option.{option_map};
ghost use Rattle.pipe_tree.specs.Tree.{view, branches, function_of, accumulator_of, declaration};
ghost use Rattle.pipe_print.specs.Canonical.{fold_word, param_tokens, table_tokens, names_tokens, image_tokens, variables_tokens};
ghost use Rattle.pipe_print.specs.Canonical.{test_tokens, condition_tokens, value_tokens, case_tokens, otherwise_tokens, function_tokens};
ghost use Rattle.pipe_print.specs.Canonical.{update_tokens, accumulator_tokens, output_tokens, item_tokens};

use crate::lists::ListEntry;
use crate::place::ExpressionPlace;
use crate::printer::TokenPrinter;
use operators::ReductionOp;
use pipe_tokens::{Keyword, Punct, Token};
use pipe_tree::{
    Accum, Case, Condition, Expr, Func, Image, Item, Names, Output, Param, Table, Test, Variable,
};
use std::alloc::AllocError;

fn choose_printed_reduction_keyword(fold: ReductionOp) -> Keyword
    ensures { result ≡ fold_word fold }
{
    match fold {
        ReductionOp::Sum => Keyword::Sum,
        ReductionOp::Min => Keyword::Min,
        ReductionOp::Max => Keyword::Max,
    }
}

impl TokenPrinter {
    fn print_param_item(&mut self, param: &Param) -> Result<(), AllocError>
        ensures { OnOk result (self.new ≡ self.old ++ param_tokens param.now) }
    {
        self.print_keyword(Keyword::Param)?;
        self.print_name(&param.name)?;
        self.print_punct(Punct::Semicolon)
    }

    fn print_table_item(&mut self, table: &Table) -> Result<(), AllocError>
        ensures { OnOk result (self.new ≡ self.old ++ table_tokens table.now) }
    {
        self.print_keyword(Keyword::Table)?;
        self.print_name(&table.name)?;
        self.print_affine_span(&table.span)?;
        self.print_punct(Punct::Semicolon)
    }

    // One name, or three.
    fn print_names(&mut self, names: &Names) -> Result<(), AllocError>
        ensures { OnOk result (self.new ≡ self.old ++ names_tokens names.now) }
    {
        match names {
            Names::One(name) => self.print_name(name),
            Names::Three(first, second, third) => {
                self.print_name(first)?;
                self.print_punct(Punct::Comma)?;
                self.print_name(second)?;
                self.print_punct(Punct::Comma)?;
                self.print_name(third)
            }
        }
    }

    fn print_image_item(&mut self, image: &Image) -> Result<(), AllocError>
        ensures { OnOk result (self.new ≡ self.old ++ image_tokens image.now) }
    {
        self.print_keyword(Keyword::Image)?;
        self.print_names(&image.names)?;
        self.print_punct(Punct::OpenRound)?;
        self.print_affine_sum(&image.rows)?;
        self.print_punct(Punct::Comma)?;
        self.print_affine_sum(&image.columns)?;
        self.print_punct(Punct::CloseRound)?;
        self.print_punct(Punct::Semicolon)
    }

    // The variables of rows and columns.
    fn print_variable_pair_with_spans(
        &mut self,
        row: &Variable,
        column: &Variable,
    ) -> Result<(), AllocError>
        ensures { OnOk result (self.new ≡ self.old ++ variables_tokens row.now column.now) }
    {
        self.print_punct(Punct::OpenRound)?;
        self.print_variable_with_span(row)?;
        self.print_punct(Punct::Comma)?;
        self.print_variable_with_span(column)?;
        self.print_punct(Punct::CloseRound)
    }

    fn print_condition(&mut self, condition: &Condition) -> Result<(), AllocError>
        ensures { OnOk result (self.new ≡ self.old ++ condition_tokens condition.now) }
    {
        self.print_separated_entries(&Token::Keyword(Keyword::And), condition.tests())
    }

    // `: VALUE;`
    fn print_colon_value_and_semicolon(&mut self, value: &Expr) -> Result<(), AllocError>
        ensures { OnOk result (self.new ≡ self.old ++ value_tokens (view value.now)) }
    {
        self.print_punct(Punct::Colon)?;
        self.print_expression(value, ExpressionPlace::Sum)?;
        self.print_punct(Punct::Semicolon)
    }

    fn print_cases(&mut self, cases: &[Case]) -> Result<(), AllocError>
        ensures { OnOk result (self.new ≡ self.old ++ flat_map case_tokens (branches cases.now)) }
    {
        for case in cases {
            self.print_keyword(Keyword::Case)?;
            self.print_condition(&case.condition)?;
            self.print_colon_value_and_semicolon(&case.value)?;
        }
        Ok(())
    }

    fn print_else_value(&mut self, otherwise: &Option<Expr>) -> Result<(), AllocError>
        ensures { OnOk result
            (self.new ≡ self.old ++ otherwise_tokens (option_map view otherwise.now)) }
    {
        match otherwise {
            Some(value) => {
                self.print_keyword(Keyword::Else)?;
                self.print_colon_value_and_semicolon(value)
            }
            None => Ok(()),
        }
    }

    fn print_func_item(&mut self, func: &Func) -> Result<(), AllocError>
        ensures { OnOk result (self.new ≡ self.old ++ function_tokens (function_of func.now)) }
    {
        self.print_keyword(Keyword::Func)?;
        self.print_name(&func.name)?;
        self.print_variable_pair_with_spans(&func.row, &func.column)?;
        self.print_punct(Punct::OpenCurly)?;
        self.print_cases(func.cases.case_list())?;
        self.print_else_value(&func.otherwise)?;
        self.print_punct(Punct::CloseCurly)
    }

    // The value that a point adds to its bin, and the bin.
    fn print_accum_update(&mut self, accum: &Accum) -> Result<(), AllocError>
        ensures { OnOk result (self.new ≡ self.old ++ update_tokens (accumulator_of accum.now)) }
    {
        self.print_keyword(choose_printed_reduction_keyword(accum.fold))?;
        self.print_expression(&accum.value, ExpressionPlace::Sum)?;
        self.print_keyword(Keyword::At)?;
        self.print_expression(&accum.bin, ExpressionPlace::Sum)?;
        self.print_punct(Punct::Semicolon)
    }

    fn print_accum_item(&mut self, accum: &Accum) -> Result<(), AllocError>
        ensures { OnOk result
            (self.new ≡ self.old ++ accumulator_tokens (accumulator_of accum.now)) }
    {
        self.print_keyword(Keyword::Accum)?;
        self.print_name(&accum.name)?;
        self.print_affine_span(&accum.bins)?;
        self.print_keyword(Keyword::Over)?;
        self.print_variable_pair_with_spans(&accum.row, &accum.column)?;
        self.print_accum_update(accum)
    }

    fn print_output_item(&mut self, output: &Output) -> Result<(), AllocError>
        ensures { OnOk result (self.new ≡ self.old ++ output_tokens output.now) }
    {
        self.print_keyword(Keyword::Output)?;
        self.print_names(&output.names)?;
        self.print_keyword(Keyword::Max)?;
        self.print_number(output.max)?;
        self.print_punct(Punct::Semicolon)
    }

    pub fn print_item(&mut self, item: &Item) -> Result<(), AllocError>
        ensures { OnOk result (self.new ≡ self.old ++ item_tokens (declaration item.now)) }
    {
        match item {
            Item::Param(param) => self.print_param_item(param),
            Item::Image(image) => self.print_image_item(image),
            Item::Table(table) => self.print_table_item(table),
            Item::Func(func) => self.print_func_item(func),
            Item::Accum(accum) => self.print_accum_item(accum),
            Item::Output(output) => self.print_output_item(output),
        }
    }
}

// A test of a condition.
impl ListEntry for Test {
    ghost tokens = { test_tokens };

    fn print_list_entry(&self, printer: &mut TokenPrinter) -> Result<(), AllocError> {
        match self {
            Test::Compare(name, relation, bound) => {
                printer.print_name(name)?;
                printer.print_relation_punct(*relation)?;
                printer.print_affine_sum(bound)
            }
            Test::Remainder(name, modulus, remainder) => {
                printer.print_name(name)?;
                printer.print_punct(Punct::Percent)?;
                printer.print_number(*modulus)?;
                printer.print_punct(Punct::Equals)?;
                printer.print_number(*remainder)
            }
        }
    }
}
