#![tactic(auto)]
//! Reads at an index, and stencils with a kernel.

ghost use Rattle.std.specs.Prelude.{◌≡◌, ◌++◌, OnOk};
ghost use Rattle.pipe_print.specs.Canonical.{◌⌢◌, scaled_tokens, addend_tokens, divisor_tokens, index_tokens, read_tokens};
ghost use Rattle.pipe_print.specs.Canonical.{stencil_tokens, row_tokens, entry_tokens};

use crate::lists::ListEntry;
use crate::printer::TokenPrinter;
use pipe_tokens::{Keyword, Name, Punct};
use pipe_tree::{Index, Kernel, StencilRow};
use std::alloc::AllocError;

impl TokenPrinter {
    // A number that is added or subtracted; nothing for 0.
    fn print_index_addend(&mut self, add: i32) -> Result<(), AllocError>
        ensures { OnOk result (self.new ≡ self.old ++ addend_tokens add) }
    {
        if add == 0 {
            return Ok(());
        }
        self.print_plus_or_minus(add < 0)?;
        self.print_number(add.unsigned_abs())
    }

    // A number that divides; nothing for 1.
    fn print_index_divisor(&mut self, div: u32) -> Result<(), AllocError>
        ensures { OnOk result (self.new ≡ self.old ++ divisor_tokens div) }
    {
        if div == 1 {
            return Ok(());
        }
        self.print_punct(Punct::Slash)?;
        self.print_number(div)
    }

    // What is divided.
    fn print_scaled_index_name_and_addend(&mut self, index: &Index) -> Result<(), AllocError>
        ensures { OnOk result (self.new
            ≡ self.old
            ++ (scaled_tokens index.now.mul index.now.name ⌢ addend_tokens index.now.add)) }
    {
        self.print_scaled_name(index.mul, &index.name)?;
        self.print_index_addend(index.add)
    }

    fn print_index(&mut self, index: &Index) -> Result<(), AllocError>
        ensures { OnOk result (self.new ≡ self.old ++ index_tokens index.now) }
    {
        if index.add == 0 || index.div == 1 {
            self.print_scaled_index_name_and_addend(index)?;
        } else {
            self.print_punct(Punct::OpenRound)?;
            self.print_scaled_index_name_and_addend(index)?;
            self.print_punct(Punct::CloseRound)?;
        }
        self.print_index_divisor(index.div)
    }

    pub fn print_read(&mut self, name: &Name, row: &Index, column: &Index) -> Result<(), AllocError>
        ensures { OnOk result (self.new ≡ self.old ++ read_tokens name.now row.now column.now) }
    {
        self.print_name(name)?;
        self.print_punct(Punct::OpenRound)?;
        self.print_index(row)?;
        self.print_punct(Punct::Comma)?;
        self.print_index(column)?;
        self.print_punct(Punct::CloseRound)
    }

    pub fn print_stencil(
        &mut self,
        name: &Name,
        divisor: u32,
        kernel: &Kernel,
    ) -> Result<(), AllocError>
        ensures { OnOk result (self.new ≡ self.old ++ stencil_tokens name.now divisor kernel.now) }
    {
        self.print_keyword(Keyword::Stencil)?;
        self.print_punct(Punct::OpenRound)?;
        self.print_name(name)?;
        self.print_punct(Punct::Comma)?;
        self.print_number(divisor)?;
        self.print_punct(Punct::Comma)?;
        self.print_bracketed_entries(kernel.rows())?;
        self.print_punct(Punct::CloseRound)
    }
}

// The row in brackets.
impl ListEntry for StencilRow {
    ghost tokens = { row_tokens };

    fn print_list_entry(&self, printer: &mut TokenPrinter) -> Result<(), AllocError> {
        printer.print_bracketed_entries(self.entries())
    }
}

// The number with its sign, where this is a minus.
impl ListEntry for i32 {
    ghost tokens = { entry_tokens };

    fn print_list_entry(&self, printer: &mut TokenPrinter) -> Result<(), AllocError> {
        if *self < 0 {
            printer.print_punct(Punct::Minus)?;
        }
        printer.print_number(self.unsigned_abs())
    }
}
