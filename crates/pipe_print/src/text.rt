#![tactic(auto)]
//! From a tree to its text.

ghost use Rattle.std.specs.Prelude.{◌≡◌, IfOk};
ghost use Rattle.pipe_tree.specs.Content.{content};
ghost use Rattle.pipe_print.specs.Canonical.{canonical};

use crate::printer::TokenPrinter;
use pipe_tokens::spell_tokens;
use pipe_tree::Tree;
use std::alloc::{AllocError, Global};

/// The canonical text of a tree: its tokens, with one blank between two neighbours that both begin with a letter or a digit, and
/// nothing else. Numbers have no leading zeros. Factors of 1 before a name, addends of 0 and divisors of 1 are omitted, as are
/// all parentheses that the grammar does not need.
pub fn print(alloc: Global, tree: &Tree) -> Result<Vec<u8>, AllocError>
    ensures { IfOk result (λ text. text.items ≡ canonical (content tree.now)) }
{
    let mut printer = TokenPrinter::new(alloc);
    for item in tree.items() {
        printer.print_item(item)?;
    }
    spell_tokens(alloc, &printer.tokens)
}
