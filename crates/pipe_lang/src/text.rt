#![tactic(auto)]
//! From a text to its tree.

ghost use Rattle.std.specs.Prelude.{◌≡◌, ◌-◌, ◌<◌, length, List, slice_get, unwrap_or, IfOk, IfErr, MatchResult};
ghost use Rattle.pipe_tree.specs.Limits.{most_bytes};
ghost use Rattle.pipe_tree.specs.Tree.{Declaration};
ghost use Rattle.pipe_tree.specs.Content.{content};
ghost use Rattle.pipe_tree.specs.Faults.{IsText, IsFault};
ghost use Rattle.pipe_tree.specs.FaultOf.{fault_of};

use crate::items::parse_program_items_from_tokens;
use pipe_term_parser::ParseError;
use pipe_tokens::lex;
use pipe_tree::{MAX_BYTES, ParseFault, ParseFaultKind, Tree};
use std::alloc::Global;

/// The tree of a program's text.
///
/// TooLong comes before any other fault. A text has at most one of the others, and none if it has a tree. Memory may run out for
/// any text that is not too long: no clause excludes it.
pub fn parse(alloc: Global, text: &[u8]) -> Result<Tree, ParseFault>
    // This comes first, and does not depend on the content of the text.
    ensures long { most_bytes < length text.now → result ≡ Err (ParseFault.TooLong most_bytes) }

    // What is read is a text of the grammar, within the limits.
    ensures found { IfOk result (λ tree. IsText text.now (content tree)) }
    // A text is read as its tree, unless memory runs out.
    ensures only { (tree : List Declaration) → IsText text.now tree
        → MatchResult result (λ t. content t ≡ tree) (λ e. e ≡ ParseFault.Memory) }
    // Where and why a text has no tree.
    ensures fault { IfErr result (IsFault text.now) }
{
    if text.len() > MAX_BYTES {
        return Err(ParseFault::TooLong(MAX_BYTES));
    }
    let lexed = lex(alloc, text)?;
    match parse_program_items_from_tokens(alloc, &lexed.tokens) {
        Ok(items) => Ok(Tree::new(items)),
        Err(ParseError::Memory) => Err(ParseFault::Memory),
        Err(ParseError::Fault(halt)) => {
            let offset = find_fault_offset(&lexed.starts, halt.remaining, text.len());
            Err(attach_fault_offset(halt.kind, offset))
        }
    }
}

// The start of the token from which on `remaining` tokens remain, or the end if there is none.
fn find_fault_offset(starts: &[usize], remaining: usize, end: usize) -> usize
    ensures { result ≡ unwrap_or (slice_get starts.now (length starts.now - remaining)) end }
{
    let passed = starts.len().saturating_sub(remaining);
    starts.get(passed).copied().unwrap_or(end)
}

fn attach_fault_offset(kind: ParseFaultKind, offset: usize) -> ParseFault
    ensures { result ≡ fault_of kind offset }
{
    match kind {
        ParseFaultKind::NotAscii => ParseFault::NotAscii(offset),
        ParseFaultKind::BadToken => ParseFault::BadToken(offset),
        ParseFaultKind::Unexpected => ParseFault::Unexpected(offset),
        ParseFaultKind::NumberTooBig => ParseFault::NumberTooBig(offset),
        ParseFaultKind::TooDeep => ParseFault::TooDeep(offset),
        ParseFaultKind::TooMany => ParseFault::TooMany(offset),
    }
}
