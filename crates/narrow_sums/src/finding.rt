#![tactic(auto)]
//! The sum that a formula is.

ghost use Rattle.std.specs.Prelude.{◌≡◌, [], ◌∷◌, ◌++◌, IfOk, IfSome};
ghost use Rattle.std.specs.Option.{option_map_or};
ghost use Rattle.job.specs.Views.{formula_view};
ghost use Rattle.narrow_sums.specs.SumTerms.{joined_terms, terms_formula};
ghost use Rattle.narrow_sums.specs.SumRows.{found_sum_formula};

use crate::bounds::find_narrow_sum_row_bounds;
use crate::matching::{is_narrow_sum_row_operator, match_narrow_sum_term};
use crate::ordering::order_narrow_sum_terms;
use crate::splitting::{
    split_narrow_sum_row_center, split_narrow_sum_row_number, split_narrow_sum_row_quotient,
};
use crate::sum_row::{FoundNarrowSum, NarrowSumQuotient, NarrowSumRow};
use crate::terms::{NarrowSumPart, NarrowSumRead, NarrowSumTerm};
use job::Formula;
use operators::BinaryOp;
use std::alloc::{AllocError, Global};

// Adds a term at the end of a list. (Its part is named, since the checker otherwise lacks the modules of that type.)
fn append_narrow_sum_term(
    mut terms: Vec<NarrowSumTerm>,
    term: NarrowSumTerm,
) -> Result<Vec<NarrowSumTerm>, AllocError>
    ensures { IfOk result (λ it. it.items ≡ terms.items ++ term ∷ []) }
{
    let _part: NarrowSumPart = term.part;
    terms.push(term)?;
    Ok(terms)
}

// Adds what a sum begins with to a list, if that is a term. Else it is what the sum begins with.
fn list_first_narrow_sum_term<'a>(
    formula: &'a Formula,
    terms: Vec<NarrowSumTerm>,
) -> Result<(Option<&'a Formula>, Vec<NarrowSumTerm>), AllocError>
    ensures { IfOk result (λ it. option_map_or (λ f. joined_terms (formula_view f.now) it.1.items) it.0
        (terms_formula it.1.items) ≡ joined_terms (formula_view formula.now) terms.items) }
{
    match match_narrow_sum_term(BinaryOp::Add, formula) {
        Some(term) => Ok((None, append_narrow_sum_term(terms, term)?)),
        None => Ok((Some(formula), terms)),
    }
}

// Adds the terms of a sum to a list, the last one first. Gives what the sum begins with, if that is no term.
fn list_narrow_sum_terms<'a>(
    formula: &'a Formula,
    terms: Vec<NarrowSumTerm>,
) -> Result<(Option<&'a Formula>, Vec<NarrowSumTerm>), AllocError>
    ensures { IfOk result (λ it. option_map_or (λ f. joined_terms (formula_view f.now) it.1.items) it.0
        (terms_formula it.1.items) ≡ joined_terms (formula_view formula.now) terms.items) }
{
    let Formula::Binary(op, front, last) = formula else {
        return list_first_narrow_sum_term(formula, terms);
    };
    if !is_narrow_sum_row_operator(*op) {
        return list_first_narrow_sum_term(formula, terms);
    }
    match match_narrow_sum_term(*op, last) {
        Some(term) => list_narrow_sum_terms(front, append_narrow_sum_term(terms, term)?),
        None => Ok((Some(formula), terms)),
    }
}

// Whether a term is a read.
fn is_plain_narrow_sum_term(term: &NarrowSumTerm) -> bool {
    match term.part {
        NarrowSumPart::Read(_) => term.factor == 1,
        NarrowSumPart::Difference(_) => false,
    }
}

// Whether each term is a read.
fn has_plain_narrow_sum_terms(terms: &[NarrowSumTerm]) -> bool {
    for k in 0..terms.len() {
        if !is_plain_narrow_sum_term(&terms[k]) {
            return false;
        }
    }
    true
}

// Whether a sum has parts enough to be computed at once. (No clause says which, since no value depends on it.)
fn is_long_narrow_sum_row(terms: &[NarrowSumTerm], has_start: bool) -> bool {
    match terms.len() {
        0 | 1 => false,
        2 => has_start || !has_plain_narrow_sum_terms(terms),
        _ => true,
    }
}

// Whether a quotient has parts enough. (Nor does one depend on this.)
fn is_long_narrow_sum_quotient(terms: &[NarrowSumTerm], has_start: bool, has_number: bool) -> bool {
    match terms.len() {
        0 => has_start && has_number,
        1 => has_start || has_number || !has_plain_narrow_sum_terms(terms),
        _ => true,
    }
}

// A row of these parts.
fn make_narrow_sum_row(
    alloc: Global,
    terms: Vec<NarrowSumTerm>,
    number: Option<i16>,
    quotient: Option<NarrowSumQuotient>,
    center: Option<NarrowSumRead>,
) -> Result<NarrowSumRow, AllocError>
    ensures terms { IfOk result (λ row. row.terms.items ≡ terms.items) }
    ensures number { IfOk result (λ row. row.number ≡ number) }
    ensures quotient { IfOk result (λ row. row.quotient ≡ quotient) }
    ensures center { IfOk result (λ row. row.center ≡ center) }
{
    let bounds = find_narrow_sum_row_bounds(&terms, &center);
    let order = order_narrow_sum_terms(alloc, &terms)?;
    Ok(NarrowSumRow {
        terms,
        order,
        number,
        quotient,
        center,
        bounds,
    })
}

/// The sum that a formula is, if it has parts enough to be computed at once.
///
/// # Errors
///
/// Fails only where memory is refused.
pub fn find_narrow_sum_row<'a>(
    alloc: Global,
    formula: &'a Formula,
) -> Result<Option<FoundNarrowSum<'a>>, AllocError>
    ensures { IfOk result (λ found. IfSome found
        (λ it. found_sum_formula it ≡ formula_view formula.now)) }
{
    let (center, rest) = split_narrow_sum_row_center(formula);
    let (quotient, whole) = split_narrow_sum_row_quotient(rest);
    let (number, sum) = split_narrow_sum_row_number(whole);
    let (start, terms) = list_narrow_sum_terms(sum, Vec::new(alloc))?;
    let is_long = match quotient {
        Some(_) => is_long_narrow_sum_quotient(&terms, start.is_some(), number.is_some()),
        None => is_long_narrow_sum_row(&terms, start.is_some()),
    };
    if !is_long {
        return Ok(None);
    }
    let row = make_narrow_sum_row(alloc, terms, number, quotient, center)?;
    Ok(Some(FoundNarrowSum { row, start }))
}
