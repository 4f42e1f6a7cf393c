//! The entries of a table as formulas hold them.

ghost use Rattle.std.specs.Prelude.{◌≡◌, ◌<◌, IfOk, IfNone, IfSome, All, FitsSigned, length};
ghost use Rattle.std.specs.Int.{w32, int_gap};
ghost use Rattle.domains.specs.Arithmetic.{clamped};
ghost use Rattle.domains.specs.Span.{Holds, len_of};
ghost use Rattle.tables.specs.Entries.{AreEntries, IsEntries, entry_at, span_from};

use crate::table::{MOST_ENTRIES, MOST_INDEX, Table};
use domains::Span;
use sequences::SharedSequence;
use std::alloc::AllocError;
use std::marker::Model;

/// The entries of a table, one for each number of a span of indices. Copies share them.
#[derive(Debug, Drop)]
pub struct TableEntries {
    span: Span,
    values: SharedSequence<i32>,
}

impl Model for TableEntries {
    ghost use Rattle.std.specs.Prelude.{length};
    ghost use Rattle.tables.specs.Entries.{Entries as Shown, AreEntries};

    ghost Value = { Shown };

    ghost view = { λ e. record { span = e.span; values = e.values } };

    ghost invariant = { λ e. AreEntries e.span (length e.values) };
}

impl TableEntries {
    /// The entries of a table, which are shared and not copied. None if there are no entries, more than 4,096, or an index
    /// farther than 16,384 from 0.
    ///
    /// # Errors
    ///
    /// Fails only if there are too many copies to count.
    pub fn from_table_if_within_limits(table: &Table) -> Result<Option<TableEntries>, AllocError>
        ensures some { IfOk result (λ found. IfSome found (λ e. e
            ≡ record {
              span =
                  span_from table.now.lo (length table.now.values);
              values = table.now.values;
            })) }
        ensures within { IfOk result (λ found. IfSome found IsEntries) }
        ensures none { IfOk result (λ found. IfNone found
            (¬ (AreEntries (span_from table.now.lo (length table.now.values))
            (length table.now.values)))) }
    {
        let Some(span) = table.span() else {
            return Ok(None);
        };
        prove_table_values_fit_int32(table.values.as_slice());
        Ok(Some(TableEntries {
            span,
            values: table.values.clone()?,
        }))
    }

    /// The indices.
    pub fn span(&self) -> &Span
        ensures { result.now ≡ self.now.span }
    {
        &self.span
    }

    /// The entries, from that of the first index.
    pub fn values(&self) -> &[i32]
        ensures values { result.now ≡ self.now.values }
        ensures within { IsEntries self.now }
    {
        prove_table_values_fit_int32(self.values.as_slice());
        self.values.as_slice()
    }

    /// The entry at an index, which is clamped to the span.
    pub fn look_up_entry_at_clamped_index(&self, index: i32) -> i32
        ensures { result ≡ entry_at self.now index }
    {
        self.values.as_slice()[compute_offset_in_table_span(
            &self.span,
            clamp_to_table_span(&self.span, index),
        )]
    }
}

/// A copy shares the entries.
impl Clone for TableEntries {
    ghost is_clone = { λ it copy. copy ≡ it };

    fn clone(&self) -> Result<Self, AllocError> {
        Ok(TableEntries {
            span: self.span,
            values: self.values.clone()?,
        })
    }
}

// The number of the span that is nearest to v.
#[inline]
fn clamp_to_table_span(span: &Span, v: i32) -> i32
    ensures holds { Holds span.now result }
    ensures value { result ≡ clamped v span.now.lo span.now.hi }
{
    v.max(span.lo()).min(span.hi())
}

// How far a number of a span lies after the first.
#[inline]
fn compute_offset_in_table_span(span: &Span, v: i32) -> usize
    requires { Holds span.now v }
    ensures number { result ≡ int_gap span.now.lo v }
    ensures below { result < len_of span.now }
{
    (v - span.lo()) as usize
}

// All numbers fit in 32 bits.
fn prove_table_values_fit_int32(numbers: &[i32])
    ensures { All (FitsSigned w32) numbers.now }
{
    for number in numbers {
        let _number = *number;
    }
}
