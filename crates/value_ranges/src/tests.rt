//! Ranges that are as narrow as they can be.

use crate::ValueRange;
use crate::operands::{
    find_value_range_of_binary, find_value_range_of_quotient, find_value_range_of_square,
    find_value_range_of_unary,
};
use crate::table_entries::find_value_range_of_table;
use operators::{BinaryOp, UnaryOp};
use std::test::Fail;
use tables::{Table, TableEntries};

#[test]
fn ranges_of_sums_and_products_have_the_ends_of_their_numbers(rt: HostRuntime) -> Result<(), Fail> {
    let a = ValueRange { lo: -3, hi: 5 };
    let b = ValueRange { lo: -7, hi: 2 };
    let sum = find_value_range_of_binary(BinaryOp::Add, a, b);
    assert_eq!(rt; (sum.lo, sum.hi), (-10, 7));
    let difference = find_value_range_of_binary(BinaryOp::Sub, a, b);
    assert_eq!(rt; (difference.lo, difference.hi), (-5, 12));
    let product = find_value_range_of_binary(BinaryOp::Mul, a, b);
    assert_eq!(rt; (product.lo, product.hi), (-35, 21));
    let square = find_value_range_of_square(a);
    assert_eq!(rt; (square.lo, square.hi), (0, 25));
    Ok(())
}

#[test]
fn ranges_of_absolute_values_and_quotients_are_exact(rt: HostRuntime) -> Result<(), Fail> {
    let a = ValueRange {
        lo: -1020,
        hi: 1019,
    };
    let absolute = find_value_range_of_unary(UnaryOp::Abs, a);
    assert_eq!(rt; (absolute.lo, absolute.hi), (0, 1020));
    let quotient = find_value_range_of_quotient(a, 16);
    assert_eq!(rt; (quotient.lo, quotient.hi), (-64, 63));
    Ok(())
}

#[test]
fn a_sum_that_may_wrap_has_all_numbers(rt: HostRuntime) -> Result<(), Fail> {
    let a = ValueRange {
        lo: 0,
        hi: i32::MAX,
    };
    let sum = find_value_range_of_binary(BinaryOp::Add, a, a);
    assert_eq!(rt; (sum.lo, sum.hi), (i32::MIN, i32::MAX));
    Ok(())
}

#[test]
fn the_range_of_a_table_has_its_least_and_greatest_entry_as_ends(
    rt: HostRuntime,
) -> Result<(), Fail> {
    let table = Table::read(rt.alloc(), b"t -1..2: 7 -40 300 9")?;
    let entries = TableEntries::from_table_if_within_limits(&table)?.ok_or("entries")?;
    let range = find_value_range_of_table(&entries);
    assert_eq!(rt; (range.lo, range.hi), (-40, 300));
    Ok(())
}
