//! Lines that describe tables, and lines that do not.

use crate::{Table, TableEntries, TableFault};
use std::alloc::Global;
use std::test::Fail;

fn is_bad_table_line(alloc: Global, line: &[u8]) -> bool {
    matches!(Table::read(alloc, line), Err(TableFault::BadLine))
}

#[test]
fn a_line_is_a_table(rt: HostRuntime) -> Result<(), Fail> {
    let table = Table::read(
        rt.alloc(),
        b"gamma -1..2: 007 -0 2147483648 -9223372036854775808",
    )?;
    assert_eq!(rt; table.name.as_bytes(), b"gamma".as_slice());
    assert_eq!(rt; table.lo, -1);
    assert_eq!(rt;
        table.values.as_slice(),
        [7, 0, i32::MAX, i32::MIN].as_slice()
    );
    let entries = TableEntries::from_table_if_within_limits(&table)?.ok_or("entries")?;
    assert_eq!(rt; entries.look_up_entry_at_clamped_index(-5), 7);
    assert_eq!(rt; entries.look_up_entry_at_clamped_index(0), 0);
    assert_eq!(rt; entries.look_up_entry_at_clamped_index(5), i32::MIN);
    Ok(())
}

#[test]
fn other_lines_are_bad(rt: HostRuntime) -> Result<(), Fail> {
    let alloc = rt.alloc();
    assert!(rt; is_bad_table_line(alloc, b""));
    assert!(rt; is_bad_table_line(alloc, b"t 0..1: 1"));
    assert!(rt; is_bad_table_line(alloc, b"t 0..1: 1 2 3"));
    assert!(rt; is_bad_table_line(alloc, b"t 0..1: 1 2 "));
    assert!(rt; is_bad_table_line(alloc, b"t  0..1: 1 2"));
    assert!(rt; is_bad_table_line(alloc, b"t 0..1 : 1 2"));
    assert!(rt; is_bad_table_line(alloc, b"t 0..1: +1 2"));
    assert!(rt; is_bad_table_line(alloc, b"t 0..1: 1 9223372036854775808"));
    assert!(rt; is_bad_table_line(alloc, b"t 1..0:"));
    assert!(rt; is_bad_table_line(alloc, b"t 0.1: 1 2"));
    assert!(rt; is_bad_table_line(alloc, b"t 0...1: 1 2"));
    assert!(rt; is_bad_table_line(alloc, b"t 0..16385: 1"));
    assert!(rt; is_bad_table_line(alloc, b"table 0..1: 1 2"));
    assert!(rt; is_bad_table_line(alloc, b"2t 0..1: 1 2"));
    assert!(rt; is_bad_table_line(alloc, b"t 0..1: 1 2\r"));
    Ok(())
}
