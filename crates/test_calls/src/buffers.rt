//! Bytes on their way into a writer, through a buffer.

use crate::checks::assert_condition;
use std::test::Fail;
use streams::Metered;
use write_buffer::WriteBuffer;

#[test]
fn all_that_can_be_put(rt: HostRuntime) -> Result<(), Fail> {
    let mut writer = Metered::new(Vec::new(rt.alloc()));
    let mut buffer = WriteBuffer::new();
    buffer.put_bytes(&mut writer, b"node ")?;
    buffer.put_decimal(&mut writer, 18_446_744_073_709_551_615)?;
    buffer.put_slices(&mut writer, &[b" ", b"", b"has "])?;
    buffer.put_hex(&mut writer, &[0, 9, 10, 171, 255])?;
    buffer.put_hex_slices(&mut writer, &[&[18], &[], &[52, 86]])?;
    assert_condition(Some(writer.inner.is_empty()), "all of it waits")?;
    buffer.flush(&mut writer)?;
    let line: &[u8] = b"node 18446744073709551615 has 00090aabff123456";
    assert_condition(
        Some(writer.inner.as_slice() == line),
        "all of it is written in order",
    )
}
