//! Comparisons of results with what is expected. Each is proved once here; an assertion is proved again in each test that makes
//! it.

use std::alloc::Global;
use std::fmt::Debug;
use std::test::Fail;

/// Fails if the text is not the expected one.
pub fn assert_text(told: &str, wanted: &str) -> Result<(), Fail> {
    if told == wanted {
        return Ok(());
    }
    Err(Fail::new(format_args!("{told:?}, and not {wanted:?}")))
}

/// Fails if the `Debug` form of a value is not the expected text.
pub fn assert_debug_text<T: Debug>(alloc: Global, value: &T, wanted: &str) -> Result<(), Fail> {
    assert_text(&format!(in alloc; "{value:?}")?, wanted)
}

/// Fails if this does not hold, or if no result was found of which it could hold.
pub fn assert_condition(found: Option<bool>, what: &str) -> Result<(), Fail> {
    if found == Some(true) {
        return Ok(());
    }
    Err(Fail::new(format_args!("not so: {what}")))
}
