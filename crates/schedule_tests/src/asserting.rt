//! How tests assert that the rows of a table go `ok`.
use split_tables::{losses_told, session_told};
use std::test::Fail;
use test_kit::assert_rows;

// Asserts that a table of scripts has so many rows, and that each goes `ok`.
pub(crate) fn assert_losses(rt: &HostRuntime, table: &str, count: usize) -> Result<(), Fail> {
    assert_rows(rt, table, count, &losses_told)?;
    Ok(())
}

// Likewise a table of sessions.
pub(crate) fn assert_sessions(rt: &HostRuntime, table: &str, count: usize) -> Result<(), Fail> {
    assert_rows(rt, table, count, &session_told)?;
    Ok(())
}
