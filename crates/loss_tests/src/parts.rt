//! How tests assert that rows go `ok`; of some rows several tests have the lines, each with a part of the losses.
use split_tables::{losses_told, session_told};
use std::test::Fail;
use test_kit::{Text, assert_rows};

// Asserts that a table has so many rows, and that each goes `ok`.
pub(crate) fn assert_losses(rt: &HostRuntime, table: &str, count: usize) -> Result<(), Fail> {
    assert_rows(rt, table, count, &losses_told)?;
    Ok(())
}

// Likewise a table of sessions.
pub(crate) fn assert_sessions(rt: &HostRuntime, table: &str, count: usize) -> Result<(), Fail> {
    assert_rows(rt, table, count, &session_told)?;
    Ok(())
}

// Asserts that a row goes `ok` with these losses, the last of its options.
pub(crate) fn assert_part(rt: &HostRuntime, losses: &str, row: &str) -> Result<(), Fail> {
    let mut text = Text::new(rt.alloc());
    text.put(row);
    text.put(losses);
    text.put("\n");
    assert_losses(rt, text.as_str(), 1)
}
