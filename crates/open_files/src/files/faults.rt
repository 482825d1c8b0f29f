//! Why nothing was opened.
use thiserror::Error;

/// Why nothing was opened.
#[derive(Clone, Copy, Debug, PartialEq, Eq, Error)]
pub enum OpenFault {
    /// All descriptors are in use; `count` is 64.
    #[error("all {count} descriptors are in use")]
    Full { count: u32 },
    /// The handle stands for no open description.
    #[error("the handle is not open")]
    NotOpen,
    /// No memory was left. After `reserve` no call answers it.
    #[error("no memory is left")]
    NoMemory,
}
