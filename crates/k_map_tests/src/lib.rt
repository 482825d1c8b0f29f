//! Calls on K-Split's maps as tests make them: on devices that break no rule, and each where what it
//! asks for is there.
//!
//! A call is a value, `MapCall`. `apply` tests at run time what the call asks for, and makes it or
//! answers `Unfit`; `made` does so with power that lasts. `fresh` makes a device, `begun` one with two
//! empty files, `opened` recovers an image and `reopened` takes a device as it is: each of them checks the device by
//! the rules first, and opens it anew.
//!
//! What is proved is that a K-Split so opened is fresh (`IsFresh`: it has its power, is in order, and no
//! word of its device waits or is lent), that each call may be made on one, and that one is left where
//! the call was answered. What a call makes of maps and bytes is proved in `k_split`, and shown by the
//! tests above. Stands on `k_split` and `k_check`.
#![tactic(auto)]

mod asking;
mod calls;
mod devices;
mod kinds;
mod shown;

pub use asking::{blocks_are_there, has_block, is_file, is_staging};
pub use calls::{apply, has_free, made};
pub use devices::{begun, block_bytes, fresh, left, opened, reopened};
pub use kinds::{MapCall, Put, Reply};
pub use shown::map_text;
