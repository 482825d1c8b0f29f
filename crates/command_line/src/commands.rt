//! The words of the command line, read as a command.
//!
//! `read_command` answers the command that the words are, exactly where they are one (`command_of`, a definition over
//! lists of bytes that reads like usage lines): `mkfs` with the name and the numbers of an image, `tree` with an image,
//! `step` or `run` with an image, a script and its options, or `load` with its numbers and mode. The layer above may rely on nothing else: words that are no
//! command are none of any part.

mod commands;
mod geometries;
mod options;
mod orders;

pub use commands::{Command, Image, read_command};
pub use image_layout::Geometry;
pub use options::{Options, plain_options, read_again};
pub use orders::{OrderWords, read_order};
pub use schedule::Order;
pub use script_text::{
    Call, Item, Mode, Name, Path, ScriptFault, Shape, State, Tree, TreeEntry, TreeNode, Who,
    default_shape, read_script, root_alone, scripts_are_spelled, scripts_are_within_limits,
    scripts_have_known_words,
};
