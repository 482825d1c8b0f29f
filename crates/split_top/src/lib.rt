//! The top call: the words of a command, files and a sink in, a status out.
//!
//! Whoever calls it may rely on the clauses of `top` alone. The chief one is `done`: what was put is the text of a
//! history and of a tree (`report_text`) where the history is legal and follows the script, and the tree is one that
//! the mode permits for it, strict or sync (`specs/Runs.antt`). Every other status says when it comes and what it leaves.
//!
//! A script is read by `script_text`, and run by `split_machine` in a World (`split_world`) that is mounted on the image,
//! with power for as many steps as `stop` says. What is printed comes from the device that is left: it is mounted again
//! by `log_replay`, first with power for as many steps as each number of `again` says (`remounting`), then with power for
//! all of it, and the tree is that of its content, which the World's promise permits: no mount changes the content,
//! wherever its power goes.
//!
//! `run` is run by threads of the machine (`split_threads`): `top` may start threads and wait, and then holds what it says if it
//! returns; the other words stay in functions that do neither. `mkfs` makes image and line before
//! it replaces the file. The output is put at once.
#![tactic(auto)]

mod device_images;
mod images;
mod jobs;
mod laws;
mod loading;
mod making;
mod mounting;
mod opening;
mod program;
mod remounting;
mod running;
mod runs;
mod showing;
mod stepping;
mod threads;
mod trials;

pub use command_line::{
    Call, Geometry, Item, Mode, Name, Path, Shape, State, Tree, TreeEntry, TreeNode, Who,
    default_shape, read_script, root_alone,
};
pub use laws::{runs_are_cut, runs_are_whole, thread_runs_are_whole};
pub use program::{top, top_alone};
pub use runs::Ran;
pub use split_threads::{Gate, OpenGate};
pub use trials::{remount_image, run_image};
