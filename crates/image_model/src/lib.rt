//! What an image stands for, as a whole.
//!
//! Definitions alone, over an image as a function from word number to word, its journal read through: the volume
//! (the metadata as one value), who uses a data block, the live entries of the log, the content (what stands at
//! each path), the rules of a checked image in their printed order, honest images, and what a log holds. The
//! layers above the journal cite them; the check, the mount and the promises about a power loss are proved against
//! them.
//!
//! That no block of a chain comes twice follows from the rising extents. The log holds its claims only
//! where each claimed number is one of its lines.
//!
//! Stands on `pm_model`, `layout_model` and `extent_model`.
#![tactic(auto)]
