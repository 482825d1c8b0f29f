//! Nothing of a file lies past its end.
//!
//! Lemmas alone, over volumes and the table of what is kept of files. The end is the size that is
//! kept, by what is staged; the blocks of a file's map and those of its staged runs lie before it
//! (`FilesEnd`). The layer above may rely on this: so it stays when a node is made, when a name
//! goes or moves, when a directory or a file goes, and when a file gets another size. So a file
//! that grows shows zeros behind its old end once its last block is clean, and files hold no
//! block that the room does not count.

ghost use Rattle.eof_laws.specs.FilesLaws.{EndDropped, EndMade, EndRemoved, EndRenamed, EndSized, EndUnlinked, FreeHasNoMap};

/// Changes of names, nodes and sizes leave no block past the end of a file.
pub fn files_end_after_changes()
    ensures free { FreeHasNoMap }
    ensures made { EndMade }
    ensures unlinked { EndUnlinked }
    ensures removed { EndRemoved }
    ensures renamed { EndRenamed }
    ensures dropped { EndDropped }
    ensures sized { EndSized }
{}

pub use file_table::FileTable;
pub use log_checkpoint::{Commit, Geometry};
