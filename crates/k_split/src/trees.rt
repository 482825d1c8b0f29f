//! The tree of a K-Split.
ghost use Rattle.std.specs.Prelude.{◌≡◌, [], false, IfOk};
ghost use Rattle.block_io.specs.pm_model.Cells.{AllHome};
ghost use Rattle.block_io.specs.pm_model.Images.{words_of};
ghost use Rattle.block_io.specs.layout_model.Journal.{journaled};
ghost use Rattle.block_io.specs.image_model.Content.{content, found};
ghost use Rattle.block_io.specs.image_model.Live.{live_entries};
ghost use Rattle.k_tables.specs.posix_laws.TreeOf.{IsTreeOf};
ghost use Rattle.k_tables.specs.ContentsTrees.{tree_content};

use crate::state::KSplit;
use k_tables::content_tree;
use posix_types::Tree;
use std::alloc::{AllocError, Global};

impl KSplit {
    /// Every path with what stands there, a directory or the bytes of a file, in the byte order of
    /// the printed paths: what the volume makes of the words of the device, which is the content of
    /// the device where no entry of its log is live and nothing has gathered. Nothing is lent. It takes
    /// memory for the tree.
    pub fn tree(&self, alloc: Global) -> Result<Tree, AllocError>
        requires awake { self.now.lost ≡ false }
        requires home { AllHome self.now.cells }
        ensures tree { IfOk result
            (IsTreeOf (tree_content (found self.now.volume [] (words_of self.now.cells)))) }
        ensures content { self.now.lines ≡ []
            → live_entries self.now.volume (journaled (words_of self.now.cells)) ≡ []
            → IfOk result (IsTreeOf
            (tree_content (content self.now.volume.geometry (words_of self.now.cells)))) }
    {
        content_tree(
            alloc,
            &self.pm,
            self.tables.inodes(),
            self.tables.names(),
            self.tables.maps(),
        )
    }
}
