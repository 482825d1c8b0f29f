//! Laws of the tree of a content.
ghost use Rattle.k_tables.specs.Laws.{HaveTrees, TellContents, HasOneTree};

/// A device whose words read as a volume that keeps the rules has the tables of a tree.
pub fn trees_can_be_read()
    ensures { HaveTrees }
{}

/// A tree tells the content whose tree it is, and a content has one tree.
pub fn trees_tell_contents()
    ensures content { TellContents }
    ensures one { HasOneTree }
{}
