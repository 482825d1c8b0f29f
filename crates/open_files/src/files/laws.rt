//! Laws of tables that are in order.
ghost use Rattle.open_files.specs.FilesLaws.{BindingsAreApart, FewAreOpen, KnownHandlesAreOpen};

/// A handle stands for an open description exactly where it is known.
pub fn known_handles_are_open()
    ensures { KnownHandlesAreOpen }
{}

/// No two bindings are of one descriptor, or of one handle of a caller.
pub fn bindings_are_apart()
    ensures { BindingsAreApart }
{}

/// At most 64 files are open.
pub fn at_most_64_files_are_open()
    ensures { FewAreOpen }
{}
