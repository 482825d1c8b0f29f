//! Paths: the slash alone, or names that each have a slash before them.
ghost use Rattle.std.specs.Prelude.{◌≡◌, IfOk};
ghost use Rattle.std.specs.List.{list_all};
ghost use Rattle.layout_model.specs.Lines.{is_dots, is_name_byte};
ghost use Rattle.layout_model.specs.Spelling.{is_spelled};
ghost use Rattle.script_text.specs.Words.{names_in, parts_by, path_in};

use crate::cuts::{behind, front, length_before};
use posix_types::{Name, Path};
use std::alloc::{AllocError, Global};

/// Whether all bytes may stand in a name: 33 to 126 but the slash.
fn are_name_bytes(name: &[u8]) -> bool
    ensures { result ≡ list_all is_name_byte name.now }
{
    name.iter()
        .all(|byte| 33 <= *byte && *byte <= 126 && *byte != b'/')
}

/// Whether a name is one dot or two.
fn is_dots(name: &[u8]) -> bool
    ensures { result ≡ is_dots name.now }
{
    name == b".".as_slice() || name == b"..".as_slice()
}

/// Whether a name is spelled as names are.
fn is_spelled(name: &[u8]) -> bool
    ensures { result ≡ is_spelled name.now }
{
    are_name_bytes(name) && !name.is_empty() && !is_dots(name)
}

/// The names of a path, from what stands behind its first slash.
fn read_names(alloc: Global, text: &[u8]) -> Result<Option<Path>, AllocError>
    ensures { IfOk result (λ path. path ≡ names_in (parts_by 47 text.now)) }
{
    let mut names = Vec::new(alloc);
    let mut rest = text;
    loop {
        let end = length_before(rest, b'/');
        let name = front(rest, end);
        if !is_spelled(name) {
            return Ok(None);
        }
        let bytes = Vec::from_slice(alloc, name)?;
        names.push(Name { bytes })?;
        if end == rest.len() {
            return Ok(Some(Path { names }));
        }
        rest = behind(rest, end + 1);
    }
}

/// The path that a word spells, if it spells one. Its names may have any length, and be any number.
#[tactic(auto, unfolding(crate::specs::Words::path_in))]
pub(crate) fn read_path(alloc: Global, word: &[u8]) -> Result<Option<Path>, AllocError>
    ensures { IfOk result (λ path. path ≡ path_in word.now) }
{
    if word.is_empty() || word[0] != b'/' {
        return Ok(None);
    }
    if word.len() == 1 {
        return Ok(Some(Path {
            names: Vec::new(alloc),
        }));
    }
    read_names(alloc, behind(word, 1))
}
