//! `truncate` of an open file.
ghost use Rattle.std.specs.Prelude.{◌≡◌, ◌^◌, true};
ghost use Rattle.file_calls.specs.eof_laws.Ends.{FilesEnd};
ghost use Rattle.file_calls.specs.Answers.{KeepsEnds};
ghost use Rattle.file_calls.specs.Runs.{RunsInSome};
ghost use Rattle.in_place.specs.pm_model.Powers.{is_on, Steps};
ghost use Rattle.file_truncate.specs.Truncates.{HasNothingStaged, IsLacking, IsTruncated};

use crate::laws;
use crate::sizes::{KSplit, NoMemory, OpenFiles};
use crate::truncates::asking::{Asked, ask, lacking};
use crate::truncates::outcomes::Truncated;
use crate::truncates::sizing::give_size;
use in_place::{FileTable, room_by};
use pm_lines::Power;
use posix_tables::outcomes::answer;
use posix_types::{Errno, Handle, Reply, Who};
use std::alloc::Global;

/// Whether writes of other callers that are out, and need `needs` blocks together, leave too little room for a `truncate`
/// that no row refuses: the blocks that it takes, and those that are left. Something may be staged of the file still.
pub fn lacks_room(
    k: &KSplit,
    tables: &OpenFiles,
    files: &FileTable,
    who: Who,
    handle: Handle,
    size: u64,
    needs: u64,
) -> Option<(u64, u64)>
    requires runs { RunsInSome k.now tables.now.tables files.now }
    ensures { IsLacking who handle size needs k.now tables.now.tables files.now result }
{
    laws::kept_numbers_are_those_of_the_state();
    let Some(file) = tables.find(who, handle) else {
        return None;
    };
    let room = room_by(k.geometry().data_blocks(), files.held());
    lacking(ask(file.flags.write, size, files.size(file.ino), room, needs))
}

/// Gives the file of a handle another size, beside writes of other callers that are out, of other
/// files, and need `needs` blocks together. Nothing is staged of the file, and nothing lies past the
/// ends of files.
///
/// # Errors
///
/// Out of memory: no call sees a change.
///
/// # Steps
///
/// At most 2^16; none where a row refuses it or it answers `RoundOver`.
pub fn truncate_file(
    alloc: Global,
    k: &mut KSplit,
    tables: &OpenFiles,
    files: &mut FileTable,
    who: Who,
    handle: Handle,
    size: u64,
    needs: u64,
    power: &mut Power,
) -> Result<Truncated, NoMemory>
    requires runs { RunsInSome k.old tables.now.tables files.old }
    requires bare { HasNothingStaged who handle tables.now.tables files.old }
    requires ends { FilesEnd k.old.volume files.old }
    requires power { is_on power.old ≡ true }
    ensures steps { Steps (2 ^ 16) power.old power.new }
    ensures ended { IsTruncated who handle size needs k.old tables.now.tables files.old k.new files.new
        power.old power.new result }
    ensures ends { KeepsEnds k.old files.old k.new files.new power.new }
{
    laws::the_end_of_a_file_is_cleaned_in_flight();
    laws::kept_numbers_are_those_of_the_state();
    let Some(opened) = tables.find(who, handle) else {
        return Ok(Truncated::Answered(answer(Reply::Error(Errno::EBADF))));
    };
    let room = room_by(k.geometry().data_blocks(), files.held());
    match ask(
        opened.flags.write,
        size,
        files.size(opened.ino),
        room,
        needs,
    ) {
        Asked::Answered(outcome) => Ok(Truncated::Answered(outcome)),
        Asked::Full { need, left } => Ok(Truncated::RoundOver { need, room: left }),
        Asked::Goes => give_size(alloc, k, files, opened.ino, size, power),
    }
}
