//! The calls that take a handle: the rows of each, and what its last row does.
ghost use Rattle.std.specs.Prelude.{◌≡◌, ◌+◌, ◌≤◌, ◌<◌, ◌^◌, false, IfOk, IfNone, OnErr, is_none, length, unwrap_or};
ghost use Rattle.posix_tables.specs.Open.{is_full, key_of, may_read, may_write, opened};
ghost use Rattle.posix_spec.specs.State.{alone};
ghost use Rattle.posix_spec.specs.Step.{close_done, dup_done, fsync_done, Gives, moved_offset, pread_done, pwrite_done, read_done, seek_done, truncate_done, write_done, written};
ghost use Rattle.posix_tables.specs.Outcomes.{first};
ghost use Rattle.posix_spec.specs.FileRows.{appends, close_rows, content, dup_rows, file_number, fsync_rows, no_blocks, offset_of, read_rows, seek_base, seek_rows, seek_target, truncate_rows, write_rows, write_start};

use crate::state::State;
use posix_tables::bytes::{
    LONGEST_FILE, LONGEST_WRITE, bytes_from, is_too_far, moved_place, overwritten, resized,
};
use posix_tables::nodes::{bytes_at, published_at};
use posix_tables::outcomes::{answer, no_space, refused};
use posix_tables::room::{growth, write_need};
use posix_types::{Errno, Handle, Outcome, Reply, What, Whence, Who};
use std::alloc::AllocError;

impl State {
    fn is_unknown(&self, who: Who, handle: Handle) -> bool
        ensures { result ≡ is_none (opened self.now.tables who handle) }
    {
        self.tables.opened(who, handle).is_none()
    }

    fn may_read(&self, who: Who, handle: Handle) -> bool
        ensures { result ≡ may_read self.now.tables who handle }
    {
        match self.tables.opened(who, handle) {
            Some(description) => description.flags.read,
            None => false,
        }
    }

    fn may_write(&self, who: Who, handle: Handle) -> bool
        ensures { result ≡ may_write self.now.tables who handle }
    {
        match self.tables.opened(who, handle) {
            Some(description) => description.flags.write,
            None => false,
        }
    }

    fn appends(&self, who: Who, handle: Handle) -> bool
        ensures { result ≡ appends self.now.tables who handle }
    {
        match self.tables.opened(who, handle) {
            Some(description) => description.flags.append,
            None => false,
        }
    }

    pub(crate) fn file_number(&self, who: Who, handle: Handle) -> usize
        ensures { result ≡ file_number self.now.tables who handle }
    {
        match self.tables.opened(who, handle) {
            Some(description) => description.node,
            None => 0,
        }
    }

    fn offset_of(&self, who: Who, handle: Handle) -> u64
        ensures { result ≡ offset_of self.now.tables who handle }
    {
        match self.tables.opened(who, handle) {
            Some(description) => description.offset,
            None => 0,
        }
    }

    fn key_of(&self, who: Who, handle: Handle) -> usize
        ensures { result ≡ unwrap_or (key_of self.now.tables who handle) 0 }
    {
        match self.tables.key_of(who, handle) {
            Some(key) => key,
            None => 0,
        }
    }

    /// The bytes of the file that a handle stands for.
    fn content(&self, who: Who, handle: Handle) -> &[u8]
        ensures { result.now ≡ content self.now who handle }
    {
        bytes_at(&self.nodes, self.file_number(who, handle))
    }

    fn length(&self, who: Who, handle: Handle) -> u64
        ensures { result ≡ length (content self.now who handle) }
    {
        self.content(who, handle).len() as u64
    }

    /// Where a write begins: at the end of the file, or at the offset.
    pub(crate) fn write_start(&self, who: Who, handle: Handle) -> u64
        ensures { result ≡ write_start self.now who handle }
    {
        if self.appends(who, handle) {
            self.length(who, handle)
        } else {
            self.offset_of(who, handle)
        }
    }

    fn move_offset(&mut self, who: Who, handle: Handle, offset: u64)
        ensures { self.new ≡ moved_offset self.old who handle offset }
    {
        let key = self.key_of(who, handle);
        self.tables.set_offset(key, offset);
    }

    fn close_rows(&self, who: Who, handle: Handle) -> Option<Outcome>
        ensures { result ≡ first (close_rows self.now.tables who handle) }
    {
        if self.is_unknown(who, handle) {
            return refused(Errno::EBADF);
        }
        None
    }

    /// `close`: publishes the length; handle and descriptor go, the description with its last
    /// descriptor, and a file without name and description.
    #[tactic(auto, unfolding(crate::specs::Step::close_done, crate::specs::State::with_published))]
    pub(crate) fn close(&mut self, who: Who, handle: Handle) -> Outcome
        ensures { Gives self.old (close_rows self.old.tables who handle)
            (close_done alone self.old who handle) self.new result }
    {
        if let Some(outcome) = self.close_rows(who, handle) {
            return outcome;
        }
        let file = self.file_number(who, handle);
        self.publish(file);
        self.tables.close(who, handle);
        self.sweep(file);
        answer(Reply::Ok)
    }

    #[tactic(auto, unfolding(crate::specs::FileRows::dup_rows))]
    fn dup_rows(&self, who: Who, handle: Handle) -> Option<Outcome>
        ensures value { result ≡ first (dup_rows self.now.tables who handle) }
        ensures free { IfNone result (is_full self.now.tables ≡ false) }
    {
        if self.is_unknown(who, handle) {
            return refused(Errno::EBADF);
        }
        if self.tables.is_full() {
            return refused(Errno::EMFILE);
        }
        None
    }

    /// `dup`: gives a description the lowest free descriptor too, bound to a further handle.
    #[tactic(auto, unfolding(crate::specs::Step::dup_done))]
    pub(crate) fn dup(&mut self, who: Who, old: Handle, new: Handle) -> Result<Outcome, AllocError>
        ensures ok { IfOk result (Gives self.old (dup_rows self.old.tables who old)
            (dup_done self.old who old new) self.new) }
        ensures err { OnErr result (self.new ≡ self.old) }
    {
        if let Some(outcome) = self.dup_rows(who, old) {
            return Ok(outcome);
        }
        let descriptor = self.tables.next_descriptor() as u32;
        let key = self.key_of(who, old);
        self.tables.give_descriptor(who, new, key)?;
        Ok(answer(Reply::Fd(descriptor)))
    }

    fn read_rows(&self, who: Who, handle: Handle) -> Option<Outcome>
        ensures { result ≡ first (read_rows self.now.tables who handle) }
    {
        if !self.may_read(who, handle) {
            return refused(Errno::EBADF);
        }
        None
    }

    /// `read`: answers bytes from the offset on, which rises by their number.
    #[tactic(auto, unfolding(crate::specs::Step::read_done))]
    pub(crate) fn read(
        &mut self,
        who: Who,
        handle: Handle,
        count: u64,
    ) -> Result<Outcome, AllocError>
        ensures ok { IfOk result (Gives self.old (read_rows self.old.tables who handle)
            (read_done self.old who handle count) self.new) }
        ensures err { OnErr result (self.new ≡ self.old) }
    {
        if let Some(outcome) = self.read_rows(who, handle) {
            return Ok(outcome);
        }
        let offset = self.offset_of(who, handle);
        let read = bytes_from(
            *self.nodes.allocator(),
            self.content(who, handle),
            offset,
            count,
        )?;
        self.move_offset(who, handle, offset + read.len() as u64);
        Ok(answer(Reply::Bytes(read)))
    }

    /// `pread`: answers bytes from a place on.
    #[tactic(auto, unfolding(crate::specs::Step::pread_done))]
    pub(crate) fn pread(
        &self,
        who: Who,
        handle: Handle,
        place: u64,
        count: u64,
    ) -> Result<Outcome, AllocError>
        ensures { IfOk result (Gives self.now (read_rows self.now.tables who handle)
            (pread_done self.now who handle place count) self.now) }
    {
        if let Some(outcome) = self.read_rows(who, handle) {
            return Ok(outcome);
        }
        let read = bytes_from(
            *self.nodes.allocator(),
            self.content(who, handle),
            place,
            count,
        )?;
        Ok(answer(Reply::Bytes(read)))
    }

    /// The row that fits where more blocks are needed than are left.
    fn no_blocks(&self, need: u64) -> Option<Outcome>
        ensures { result ≡ no_blocks self.now need }
    {
        let room = self.room();
        if room < need {
            no_space(What::Blocks, need, room)
        } else {
            None
        }
    }

    #[tactic(auto, unfolding(crate::specs::FileRows::write_rows))]
    pub(crate) fn write_rows(
        &self,
        who: Who,
        handle: Handle,
        start: u64,
        bytes: &[u8],
    ) -> Option<Outcome>
        ensures value { result ≡ first (write_rows self.now who handle start bytes.now) }
        ensures fits { IfNone result (start + length bytes.now ≤ LONGEST_FILE) }
    {
        if !self.may_write(who, handle) {
            return refused(Errno::EBADF);
        }
        if LONGEST_WRITE < bytes.len() {
            return refused(Errno::EINVAL);
        }
        if bytes.len() == 0 {
            return Some(answer(Reply::Count(0)));
        }
        if is_too_far(start, bytes.len() as u64) {
            return refused(Errno::EFBIG);
        }
        let end = start + bytes.len() as u64;
        self.no_blocks(write_need(self.mode, self.length(who, handle), start, end))
    }

    /// Sets bytes of the file from a start on; a gap is filled with zeros.
    #[tactic(auto, unfolding(crate::specs::Step::written))]
    fn put_bytes(
        &mut self,
        who: Who,
        handle: Handle,
        start: u64,
        bytes: &[u8],
    ) -> Result<(), AllocError>
        requires { start + length bytes.now < 2 ^ 64 }
        ensures ok { IfOk result (λ _.
            self.new ≡ written alone self.old who handle start bytes.now) }
        ensures err { OnErr result (self.new ≡ self.old) }
    {
        let file = self.file_number(who, handle);
        let published = published_at(&self.nodes, file);
        let made = overwritten(
            *self.nodes.allocator(),
            self.content(who, handle),
            start,
            bytes,
        )?;
        self.set_file(file, made, published);
        Ok(())
    }

    /// `write`: sets bytes from the offset on, or from the end on; the offset is then behind them.
    #[tactic(auto, unfolding(crate::specs::Step::write_done))]
    pub(crate) fn write(
        &mut self,
        who: Who,
        handle: Handle,
        bytes: &[u8],
    ) -> Result<Outcome, AllocError>
        ensures ok { IfOk result (Gives self.old
            (write_rows self.old who handle (write_start self.old who handle) bytes.now)
            (write_done alone self.old who handle bytes.now) self.new) }
        ensures err { OnErr result (self.new ≡ self.old) }
    {
        let start = self.write_start(who, handle);
        if let Some(outcome) = self.write_rows(who, handle, start, bytes) {
            return Ok(outcome);
        }
        self.put_bytes(who, handle, start, bytes)?;
        self.move_offset(who, handle, start + bytes.len() as u64);
        Ok(answer(Reply::Count(bytes.len() as u64)))
    }

    /// `pwrite`: sets bytes from a place on.
    #[tactic(auto, unfolding(crate::specs::Step::pwrite_done))]
    pub(crate) fn pwrite(
        &mut self,
        who: Who,
        handle: Handle,
        place: u64,
        bytes: &[u8],
    ) -> Result<Outcome, AllocError>
        ensures ok { IfOk result (Gives self.old (write_rows self.old who handle place bytes.now)
            (pwrite_done alone self.old who handle place bytes.now) self.new) }
        ensures err { OnErr result (self.new ≡ self.old) }
    {
        if let Some(outcome) = self.write_rows(who, handle, place, bytes) {
            return Ok(outcome);
        }
        self.put_bytes(who, handle, place, bytes)?;
        Ok(answer(Reply::Count(bytes.len() as u64)))
    }

    fn seek_base(&self, who: Who, handle: Handle, whence: Whence) -> u64
        ensures { result ≡ seek_base self.now who handle whence }
    {
        match whence {
            Whence::Set => 0,
            Whence::Cur => self.offset_of(who, handle),
            Whence::End => self.length(who, handle),
        }
    }

    /// Where a seek leads, if it may lead there.
    fn seek_target(&self, who: Who, handle: Handle, whence: Whence, by: i64) -> Option<u64>
        ensures { result ≡ seek_target self.now who handle whence by }
    {
        moved_place(self.seek_base(who, handle, whence), by)
    }

    #[tactic(auto, unfolding(crate::specs::FileRows::seek_rows))]
    fn seek_rows(&self, who: Who, handle: Handle, whence: Whence, by: i64) -> Option<Outcome>
        ensures { result ≡ first (seek_rows self.now who handle whence by) }
    {
        if self.is_unknown(who, handle) {
            return refused(Errno::EBADF);
        }
        if self.seek_target(who, handle, whence, by).is_none() {
            return refused(Errno::EINVAL);
        }
        None
    }

    /// `seek`: sets the offset.
    #[tactic(auto, unfolding(crate::specs::Step::seek_done))]
    pub(crate) fn seek(&mut self, who: Who, handle: Handle, whence: Whence, by: i64) -> Outcome
        ensures { Gives self.old (seek_rows self.old who handle whence by)
            (seek_done self.old who handle whence by) self.new result }
    {
        if let Some(outcome) = self.seek_rows(who, handle, whence, by) {
            return outcome;
        }
        let place = self.seek_target(who, handle, whence, by).unwrap_or(0);
        self.move_offset(who, handle, place);
        answer(Reply::Offset(place))
    }

    #[tactic(auto, unfolding(crate::specs::FileRows::truncate_rows))]
    fn truncate_rows(&self, who: Who, handle: Handle, length: u64) -> Option<Outcome>
        ensures value { result ≡ first (truncate_rows self.now who handle length) }
        ensures fits { IfNone result (length ≤ LONGEST_FILE) }
    {
        if !self.may_write(who, handle) {
            return refused(Errno::EBADF);
        }
        if LONGEST_FILE < length {
            return refused(Errno::EFBIG);
        }
        let before = self.length(who, handle);
        if length <= before {
            return None;
        }
        self.no_blocks(growth(before, length))
    }

    /// `truncate`: cuts the file, or lengthens it with zeros, and publishes the length.
    #[tactic(auto, unfolding(crate::specs::Step::truncate_done))]
    pub(crate) fn truncate(
        &mut self,
        who: Who,
        handle: Handle,
        length: u64,
    ) -> Result<Outcome, AllocError>
        ensures ok { IfOk result (Gives self.old (truncate_rows self.old who handle length)
            (truncate_done self.old who handle length) self.new) }
        ensures err { OnErr result (self.new ≡ self.old) }
    {
        if let Some(outcome) = self.truncate_rows(who, handle, length) {
            return Ok(outcome);
        }
        let file = self.file_number(who, handle);
        let made = resized(*self.nodes.allocator(), self.content(who, handle), length)?;
        self.set_file(file, made, length);
        Ok(answer(Reply::Ok))
    }

    fn fsync_rows(&self, who: Who, handle: Handle) -> Option<Outcome>
        ensures { result ≡ first (fsync_rows self.now.tables who handle) }
    {
        if self.is_unknown(who, handle) {
            return refused(Errno::EBADF);
        }
        None
    }

    /// `fsync`: publishes the length.
    #[tactic(auto, unfolding(crate::specs::Step::fsync_done))]
    pub(crate) fn fsync(&mut self, who: Who, handle: Handle) -> Outcome
        ensures { Gives self.old (fsync_rows self.old.tables who handle)
            (fsync_done self.old who handle) self.new result }
    {
        if let Some(outcome) = self.fsync_rows(who, handle) {
            return outcome;
        }
        let number = self.file_number(who, handle);
        self.publish(number);
        answer(Reply::Ok)
    }
}
