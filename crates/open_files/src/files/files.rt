//! The open files: the calls' part of the tables.
ghost use Rattle.std.specs.Prelude.{◌≡◌, ◌<◌, ◌≤◌, ◌≢◌, Some, None, true, false, IfOk, IfErr, IfSome, IsOk, IsSome, OnOk, OnErr, count_by, is_some, unwrap_or};
ghost use Rattle.std.specs.Option.{option_map};
ghost use Rattle.posix_tables.specs.Open.{closed, description_number, free_descriptor, is_full, is_open, key_of, nothing_open, opened, with_descriptor, with_offset, with_opened};
ghost use Rattle.posix_tables.specs.declared.open.Description.{Description};
ghost use Rattle.open_files.specs.Found.{description_in};
ghost use Rattle.open_files.specs.Order.{AreInOrder};
ghost use Rattle.open_files.specs.State.{IsDupFault, IsOpenFault};

use crate::files::faults::OpenFault;
use crate::files::found;
use crate::files::kept::{Kept, Reference};
use crate::files::lists::{
    bind, drop_binding, first_free, free_descriptors, reference_at, used_count,
};
use crate::files::opened::Opened;
use posix_tables::open::{Binding, DESCRIPTORS};
use posix_types::{Flags, Handle, Who};
use slab::Slab;
use std::alloc::{AllocError, Global};
use std::marker::Model;

/// What is open: descriptions, each with its number, 64 descriptors for all callers together, and
/// the handles of each caller. Contracts see the tables and whether there is room for one more.
#[derive(Drop)]
pub struct OpenFiles {
    kept: Slab<Kept>,
    ever_opened: u64,
    descriptors: Vec<Option<Reference>>,
    bindings: Vec<Binding>,
}

impl Model for OpenFiles {
    ghost use Rattle.std.specs.Prelude.{vec_len};
    ghost use Rattle.std.specs.Vec.{vec_capacity};
    ghost use Rattle.slab.specs.Slab.{slab_len};
    ghost use Rattle.open_files.specs.Kept.{tables_of};
    ghost use Rattle.open_files.specs.State.{room_for_one, AreKept, OpenState};

    ghost Value = { OpenState };

    ghost view = { λ files. record {
      tables = tables_of files.kept.slots files.ever_opened
          files.descriptors.items files.bindings.items;
      has_room = room_for_one (slab_len files.kept) files.kept.capacity
          (vec_len files.bindings) (vec_capacity files.bindings) files.ever_opened;
    } };

    ghost invariant = { λ files.
        AreKept files.kept.slots files.ever_opened files.descriptors.items files.bindings.items };
}

impl OpenFiles {
    /// Nothing is open.
    pub fn new(alloc: Global) -> Result<OpenFiles, AllocError>
        ensures { IfOk result (λ files. files.tables ≡ nothing_open) }
    {
        let descriptors = free_descriptors(alloc)?;
        Ok(OpenFiles {
            kept: Slab::new(alloc),
            ever_opened: 0,
            descriptors,
            bindings: Vec::new(alloc),
        })
    }

    /// What is open is in order: an open description has a descriptor, and what is bound is open.
    pub fn in_order(&self)
        ensures { AreInOrder self.now.tables }
    {
        let _ = &self.bindings;
    }

    /// Makes room for one more call of `open` or `dup`.
    pub fn reserve(&mut self) -> Result<(), AllocError>
        ensures room { OnOk result (self.new.has_room ≡ true) }
        ensures had_room { self.old.has_room ≡ true → IsOk result }
        ensures tables { self.new.tables ≡ self.old.tables }
    {
        if self.ever_opened == u64::MAX {
            return Err(AllocError);
        }
        self.kept.reserve(1)?;
        self.bindings.reserve(1)?;
        Ok(())
    }

    // Opens a description with this free descriptor.
    fn add(&mut self, who: Who, handle: Handle, descriptor: usize, ino: u32, flags: Flags)
        requires room { self.old.has_room ≡ true }
        requires free { free_descriptor self.old.tables ≡ Some descriptor }
        ensures { self.new.tables ≡ with_opened self.old.tables who handle
            (record { node = ino; offset = 0; flags = flags }) }
    {
        let number = self.ever_opened;
        let key = self.kept.insert_reserved(Kept {
            number,
            ino,
            offset: 0,
            flags,
        });
        self.ever_opened += 1;
        bind(
            &mut self.bindings,
            Binding {
                who,
                handle,
                descriptor,
            },
        );
        self.descriptors[descriptor] = Some(Reference { number, key });
    }

    /// Opens a description of an inode at offset 0, with the lowest free descriptor, which it
    /// answers, bound to a handle of the caller.
    pub fn open(
        &mut self,
        who: Who,
        handle: Handle,
        ino: u32,
        flags: Flags,
    ) -> Result<u32, OpenFault>
        ensures lowest { IfOk result (λ descriptor.
            free_descriptor self.old.tables ≡ Some descriptor) }
        ensures ok { OnOk result (self.new.tables ≡ with_opened self.old.tables who handle
            (record { node = ino; offset = 0; flags = flags })) }
        ensures cause { IfErr result (λ fault. IsOpenFault self.old fault) }
        ensures err { OnErr result (self.new.tables ≡ self.old.tables) }
        ensures room { OnErr result (self.old.has_room ≡ true → self.new.has_room ≡ true) }
    {
        let Some(descriptor) = first_free(&self.descriptors) else {
            return Err(OpenFault::Full {
                count: DESCRIPTORS as u32,
            });
        };
        if self.reserve().is_err() {
            return Err(OpenFault::NoMemory);
        }
        self.add(who, handle, descriptor, ino, flags);
        Ok(descriptor as u32)
    }

    /// Gives the description of a handle the lowest free descriptor too, which it answers, bound to
    /// another handle of the caller.
    pub fn dup(&mut self, who: Who, old: Handle, new: Handle) -> Result<u32, OpenFault>
        ensures lowest { IfOk result (λ descriptor.
            free_descriptor self.old.tables ≡ Some descriptor) }
        ensures known { OnOk result (IsSome (opened self.old.tables who old)) }
        ensures ok { OnOk result (self.new.tables ≡ with_descriptor self.old.tables who new
            (unwrap_or (key_of self.old.tables who old) 0)) }
        ensures cause { IfErr result (λ fault. IsDupFault self.old who old fault) }
        ensures err { OnErr result (self.new.tables ≡ self.old.tables) }
        ensures room { OnErr result (self.old.has_room ≡ true → self.new.has_room ≡ true) }
    {
        let Some(found) = found::find(&self.kept, &self.descriptors, &self.bindings, who, old)
        else {
            return Err(OpenFault::NotOpen);
        };
        let Some(descriptor) = first_free(&self.descriptors) else {
            return Err(OpenFault::Full {
                count: DESCRIPTORS as u32,
            });
        };
        if self.bindings.reserve(1).is_err() {
            return Err(OpenFault::NoMemory);
        }
        bind(
            &mut self.bindings,
            Binding {
                who,
                handle: new,
                descriptor,
            },
        );
        self.descriptors[descriptor] = Some(found.reference);
        Ok(descriptor as u32)
    }

    /// The description that a handle stands for.
    pub fn find(&self, who: Who, handle: Handle) -> Option<Opened>
        ensures description { opened self.now.tables who handle ≡ option_map description_in result }
        ensures key { IfSome result (λ o. description_number self.now.tables.descriptors o.key
            ≡ key_of self.now.tables who handle) }
        ensures in_use { IfSome result (λ o.
            IsSome (description_number self.now.tables.descriptors o.key)) }
    {
        match found::find(&self.kept, &self.descriptors, &self.bindings, who, handle) {
            Some(found) => Some(Opened {
                key: found.binding.descriptor,
                ino: found.kept.ino,
                offset: found.kept.offset,
                flags: found.kept.flags,
            }),
            None => None,
        }
    }

    /// Whether a description of this inode is open. It looks at the 64 descriptors alone.
    pub fn is_open(&self, ino: u32) -> bool
        ensures { result ≡ is_open self.now.tables ino }
    {
        found::is_open(&self.kept, &self.descriptors, ino)
    }

    /// Whether all descriptors are in use.
    pub fn is_full(&self) -> bool
        ensures { result ≡ is_full self.now.tables }
    {
        first_free(&self.descriptors).is_none()
    }

    /// How many descriptors are in use, 64 at most.
    pub fn count(&self) -> u32
        ensures value { result ≡ count_by is_some self.now.tables.descriptors }
        ensures most { result ≤ 64 }
    {
        used_count(&self.descriptors)
    }

    /// Moves the offset of the open description that has the key.
    pub fn set_offset(&mut self, key: usize, offset: u64)
        requires { IsSome (description_number self.old.tables.descriptors key) }
        ensures tables { self.new.tables ≡ with_offset self.old.tables
            (unwrap_or (description_number self.old.tables.descriptors key) 0) offset }
        ensures room { self.new.has_room ≡ self.old.has_room }
    {
        let Some(reference) = reference_at(&self.descriptors, key) else {
            return;
        };
        let Some(kept) = found::kept_at(&self.kept, reference.key) else {
            return;
        };
        found::replace(&mut self.kept, reference.key, Kept { offset, ..kept });
    }

    /// Closes a handle, and answers the inode of its description; None where it stands for none.
    /// Its descriptor is free then, and the description is gone with its last descriptor.
    pub fn close(&mut self, who: Who, handle: Handle) -> Option<u32>
        ensures ino { result
            ≡ option_map (λ (d : Description). d.node) (opened self.old.tables who handle) }
        ensures tables { self.new.tables ≡ closed self.old.tables who handle }
        ensures room { self.old.has_room ≡ true → self.new.has_room ≡ true }
    {
        let Some(found) = found::find(&self.kept, &self.descriptors, &self.bindings, who, handle)
        else {
            return None;
        };
        self.descriptors[found.binding.descriptor] = None;
        drop_binding(&mut self.bindings, found.binding.who, found.binding.handle);
        found::drop_unused(&mut self.kept, &self.descriptors, found.reference);
        Some(found.kept.ino)
    }
}
