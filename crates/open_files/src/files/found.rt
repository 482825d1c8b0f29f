//! Look-ups in what is kept.
ghost use Rattle.std.specs.Prelude.{◌≡◌, ◌≢◌, ◌+◌, ◌<◌, ◌≤◌, None, Some, true, false, ℕ, IfSome, IfNone, get_or, length, MatchOption};
ghost use Rattle.std.specs.List.{list_any};
ghost use Rattle.slab.specs.Slab.{get, slab_len, Updates};
ghost use Rattle.open_files.specs.Found.{refers_to_ino, IsFound, NotFound};
ghost use Rattle.open_files.specs.Kept.{refers_to};

use crate::files::kept::{Kept, Reference};
use crate::files::lists::{binding_of, is_used, reference_at};
use posix_tables::open::Binding;
use posix_types::{Handle, Who};
use slab::Slab;

/// What a handle stands for: its binding, what the descriptor refers to, and what is kept of that.
#[derive(Clone, Copy)]
pub struct Found {
    pub binding: Binding,
    pub reference: Reference,
    pub kept: Kept,
}

/// What is kept under a key.
pub fn kept_at(kept: &Slab<Kept>, key: usize) -> Option<Kept>
    ensures { result ≡ get kept.now key }
{
    kept.get(key).copied()
}

/// What a handle stands for; None where it stands for nothing.
pub fn find(
    kept: &Slab<Kept>,
    descriptors: &[Option<Reference>],
    handles: &[Binding],
    who: Who,
    handle: Handle,
) -> Option<Found>
    ensures found { IfSome result (λ found.
        IsFound kept.now.slots descriptors.now handles.now who handle found) }
    ensures within { IfSome result (λ found.
        found.binding.descriptor < length descriptors.now) }
    ensures none { IfNone result (NotFound kept.now.slots descriptors.now handles.now who handle) }
{
    let Some(binding) = binding_of(handles, who, handle) else {
        return None;
    };
    let Some(reference) = reference_at(descriptors, binding.descriptor) else {
        return None;
    };
    match kept_at(kept, reference.key) {
        Some(kept) => Some(Found {
            binding,
            reference,
            kept,
        }),
        None => None,
    }
}

fn is_of(kept: &Slab<Kept>, slot: &Option<Reference>, ino: u32) -> bool
    ensures { result ≡ refers_to_ino kept.now.slots ino slot.now }
{
    match slot {
        Some(reference) => match kept_at(kept, reference.key) {
            Some(kept) => kept.ino == ino,
            None => false,
        },
        None => false,
    }
}

/// Whether a descriptor refers to a description of this inode.
pub fn is_open(kept: &Slab<Kept>, descriptors: &[Option<Reference>], ino: u32) -> bool
    ensures { result ≡ list_any (refers_to_ino kept.now.slots ino) descriptors.now }
{
    descriptors.iter().any(|slot| is_of(kept, slot, ino))
}

/// Puts a description in the place of the one that has the key. It takes no memory.
pub fn replace(kept: &mut Slab<Kept>, key: usize, description: Kept)
    requires { get kept.old key ≢ None }
    ensures updates { Updates kept.old kept.new key (Some description) }
    ensures len { slab_len kept.new ≡ slab_len kept.old }
    ensures capacity { kept.new.capacity ≡ kept.old.capacity }
{
    kept.remove(key);
    kept.insert_reserved(description);
}

/// Drops a description, unless a descriptor refers to it.
pub fn drop_unused(kept: &mut Slab<Kept>, descriptors: &[Option<Reference>], reference: Reference)
    ensures used { list_any (refers_to reference.number) descriptors.now ≡ true
        → kept.new ≡ kept.old }
    ensures unused { list_any (refers_to reference.number) descriptors.now ≡ false
        → Updates kept.old kept.new reference.key None }
    ensures len { slab_len kept.new ≤ slab_len kept.old }
    ensures capacity { kept.new.capacity ≡ kept.old.capacity }
{
    if is_used(descriptors, reference.number) {
        return;
    }
    kept.try_remove(reference.key);
}
