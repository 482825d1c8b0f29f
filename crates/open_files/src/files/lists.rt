//! Look-ups and changes in the lists of bindings and descriptors.
ghost use Rattle.std.specs.Prelude.{◌≡◌, ◌<◌, ◌+◌, ◌≤◌, ℕ, None, false, is_none, is_some, count_by, IfOk, IfSome, OnErr, OnOk, length, find, position, replicate, get_or, vec_len, vec_capacity};
ghost use Rattle.std.specs.List.{list_any};
ghost use Rattle.posix_tables.specs.Names.{without_place};
ghost use Rattle.posix_tables.specs.Open.{binding_of, is_binding, same_who, with_binding};
ghost use Rattle.open_files.specs.Kept.{refers_to};

use crate::files::kept::Reference;
use posix_tables::open::{Binding, DESCRIPTORS};
use posix_types::{Handle, Who};
use std::alloc::{AllocError, Global};

fn same_who(a: Who, b: Who) -> bool
    ensures { result ≡ same_who a b }
{
    match (a, b) {
        (Who::Setup, Who::Setup) => true,
        (Who::Thread(m), Who::Thread(n)) => m == n,
        _ => false,
    }
}

fn is_binding(who: Who, handle: Handle, binding: &Binding) -> bool
    ensures { result ≡ is_binding who handle binding.now }
{
    same_who(binding.who, who) && binding.handle == handle
}

fn find_binding(handles: &[Binding], who: Who, handle: Handle) -> Option<Binding>
    ensures { result ≡ find (is_binding who handle) handles.now }
{
    handles
        .iter()
        .copied()
        .find(|binding| is_binding(who, handle, binding))
}

fn place_of(handles: &[Binding], who: Who, handle: Handle) -> Option<usize>
    ensures place { result ≡ position (is_binding who handle) handles.now }
    ensures within { IfSome result (λ place. place < length handles.now) }
{
    handles
        .iter()
        .position(|binding| is_binding(who, handle, binding))
}

/// A handle's binding: among the caller's own, and then among those of the set-up.
#[tactic(auto, unfolding(posix_tables::specs::Open::binding_of))]
pub fn binding_of(handles: &[Binding], who: Who, handle: Handle) -> Option<Binding>
    ensures { result ≡ binding_of handles.now who handle }
{
    match find_binding(handles, who, handle) {
        Some(binding) => Some(binding),
        None => find_binding(handles, Who::Setup, handle),
    }
}

/// Takes a binding away.
pub fn drop_binding(handles: &mut Vec<Binding>, who: Who, handle: Handle)
    ensures items { handles.new.items
        ≡ without_place handles.old.items (position (is_binding who handle) handles.old.items) }
    ensures len { vec_len handles.new ≤ vec_len handles.old }
    ensures capacity { vec_capacity handles.new ≡ vec_capacity handles.old }
{
    if let Some(place) = place_of(handles, who, handle) {
        handles.remove(place);
    }
}

/// Binds a handle, in the room that there is; an older binding of it is dropped.
#[tactic(auto, unfolding(posix_tables::specs::Open::with_binding))]
pub fn bind(handles: &mut Vec<Binding>, binding: Binding)
    requires { vec_len handles.old < vec_capacity handles.old }
    ensures { handles.new.items ≡ with_binding handles.old.items binding }
{
    let older = place_of(handles, binding.who, binding.handle);
    match handles.push(binding) {
        Ok(()) => {}
        Err(_) => return,
    }
    if let Some(place) = older {
        handles.remove(place);
    }
}

/// The lowest free descriptor, if there is one.
pub fn first_free(descriptors: &[Option<Reference>]) -> Option<usize>
    ensures lowest { result ≡ position (λ slot. is_none slot) descriptors.now }
    ensures within { IfSome result (λ place. place < length descriptors.now) }
{
    descriptors.iter().position(|slot| slot.is_none())
}

/// What a descriptor refers to.
pub fn reference_at(descriptors: &[Option<Reference>], descriptor: usize) -> Option<Reference>
    ensures { result ≡ get_or descriptors.now descriptor None }
{
    if descriptor < descriptors.len() {
        descriptors[descriptor]
    } else {
        None
    }
}

/// Whether a descriptor refers to the description with this number.
pub fn is_used(descriptors: &[Option<Reference>], number: u64) -> bool
    ensures { result ≡ list_any (refers_to number) descriptors.now }
{
    descriptors.iter().any(|slot| match slot {
        Some(reference) => reference.number == number,
        None => false,
    })
}

/// How many descriptors are in use.
pub fn used_count(descriptors: &[Option<Reference>]) -> u32
    requires { length descriptors.now ≤ 64 }
    ensures value { result ≡ count_by is_some descriptors.now }
    ensures most { result ≤ 64 }
{
    descriptors.iter().filter(|slot| slot.is_some()).count() as u32
}

/// All descriptors, free.
pub fn free_descriptors(alloc: Global) -> Result<Vec<Option<Reference>>, AllocError>
    ensures { IfOk result (λ slots. slots.items ≡ replicate 64 None) }
{
    let mut slots = Vec::new(alloc);
    for _slot in 0..DESCRIPTORS {
        slots.push(None)?;
    }
    Ok(slots)
}
