//! What is open: descriptions, descriptors and handles.
ghost use Rattle.std.specs.Prelude.{◌≡◌, ◌<◌, None, false, is_none, IfOk, OnErr, OnOk, length, find, position, replicate, slice_get};
ghost use Rattle.std.specs.List.{list_any};
ghost use Rattle.std.specs.Option.{option_flatten};
ghost use Rattle.posix_tables.specs.Open.{binding_of, closed, describes, description_number, free_descriptor, has_key, is_binding, is_full, is_open, key_of, next_descriptor, nothing_open, opened, same_who, with_binding, with_descriptor, with_offset, with_opened, without_binding, without_unused};
ghost use Rattle.posix_tables.specs.Names.{without_place};

use posix_types::{Flags, Handle, Who};
use std::alloc::{AllocError, Global};
use std::marker::Model;

/// How many descriptors there are, for all callers together.
pub const DESCRIPTORS: usize = 64;

/// An open file description: the number of its node, its offset in bytes, and how it was opened.
#[derive(Clone, Copy, Debug, PartialEq, Eq)]
pub struct Description {
    pub node: usize,
    pub offset: u64,
    pub flags: Flags,
}

/// The descriptor that a caller's handle stands for.
#[derive(Clone, Copy, Debug, PartialEq, Eq)]
pub struct Binding {
    pub who: Who,
    pub handle: Handle,
    pub descriptor: usize,
}

fn same_who(a: Who, b: Who) -> bool
    ensures { result ≡ same_who a b }
{
    match (a, b) {
        (Who::Setup, Who::Setup) => true,
        (Who::Thread(m), Who::Thread(n)) => m == n,
        _ => false,
    }
}

fn is_binding(who: Who, handle: Handle, binding: &Binding) -> bool
    ensures { result ≡ is_binding who handle binding.now }
{
    same_who(binding.who, who) && binding.handle == handle
}

fn find_binding(handles: &[Binding], who: Who, handle: Handle) -> Option<Binding>
    ensures { result ≡ find (is_binding who handle) handles.now }
{
    handles
        .iter()
        .copied()
        .find(|binding| is_binding(who, handle, binding))
}

fn place_of(handles: &[Binding], who: Who, handle: Handle) -> Option<usize>
    ensures { result ≡ position (is_binding who handle) handles.now }
{
    handles
        .iter()
        .position(|binding| is_binding(who, handle, binding))
}

/// A handle's binding: among the caller's own, and then among those of the set-up.
#[tactic(auto, unfolding(crate::specs::Open::binding_of))]
fn binding_of(handles: &[Binding], who: Who, handle: Handle) -> Option<Binding>
    ensures { result ≡ binding_of handles.now who handle }
{
    match find_binding(handles, who, handle) {
        Some(binding) => Some(binding),
        None => find_binding(handles, Who::Setup, handle),
    }
}

fn description_number(descriptors: &[Option<usize>], descriptor: usize) -> Option<usize>
    ensures { result ≡ description_number descriptors.now descriptor }
{
    if descriptor < descriptors.len() {
        descriptors[descriptor]
    } else {
        None
    }
}

fn description_at(descriptions: &[Option<Description>], key: usize) -> Option<Description>
    ensures { result ≡ option_flatten (slice_get descriptions.now key) }
{
    if key < descriptions.len() {
        descriptions[key]
    } else {
        None
    }
}

fn drop_binding(handles: &mut Vec<Binding>, who: Who, handle: Handle)
    ensures { handles.new.items ≡ without_place handles.old.items (position (is_binding who handle) handles.old.items) }
{
    if let Some(place) = place_of(handles, who, handle) {
        handles.remove(place);
    }
}

/// Binds a handle; an older binding of it is dropped.
#[tactic(auto, unfolding(crate::specs::Open::with_binding))]
fn bind(handles: &mut Vec<Binding>, binding: Binding) -> Result<(), AllocError>
    ensures ok { OnOk result (handles.new.items ≡ with_binding handles.old.items binding) }
    ensures err { OnErr result (handles.new.items ≡ handles.old.items) }
{
    let older = place_of(handles, binding.who, binding.handle);
    handles.push(binding)?;
    if let Some(place) = older {
        handles.remove(place);
    }
    Ok(())
}

fn first_free(descriptors: &[Option<usize>]) -> Option<usize>
    ensures value { result ≡ position (λ slot. is_none slot) descriptors.now }
{
    descriptors.iter().position(|slot| slot.is_none())
}

fn has_key(descriptors: &[Option<usize>], key: usize) -> bool
    ensures { result ≡ list_any (has_key key) descriptors.now }
{
    descriptors.iter().any(|slot| match slot {
        Some(k) => *k == key,
        None => false,
    })
}

fn describes(descriptions: &[Option<Description>], node: usize) -> bool
    ensures { result ≡ list_any (describes node) descriptions.now }
{
    descriptions.iter().any(|slot| match slot {
        Some(description) => description.node == node,
        None => false,
    })
}

/// What is open. Descriptions stand by their numbers, which are never used again; each of the 64
/// descriptors is free or has the number of a description.
#[derive(Debug, Drop)]
pub struct Tables {
    descriptions: Vec<Option<Description>>,
    descriptors: Vec<Option<usize>>,
    handles: Vec<Binding>,
}

impl Model for Tables {
    ghost use Rattle.std.specs.Prelude.{◌≡◌, length};
    ghost use Rattle.posix_tables.specs.Open as open_files;

    ghost Value = { open_files.Tables };

    ghost view = { λ t. record { descriptions = t.descriptions.items; descriptors = t.descriptors.items; handles = t.handles.items } };

    ghost invariant = { λ t. length t.descriptors.items ≡ 64 };
}

impl Clone for Tables {
    ghost is_clone = { λ a b. b ≡ a };

    fn clone(&self) -> Result<Tables, AllocError> {
        let descriptions = self.descriptions.clone()?;
        let descriptors = self.descriptors.clone()?;
        let handles = self.handles.clone()?;
        Ok(Tables {
            descriptions,
            descriptors,
            handles,
        })
    }
}

fn free_descriptors(alloc: Global) -> Result<Vec<Option<usize>>, AllocError>
    ensures { IfOk result (λ slots. slots.items ≡ replicate 64 None) }
{
    let mut slots = Vec::new(alloc);
    for _slot in 0..DESCRIPTORS {
        slots.push(None)?;
    }
    Ok(slots)
}

impl Tables {
    /// Nothing is open.
    pub fn new(alloc: Global) -> Result<Tables, AllocError>
        ensures { IfOk result (λ t. t ≡ nothing_open) }
    {
        let descriptors = free_descriptors(alloc)?;
        Ok(Tables {
            descriptions: Vec::new(alloc),
            descriptors,
            handles: Vec::new(alloc),
        })
    }

    /// The number of the description that a handle stands for.
    #[tactic(auto, unfolding(crate::specs::Open::key_of))]
    pub fn key_of(&self, who: Who, handle: Handle) -> Option<usize>
        ensures { result ≡ key_of self.now who handle }
    {
        match binding_of(&self.handles, who, handle) {
            Some(binding) => description_number(&self.descriptors, binding.descriptor),
            None => None,
        }
    }

    /// The description that a handle stands for.
    #[tactic(auto, unfolding(crate::specs::Open::opened))]
    pub fn opened(&self, who: Who, handle: Handle) -> Option<Description>
        ensures { result ≡ opened self.now who handle }
    {
        match self.key_of(who, handle) {
            Some(key) => description_at(&self.descriptions, key),
            None => None,
        }
    }

    fn free_descriptor(&self) -> Option<usize>
        ensures { result ≡ free_descriptor self.now }
    {
        first_free(&self.descriptors)
    }

    /// Whether all descriptors are in use.
    pub fn is_full(&self) -> bool
        ensures { result ≡ is_full self.now }
    {
        self.free_descriptor().is_none()
    }

    /// The lowest free descriptor, where there is one.
    pub fn next_descriptor(&self) -> usize
        ensures value { result ≡ next_descriptor self.now }
        ensures bounded { result < 64 }
    {
        match first_free(&self.descriptors) {
            Some(descriptor) => descriptor,
            None => 0,
        }
    }

    /// Whether a description of this node is open.
    pub fn is_open(&self, node: usize) -> bool
        ensures { result ≡ is_open self.now node }
    {
        describes(&self.descriptions, node)
    }

    /// Gives a description the lowest free descriptor, bound to a handle of the caller. A descriptor
    /// has to be free.
    #[tactic(auto, unfolding(crate::specs::Open::with_descriptor))]
    pub fn give_descriptor(
        &mut self,
        who: Who,
        handle: Handle,
        key: usize,
    ) -> Result<(), AllocError>
        requires { is_full self.old ≡ false }
        ensures ok { OnOk result (self.new ≡ with_descriptor self.old who handle key) }
        ensures err { OnErr result (self.new ≡ self.old) }
    {
        let descriptor = self.next_descriptor();
        bind(
            &mut self.handles,
            Binding {
                who,
                handle,
                descriptor,
            },
        )?;
        self.descriptors[descriptor] = Some(key);
        Ok(())
    }

    /// Opens a description with the lowest free descriptor, bound to a handle of the caller. A
    /// descriptor has to be free.
    #[tactic(auto, unfolding(crate::specs::Open::with_opened))]
    pub fn open(
        &mut self,
        who: Who,
        handle: Handle,
        description: Description,
    ) -> Result<(), AllocError>
        requires { is_full self.old ≡ false }
        ensures ok { OnOk result (self.new ≡ with_opened self.old who handle description) }
        ensures err { OnErr result (self.new ≡ self.old) }
    {
        let key = self.descriptions.len();
        self.descriptions.push(Some(description))?;
        if let Err(refused) = self.give_descriptor(who, handle, key) {
            self.descriptions.truncate(key);
            return Err(refused);
        }
        Ok(())
    }

    /// Moves the offset of a description.
    #[tactic(auto, unfolding(crate::specs::Open::with_offset))]
    pub fn set_offset(&mut self, key: usize, offset: u64)
        ensures { self.new ≡ with_offset self.old key offset }
    {
        if let Some(description) = description_at(&self.descriptions, key) {
            self.descriptions[key] = Some(Description {
                offset,
                ..description
            });
        }
    }

    fn drop_unused(&mut self, key: usize)
        ensures { self.new ≡ without_unused self.old key }
    {
        if !has_key(&self.descriptors, key) && key < self.descriptions.len() {
            self.descriptions[key] = None;
        }
    }

    #[tactic(auto, unfolding(crate::specs::Open::without_binding))]
    fn remove_binding(&mut self, binding: Binding)
        ensures { self.new ≡ without_binding self.old binding }
    {
        let key = description_number(&self.descriptors, binding.descriptor).unwrap_or(0);
        if binding.descriptor < self.descriptors.len() {
            self.descriptors[binding.descriptor] = None;
        }
        drop_binding(&mut self.handles, binding.who, binding.handle);
        self.drop_unused(key);
    }

    /// Closes a handle: its binding and its descriptor go, and the description with its last
    /// descriptor.
    #[tactic(auto, unfolding(crate::specs::Open::closed))]
    pub fn close(&mut self, who: Who, handle: Handle)
        ensures { self.new ≡ closed self.old who handle }
    {
        if let Some(binding) = binding_of(&self.handles, who, handle) {
            self.remove_binding(binding);
        }
    }
}
