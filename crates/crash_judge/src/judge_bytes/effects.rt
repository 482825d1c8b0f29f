//! What calls do to bytes, kept as plain data: what each puts, and how far each shortens the files.
ghost use Rattle.std.specs.Prelude.{◌≡◌, [], ◌∷◌, ◌++◌, IfOk, OnOk, length, map};
ghost use Rattle.posix_tables.specs.Nodes.{node_at};
ghost use Rattle.crash_spec.specs.posix_spec.Run.{after_call, begun};
ghost use Rattle.crash_spec.specs.Values.{value_of};
ghost use Rattle.crash_judge.specs.Effects.{any_cuts, any_puts, AreCuts, AreEffects, cut_of, end_of, is_cut, IsEffect, may_be, newest, puts_it};

use crate::judge_bytes::runs::after;
use crash_spec::{Call, Item, Put, State, Who};
use posix_tables::nodes::{Node, length_of};
use std::alloc::{AllocError, Global};

/// The bytes by which a file was shortened: from `to` up to `from`.
#[derive(Clone, Copy, Debug)]
pub struct Cut {
    pub to: usize,
    pub from: usize,
}

/// What a call did to bytes: what it put, and by which bytes each node was shortened.
#[derive(Drop)]
pub struct Effect {
    pub put: Option<Put>,
    pub cuts: Vec<Cut>,
}

impl Effect {
    /// The value that is put at byte i of node n, if one is.
    fn value(&self, n: usize, i: usize) -> Option<u8>
        ensures { result ≡ value_of self.now.put n i }
    {
        match &self.put {
            None => None,
            Some(put) => {
                if put.node == n && put.place <= i as u64 {
                    put.bytes.as_slice().get(i - put.place as usize).copied()
                } else {
                    None
                }
            }
        }
    }

    fn puts(&self, n: usize, i: usize, x: u8) -> bool
        ensures { result ≡ puts_it n i x self.now }
    {
        match self.value(n, i) {
            None => false,
            Some(y) => y == x,
        }
    }

    fn is_cut(&self, n: usize, i: usize) -> bool
        ensures { result ≡ is_cut self.now.cuts.items n i }
    {
        match self.cuts.get(n) {
            None => false,
            Some(cut) => i < cut.from && cut.to <= i,
        }
    }
}

fn any_cuts(effects: &[Effect], n: usize, i: usize) -> bool
    ensures { result ≡ any_cuts effects.now n i }
{
    effects.iter().any(|e| e.is_cut(n, i))
}

fn any_puts(effects: &[Effect], n: usize, i: usize, x: u8) -> bool
    ensures { result ≡ any_puts effects.now n i x }
{
    effects.iter().any(|e| e.puts(n, i, x))
}

/// The value of a byte after effects.
pub(crate) fn newest(effects: &[Effect], n: usize, i: usize, v: u8) -> u8
    ensures { result ≡ newest effects.now n i v }
{
    let mut last = v;
    for e in effects {
        last = match e.value(n, i) {
            None => last,
            Some(y) => y,
        };
    }
    last
}

/// Whether x may be found at byte i of node n, which was v before the effects.
pub(crate) fn may_be(effects: &[Effect], extra: &[Effect], n: usize, i: usize, v: u8, x: u8) -> bool
    ensures { result ≡ may_be effects.now extra.now n i v x }
{
    let here = if any_cuts(effects, n, i) {
        v == x || any_puts(effects, n, i, x)
    } else {
        newest(effects, n, i, v) == x
    };
    here || any_puts(extra, n, i, x)
}

/// Where a file ends, in bytes; for what is no file the given end.
fn end_of(nodes: &[Node], n: usize, end: usize) -> usize
    ensures { result ≡ end_of (node_at nodes.now n) end }
{
    if n >= nodes.len() {
        return end;
    }
    match &nodes[n] {
        Node::Gone => end,
        Node::Directory => end,
        Node::File(file) => file.bytes.len(),
    }
}

fn cuts_between(alloc: Global, before: &[Node], after: &[Node]) -> Result<Vec<Cut>, AllocError>
    ensures { IfOk result (λ cuts. AreCuts before.now after.now cuts.items) }
{
    let mut cuts = Vec::new(alloc);
    for (n, node) in before.iter().enumerate() {
        let from = length_of(node) as usize;
        let to = end_of(after, n, from);
        cuts.push(Cut { to, from })?;
    }
    Ok(cuts)
}

fn effect_of(
    alloc: Global,
    state: &State,
    c: &(Who, Call),
    next: &State,
) -> Result<Effect, AllocError>
    requires { next.now ≡ after_call state.now c.now }
    ensures { IfOk result (λ e. IsEffect state.now c.now e) }
{
    let put = state.put_by(c.0, &c.1)?;
    let cuts = cuts_between(alloc, state.nodes(), next.nodes())?;
    Ok(Effect { put, cuts })
}

/// The effect of a call; the state becomes the one after it.
fn effect_on(alloc: Global, at: &mut State, c: &(Who, Call)) -> Result<Effect, AllocError>
    ensures next { OnOk result (at.new ≡ after_call at.old c.now) }
    ensures effect { IfOk result (λ e. IsEffect at.old c.now e) }
{
    let next = after(at, c)?;
    let effect = effect_of(alloc, at, c, &next);
    *at = next;
    effect
}

/// The effects of calls, one after the other, from a state on, which becomes the one after them.
fn effects_from(
    alloc: Global,
    at: &mut State,
    calls: &[(Who, Call)],
) -> Result<Vec<Effect>, AllocError>
    ensures { IfOk result (λ effects. AreEffects at.old calls.now effects.items) }
{
    let mut effects = Vec::new(alloc);
    for c in calls {
        let effect = effect_on(alloc, at, c)?;
        effects.push(effect)?;
    }
    Ok(effects)
}

/// The effects of calls, one after the other, from a state on.
pub fn effects_of(
    alloc: Global,
    state: &State,
    calls: &[(Who, Call)],
) -> Result<Vec<Effect>, AllocError>
    ensures { IfOk result (λ effects. AreEffects state.now calls.now effects.items) }
{
    let mut at = state.clone()?;
    effects_from(alloc, &mut at, calls)
}

/// Adds the call of an item.
fn add_begun(calls: &mut Vec<(Who, Call)>, item: &Item) -> Result<(), AllocError>
    ensures { OnOk result (calls.new.items ≡ calls.old.items ++ begun item.now ∷ []) }
{
    let call = item.call.clone()?;
    calls.push((item.who, call))?;
    Ok(())
}

/// The calls of a history.
pub fn calls_of(alloc: Global, items: &[Item]) -> Result<Vec<(Who, Call)>, AllocError>
    ensures { IfOk result (λ calls. calls.items ≡ map begun items.now) }
{
    let mut calls = Vec::new(alloc);
    for item in items {
        add_begun(&mut calls, item)?;
    }
    Ok(calls)
}

/// Adds a copy of a call.
fn add_copy(calls: &mut Vec<(Who, Call)>, c: &(Who, Call)) -> Result<(), AllocError>
    ensures { OnOk result (calls.new.items ≡ calls.old.items ++ c.now ∷ []) }
{
    let copy = c.1.clone()?;
    calls.push((c.0, copy))?;
    Ok(())
}

/// Calls with one more.
pub fn with_call(
    alloc: Global,
    calls: &[(Who, Call)],
    c: &(Who, Call),
) -> Result<Vec<(Who, Call)>, AllocError>
    ensures { IfOk result (λ all. all.items ≡ calls.now ++ c.now ∷ []) }
{
    let mut all = Vec::new(alloc);
    for call in calls {
        add_copy(&mut all, call)?;
    }
    add_copy(&mut all, c)?;
    Ok(all)
}
