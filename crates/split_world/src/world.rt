//! The World, and what it is asked.
ghost use Rattle.std.specs.Prelude.{◌≡◌, ◌↔◌, ◌≤◌, ◌+◌, ◌*◌, true, IsTrue, length};
ghost use Rattle.world_rounds.specs.round_laws.posix_spec.Run.{IsLegal};
ghost use Rattle.world_rounds.specs.round_laws.posix_spec.Scripted.{IsSetUp, Scripted};
ghost use Rattle.posix_types.specs.declared.call.Who as whos;

use layout_model::Draft;
use posix_types::{Item, Who};
use std::marker::Model;
use world_begins::Parts;
use world_rounds::{calls_made, script_length};

/// A file system with its scripts and the history of their calls since it was mounted. Contracts see a
/// `WorldView`.
#[derive(Drop)]
pub struct World {
    pub(crate) parts: Parts,
}

impl Model for World {
    ghost use Rattle.std.specs.Prelude.{◌≡◌, true};
    ghost use Rattle.world_begins.specs.world_parts.world_view_laws.Views.{WorldView};
    ghost use Rattle.world_begins.specs.world_parts.Seen.{seen, IsKept};

    ghost Value = { WorldView };

    ghost view = { λ w. seen w.parts };

    ghost invariant = { λ w. w.parts.usable ≡ true → IsKept w.parts };
}

impl World {
    /// The calls that returned. While the World is usable, they are a legal history that follows the scripts, and as
    /// many of them as `settled` had returned when this lap began.
    pub fn history(&self) -> &[Item]
        ensures items { result.now ≡ self.now.history }
        ensures legal { self.now.usable ≡ true → IsLegal self.now.start self.now.history }
        ensures scripted { self.now.usable ≡ true → Scripted self.now.scripts self.now.history }
        ensures settled { self.now.usable ≡ true → self.now.settled ≤ length self.now.history }
    {
        &self.parts.history
    }

    /// The pairs of slot and entry that were given to `finish` in this lap, whatever it answered.
    pub fn claims(&self) -> &[(u64, Draft)]
        ensures { result.now ≡ self.now.claims }
    {
        &self.parts.claims
    }

    /// How many calls of `begin`, `finish` and `checkpoint` acted: those that answered Busy, ScriptEnd or the
    /// RoundOver of a round that was over are not counted, nor those after a power loss. At most 16 for each call that
    /// returned, and 32.
    pub fn acts(&self) -> u64
        requires { self.now.usable ≡ true }
        ensures acts { result ≡ self.now.acts }
        ensures most { result ≤ 16 * (length self.now.history + 2) }
    {
        self.parts.acts
    }

    /// Whether the set-up is done, so that threads may begin.
    pub fn setup_done(&self) -> bool
        requires { self.now.usable ≡ true }
        ensures { IsTrue result ↔ IsSetUp self.now.scripts self.now.history (whos.Who.Thread 0) }
    {
        calls_made(&self.parts.counters, Who::Setup)
            == script_length(&self.parts.scripts, Who::Setup)
    }

    /// How many threads the scripts have, 8 at most.
    pub fn threads(&self) -> u32
        requires { self.now.usable ≡ true }
        ensures threads { result ≡ length self.now.scripts.threads }
        ensures most { result ≤ 8 }
    {
        self.parts.scripts.threads.len() as u32
    }

    /// Whether the power was lost: a call found it off, or `lose` was called.
    pub fn is_lost(&self) -> bool
        ensures { result ≡ self.now.lost }
    {
        self.parts.lost
    }

    /// The power is lost from now on, as its caller found out: `begin`, `finish` and `checkpoint` answer
    /// PowerLost, and `unmount` ends in Lost.
    pub fn lose(&mut self)
        ensures { self.new ≡ record self.old { lost = true } }
    {
        self.parts.lost = true;
    }
}
