//! Inodes go over to new maps, one after the other.
ghost use Rattle.std.specs.Prelude.{◌≡◌, ◌<◌, ◌≤◌, [], ℕ, List, length};
ghost use Rattle.k_plans.specs.image_model.Volume.{Volume};
ghost use Rattle.k_plans.specs.LandingsPlans.{NewChain, Turns};
ghost use Rattle.k_plans.specs.Free.{AreAsideOnce, AreKeptBack, is_free_block};
ghost use Rattle.k_plans.specs.Whole.{IsWhole};
ghost use Rattle.k_map_plans.specs.Steps.{ComeFrom, MayStepAll, after_steps};

use extent_map::ExtentMap;
use k_plans::{Batch, Tables};
use layout_model::Inode;
use std::marker::Model;

/// What the tables take for an inode that goes over to a new map: its line, the map, the blocks of its
/// chain, and those that are set aside behind it.
#[derive(Drop)]
pub(crate) struct Step {
    pub(crate) ino: u32,
    pub(crate) line: Inode,
    pub(crate) map: ExtentMap,
    pub(crate) chain: Vec<u32>,
    pub(crate) aside: Vec<u32>,
}

impl Model for Step {
    ghost use Rattle.k_map_plans.specs.Steps.{Step};

    ghost Value = { Step };

    ghost view = { λ s. record {
      ino = s.ino;
      line = s.line;
      map = s.map;
      chain = s.chain.items;
      aside = s.aside.items;
    } };
}

/// The inodes go over to their maps in the order of the steps, one to five, and are planned. It takes
/// no memory.
pub(crate) fn switch_all(tables: &mut Tables, batch: &mut Batch, steps: Vec<Step>)
    requires empty { batch.old ≡ [] }
    requires some { 0 < length steps.items }
    requires few { length steps.items ≤ 5 }
    requires once { AreAsideOnce tables.old }
    requires may { MayStepAll tables.old.volume tables.old.aside steps.items }
    ensures after { tables.new.volume ≡ after_steps steps.items tables.old.volume }
    ensures waiting { tables.new.waiting ≡ tables.old.waiting }
    ensures free { (b : ℕ) → is_free_block tables.new b ≡ is_free_block tables.old b }
    ensures turns { (news : List NewChain) (v : Volume) → ComeFrom news steps.items
        → Turns tables.old.volume.geometry news v tables.old.volume []
        → Turns tables.old.volume.geometry news v tables.new.volume batch.new }
    ensures some { 0 < length batch.new }
    ensures most { length batch.new ≤ 5 }
    ensures whole { IsWhole tables.new.volume }
    ensures back { AreKeptBack tables.new }
{
    let mut steps = steps;
    while !steps.is_empty() {
        let Step {
            ino,
            line,
            map,
            chain,
            aside,
        } = steps.remove(0);
        tables.switch(batch, ino, &line, map, chain, aside);
    }
}
