//! A fresh image, and the K-Split of a device.
ghost use Rattle.std.specs.Prelude.{◌≡◌, ◌*◌, [], true, false, length, IfOk};
ghost use Rattle.block_io.specs.layout_model.Places.{commit_word, IsGeometry};
ghost use Rattle.block_io.specs.layout_model.Journal.{journaled};
ghost use Rattle.layout_model.specs.Fresh.{fresh};
ghost use Rattle.block_io.specs.image_model.Content.{content};
ghost use Rattle.block_io.specs.image_model.FreshVolume.{root_alone};
ghost use Rattle.block_io.specs.image_model.Rules.{geometry_of, IsChecked};
ghost use Rattle.block_io.specs.image_model.Volume.{volume};
ghost use Rattle.block_io.specs.pm_model.Cells.{cell, AllSingle};
ghost use Rattle.block_io.specs.pm_model.Images.{words_of};
ghost use Rattle.block_io.specs.pm_model.Words.{word_at};
ghost use Rattle.block_io.specs.pm_model.declared.Cell.{Cell};
ghost use Rattle.k_split.specs.Order.{IsOpened};

use crate::state::KSplit;
use k_map_plans::{
    Batch, Geometry, Tables, fresh_image, read_base, read_inodes, read_maps, read_names,
};
use pm_lines::Pm;
use std::alloc::{AllocError, Global};

/// The bytes of the fresh image: a checked image with the root alone, four empty staging files and
/// the log base 1. It takes `4096 * blocks` bytes of memory.
pub fn mkfs(alloc: Global, geometry: &Geometry) -> Result<Vec<u8>, AllocError>
    ensures size { IfOk result (λ bytes. length bytes.items ≡ 4096 * geometry.now.blocks) }
    ensures words { IfOk result (λ bytes. word_at bytes.items ≡ fresh geometry.now) }
    ensures checked { IfOk result (λ bytes.
        IsChecked (4096 * geometry.now.blocks) (word_at bytes.items)) }
    ensures numbers { IfOk result (λ bytes. geometry_of (word_at bytes.items) ≡ geometry.now) }
    ensures root { IfOk result (λ bytes. content geometry.now (word_at bytes.items) ≡ root_alone) }
{
    fresh_image(alloc, geometry)
}

// The tables of a device.
fn read_tables(alloc: Global, pm: &Pm, geometry: Geometry) -> Result<Tables, AllocError>
    requires size { length pm.now ≡ 512 * geometry.blocks }
    requires single { AllSingle pm.now }
    requires idle { cell pm.now commit_word ≡ Cell.Single 0 }
    requires numbers { geometry_of (words_of pm.now) ≡ geometry }
    requires checked { IsChecked (4096 * geometry.blocks) (words_of pm.now) }
    ensures { IfOk result (λ tables.
        tables ≡ record { volume = volume geometry (words_of pm.now); aside = []; waiting = [] }) }
{
    prove!(geometry.blocks >= 64);
    let base = read_base(pm, &geometry);
    let inodes = read_inodes(alloc, pm, &geometry)?;
    let names = read_names(alloc, pm, &geometry)?;
    let maps = read_maps(alloc, pm, &inodes)?;
    Tables::of(alloc, geometry, base, inodes, names, maps)
}

impl KSplit {
    /// The K-Split of a device. Where `batched` is true, changes gather in a batch until a commit.
    ///
    /// The device is a checked image of this geometry: nothing is lent, every word has one
    /// candidate, and the journal is empty. Out of memory is the only error.
    pub fn open(
        alloc: Global,
        pm: Pm,
        geometry: Geometry,
        batched: bool,
    ) -> Result<KSplit, AllocError>
        requires size { length pm ≡ 512 * geometry.blocks }
        requires single { AllSingle pm }
        requires idle { cell pm commit_word ≡ Cell.Single 0 }
        requires numbers { geometry_of (words_of pm) ≡ geometry }
        requires checked { IsChecked (4096 * geometry.blocks) (words_of pm) }
        ensures { IfOk result (IsOpened pm (volume geometry (journaled (words_of pm))) batched) }
    {
        prove!(geometry.blocks >= 64);
        let batch = Batch::new(alloc)?;
        let group = Batch::new(alloc)?;
        let tables = read_tables(alloc, &pm, geometry)?;
        Ok(KSplit {
            pm,
            tables,
            batch,
            group,
            batched,
            lost: false,
        })
    }

    /// From now on changes gather in a batch until a commit. It takes no memory.
    pub fn gather_changes(&mut self)
        requires on { self.old.lost ≡ false }
        requires unbatched { self.old.batched ≡ false }
        ensures { self.new ≡ record self.old { batched = true } }
    {
        self.batched = true;
    }
}
