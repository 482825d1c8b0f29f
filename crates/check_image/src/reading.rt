//! The tables of an image, as far as it keeps the rules before those of the log.
ghost use Rattle.std.specs.Prelude.{◌≡◌, ◌*◌, ◌%◌, ◌^◌, ◌<◌, length, IfOk, IfErr, OnOk};
ghost use Rattle.k_journal.specs.layout_model.Journal.{journaled, IsSound};
ghost use Rattle.k_reading.specs.image_model.Broken.{HoldAll, line_rules};
ghost use Rattle.k_reading.specs.image_model.Checked.{HasHead};
ghost use Rattle.k_reading.specs.image_model.Rules.{geometry_of};
ghost use Rattle.k_reading.specs.image_model.Volume.{volume};
ghost use Rattle.k_journal.specs.pm_model.Cells.{AllHome};
ghost use Rattle.k_journal.specs.pm_model.Images.{words_of};
ghost use Rattle.check_image.specs.Answers.{IsFirstOf};
ghost use Rattle.check_image.specs.Readings.{AreOf, AreTables, body_rules, front_rules};

use crate::chains::read_chains;
use crate::faults::BadImage;
use crate::head::check_head;
use crate::lines::{read_inodes, read_names};
use crate::view::view_word;
use crate::volumes::{check_blocks, check_tree};
use k_journal::Geometry;
use k_reading::{Inode, Maps, NameLine};
use pm_lines::Pm;
use std::alloc::{AllocError, Global};

// The word of the log base.
const BASE_WORD: u64 = 16;

/// The tables of a volume.
#[derive(Debug, Drop)]
pub struct Tables {
    /// The numbers of the image.
    pub geometry: Geometry,
    /// The sequence number of the log's slot 0.
    pub base: u64,
    /// The inodes, by their numbers.
    pub inodes: Vec<Inode>,
    /// The names, one a line, None where the line is free.
    pub names: Vec<Option<NameLine>>,
    /// Of each inode its chain and its map.
    pub maps: Maps,
    /// Of each data block how often it is named, 0 or 1.
    pub uses: Vec<u8>,
    /// Of each inode how many names it has, 0 or 1.
    pub named: Vec<u8>,
}

// What the lines of an image say.
#[derive(Drop)]
struct Lines {
    inodes: Vec<Inode>,
    names: Vec<Option<NameLine>>,
    maps: Maps,
}

// Rules 5, 6 and 7: the lines, or the first of these rules that is broken.
fn read_lines(
    alloc: Global,
    pm: &Pm,
    geometry: &Geometry,
) -> Result<Result<Lines, BadImage>, AllocError>
    requires size { length pm.now ≡ 512 * geometry.now.blocks }
    requires home { AllHome pm.now }
    requires sound { IsSound geometry.now (words_of pm.now) }
    ensures lines { IfOk result (λ read. IfOk read (λ lines.
        AreOf (volume geometry.now (journaled (words_of pm.now))) lines.inodes.items
        lines.names.items lines.maps.chains.items lines.maps.maps.items)) }
    ensures ok { IfOk result (λ read. OnOk read (let j = journaled (words_of pm.now) in
        HoldAll (line_rules (volume geometry.now j) j))) }
    ensures bad { IfOk result (λ read. IfErr read (let j = journaled (words_of pm.now) in
        IsFirstOf (line_rules (volume geometry.now j) j))) }
{
    let inodes = match read_inodes(alloc, pm, geometry)? {
        Ok(inodes) => inodes,
        Err(ino) => {
            return Ok(Err(BadImage {
                rule: 5,
                place: u64::from(ino),
            }));
        }
    };
    let names = match read_names(alloc, pm, geometry, &inodes)? {
        Ok(names) => names,
        Err(line) => {
            return Ok(Err(BadImage {
                rule: 6,
                place: u64::from(line),
            }));
        }
    };
    match read_chains(alloc, pm, geometry, &inodes)? {
        Ok(maps) => Ok(Ok(Lines {
            inodes,
            names,
            maps,
        })),
        Err(ino) => Ok(Err(BadImage {
            rule: 7,
            place: ino as u64,
        })),
    }
}

// Rules 5 to 10: the tables, or the first of these rules that is broken.
fn read_tables(
    alloc: Global,
    pm: &Pm,
    geometry: Geometry,
) -> Result<Result<Tables, BadImage>, AllocError>
    requires size { length pm.now ≡ 512 * geometry.blocks }
    requires home { AllHome pm.now }
    requires sound { IsSound geometry (words_of pm.now) }
    ensures tables { IfOk result (λ read. IfOk read
        (AreTables (volume geometry (journaled (words_of pm.now))))) }
    ensures ok { IfOk result (λ read. OnOk read
        (HoldAll (body_rules geometry (journaled (words_of pm.now))))) }
    ensures bad { IfOk result (λ read. IfErr read
        (IsFirstOf (body_rules geometry (journaled (words_of pm.now))))) }
{
    prove!(geometry.blocks >= 64);
    let base = view_word(pm, BASE_WORD);
    let lines = match read_lines(alloc, pm, &geometry)? {
        Ok(lines) => lines,
        Err(bad) => return Ok(Err(bad)),
    };
    let uses = match check_blocks(alloc, &geometry, &lines.maps)? {
        Ok(uses) => uses,
        Err(block) => {
            return Ok(Err(BadImage {
                rule: 8,
                place: u64::from(block),
            }));
        }
    };
    let named = match check_tree(alloc, &lines.inodes, &lines.names)? {
        Ok(named) => named,
        Err(bad) => return Ok(Err(bad)),
    };
    Ok(Ok(Tables {
        geometry,
        base,
        inodes: lines.inodes,
        names: lines.names,
        maps: lines.maps,
        uses,
        named,
    }))
}

/// The tables of a device whose image keeps all rules before those of the log, or the first of
/// these rules that the image breaks, with its lowest place. A pending journal is read through;
/// nothing is written. Out of memory is the only error.
///
/// The device has whole blocks of 512 words, and nothing of it is lent; of a word with two candidates
/// the newer counts.
pub fn read_volume(alloc: Global, pm: &Pm) -> Result<Result<Tables, BadImage>, AllocError>
    requires home { AllHome pm.now }
    requires whole { length pm.now % 512 ≡ 0 }
    requires fits { 8 * length pm.now < 2 ^ 64 }
    ensures tables { IfOk result (λ read. IfOk read
        (AreTables (volume (geometry_of (words_of pm.now)) (journaled (words_of pm.now))))) }
    ensures head { IfOk result (λ read. OnOk read
        (HasHead (8 * length pm.now) (words_of pm.now))) }
    ensures ok { IfOk result (λ read. OnOk read
        (HoldAll (front_rules (8 * length pm.now) (words_of pm.now)))) }
    ensures bad { IfOk result (λ read. IfErr read
        (IsFirstOf (front_rules (8 * length pm.now) (words_of pm.now)))) }
{
    match check_head(pm) {
        Ok(geometry) => read_tables(alloc, pm, geometry),
        Err(bad) => Ok(Err(bad)),
    }
}
