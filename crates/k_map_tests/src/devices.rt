//! Devices that are checked, recovered and opened.
ghost use Rattle.std.specs.Prelude.{◌≡◌, ◌*◌, ◌%◌, ◌^◌, ◌<◌, [], ◌∷◌, true, length, IfOk, IsTrue, OnOk};
ghost use Rattle.k_check.specs.layout_model.Places.{commit_word};
ghost use Rattle.k_check.specs.image_model.Rules.{geometry_of, IsChecked};
ghost use Rattle.k_split.specs.layout_model.Spelling.{is_spelled};
ghost use Rattle.k_check.specs.pm_model.Cells.{AllHome, AllSingle, cell};
ghost use Rattle.k_check.specs.pm_model.Images.{words_of};
ghost use Rattle.k_check.specs.pm_model.declared.Cell.{Cell};
ghost use Rattle.k_map_tests.specs.Calls.{IsFresh};

use k_check::{CheckFault, Geometry, Recovered, check, recover};
use k_split::{KSplit, mkfs};
use pm_lines::{Choice, Pm, Power};
use posix_types::{Name, Path};
use std::alloc::{AllocError, Global};
use test_kit::RowError;

// The numbers of a device that breaks no rule.
fn checked(alloc: Global, pm: &Pm) -> Result<Geometry, RowError>
    requires single { AllSingle pm.now }
    requires whole { length pm.now % 512 ≡ 0 }
    requires fits { 8 * length pm.now < 2 ^ 64 }
    ensures checked { IfOk result (λ g. IsChecked (8 * length pm.now) (words_of pm.now)) }
    ensures numbers { IfOk result (λ g. g ≡ geometry_of (words_of pm.now)) }
{
    match check(alloc, pm) {
        Ok(geometry) => Ok(geometry),
        Err(CheckFault::NoMemory) => Err(RowError::Misspelled),
        Err(CheckFault::Bad(_)) => Err(RowError::Damaged),
    }
}

// Whether a device has as many blocks as its numbers say.
fn has_blocks(pm: &Pm, geometry: &Geometry) -> bool
    ensures { IsTrue result → length pm.now ≡ 512 * geometry.now.blocks }
{
    pm.words() == 512 * u64::from(geometry.blocks)
}

// The K-Split of a device whose journal is empty.
fn open_recovered(alloc: Global, pm: Pm) -> Result<KSplit, RowError>
    requires whole { length pm % 512 ≡ 0 }
    requires fits { 8 * length pm < 2 ^ 64 }
    requires single { AllSingle pm }
    requires idle { cell pm commit_word ≡ Cell.Single 0 }
    ensures { IfOk result IsFresh }
{
    let geometry = checked(alloc, &pm)?;
    if !has_blocks(&pm, &geometry) {
        return Err(RowError::Misspelled);
    }
    Ok(KSplit::open(alloc, pm, geometry, false)?)
}

/// The K-Split of an image that breaks no rule, once its journal is recovered. It is an error where
/// the image breaks a rule, before the recovery or after it.
pub fn opened(alloc: Global, bytes: &[u8]) -> Result<KSplit, RowError>
    ensures { IfOk result IsFresh }
{
    if bytes.len() % 4096 != 0 {
        return Err(RowError::Misspelled);
    }
    let mut pm = Pm::from_image(alloc, bytes)?;
    let geometry = checked(alloc, &pm)?;
    if !has_blocks(&pm, &geometry) {
        return Err(RowError::Misspelled);
    }
    let mut power = Power::always();
    match recover(&mut pm, &geometry, &mut power) {
        Recovered::Done => open_recovered(alloc, pm),
        Recovered::PowerLost | Recovered::Bad { .. } => Err(RowError::PowerLost),
    }
}

/// The same device, checked by the rules and opened anew.
pub fn reopened(alloc: Global, k: KSplit) -> Result<KSplit, RowError>
    requires { IsFresh k }
    ensures { IfOk result IsFresh }
{
    let pm = k.into_pm();
    if pm.words() >= 1 << 60 {
        return Err(RowError::Misspelled);
    }
    open_recovered(alloc, pm)
}

/// The image that the device of `k` has; of words that wait it has the newest.
pub fn left(alloc: Global, k: KSplit) -> Result<Vec<u8>, RowError>
    requires { AllHome k.cells }
{
    let pm = k.into_pm();
    Ok(pm.choose(alloc, Choice::Newest)?)
}

/// A fresh device with these numbers.
pub fn fresh(alloc: Global, geometry: &Geometry) -> Result<KSplit, RowError>
    ensures { IfOk result IsFresh }
{
    let bytes = mkfs(alloc, geometry)?;
    opened(alloc, &bytes)
}

// A name of one byte.
fn name(alloc: Global, letter: u8) -> Result<Name, AllocError>
    requires { is_spelled (letter ∷ []) ≡ true }
    ensures { IfOk result (λ name. is_spelled name ≡ true) }
{
    let mut bytes = Vec::new(alloc);
    bytes.push(letter)?;
    Ok(Name { bytes })
}

// Makes a file.
fn make_file(alloc: Global, k: &mut KSplit, letter: u8) -> Result<(), RowError>
    requires fresh { IsFresh k.old }
    requires spelled { is_spelled (letter ∷ []) ≡ true }
    ensures { OnOk result (IsFresh k.new) }
{
    let mut names = Vec::new(alloc);
    names.push(name(alloc, letter)?)?;
    let path = Path { names };
    let mut power = Power::always();
    match k.make(alloc, &path, false, &mut power) {
        Ok(_) => Ok(()),
        Err(_) => Err(RowError::Misspelled),
    }
}

/// A fresh device of so many blocks, at least 64, with 4 log lines, 16 inode lines, 16 name lines and
/// the files 5 and 6, both empty.
pub fn begun(alloc: Global, blocks: u32) -> Result<KSplit, RowError>
    ensures { IfOk result IsFresh }
{
    let geometry = Geometry::checked(blocks, 4, 16, 16).ok_or(RowError::Misspelled)?;
    let mut k = fresh(alloc, &geometry)?;
    make_file(alloc, &mut k, b'a')?;
    make_file(alloc, &mut k, b'b')?;
    Ok(k)
}

/// The bytes of a block of the device.
pub fn block_bytes(k: &KSplit, block: u32) -> Result<[u8; 4096], RowError>
    requires { IsFresh k.now }
{
    if block >= k.geometry().blocks {
        return Err(RowError::Misspelled);
    }
    let mut bytes = [0; 4096];
    k.read_block(block, &mut bytes);
    Ok(bytes)
}
