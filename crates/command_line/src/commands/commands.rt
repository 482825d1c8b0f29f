//! The words of the command line.
ghost use Rattle.std.specs.Prelude.{◌≡◌, ◌≤◌, IfSome, map, option_map};
ghost use Rattle.std.specs.String.{string_bytes};
ghost use Rattle.command_line.specs.Command.{command_of, image_of, load_of, mkfs_of, number_within, step_of, threads_of, tree_of};
ghost use Rattle.command_line.specs.Seen.{IsBuilt, seen, seen_image};

use crate::commands::geometries::read_geometry;
use crate::commands::options::{Options, read_mode, read_options, read_thread_options};
use image_layout::Geometry;
use script_text::{Mode, read_number};

/// An image.
#[derive(Drop)]
pub enum Image<'a> {
    /// The fresh default image.
    Fresh,
    /// That of the file with this name.
    Stored(&'a String),
}

/// A command that was read: the places of its names among the words, and its numbers and options.
#[derive(Drop)]
pub enum Command<'a> {
    /// Make an image of this geometry in the file with this name.
    Mkfs {
        name: &'a String,
        geometry: Geometry,
    },
    /// Print the tree of an image.
    Tree(Image<'a>),
    /// Run a script on an image, by events or by threads of the machine.
    Step {
        image: Image<'a>,
        script: &'a String,
        options: Options<'a>,
    },
    /// Run the scripts of a load on a fresh image: so many calls, at most 500, for each of so many threads, 1 to 8.
    Load {
        calls: u32,
        threads: u32,
        mode: Mode,
    },
}

/// The image that a word says.
fn read_image(word: &String) -> Image<'_>
    ensures { seen_image result ≡ image_of (string_bytes word.now) }
{
    if word.as_str() == "-" {
        Image::Fresh
    } else {
        Image::Stored(word)
    }
}

/// The words `mkfs IMAGE BLOCKS LOG INODES NAMES`.
#[tactic(auto, unfolding(crate::specs::Command::mkfs_of))]
fn read_mkfs(words: &[String]) -> Option<Command<'_>>
    ensures command { option_map (λ c. seen c) result ≡ mkfs_of (map string_bytes words.now) }
    ensures built { IfSome result IsBuilt }
{
    if words.len() != 6 || words[0].as_str() != "mkfs" {
        return None;
    }
    let Image::Stored(name) = read_image(&words[1]) else {
        return None;
    };
    let geometry = read_geometry(
        words[2].as_str(),
        words[3].as_str(),
        words[4].as_str(),
        words[5].as_str(),
    )?;
    Some(Command::Mkfs { name, geometry })
}

/// The words `tree IMAGE`.
#[tactic(auto, unfolding(crate::specs::Command::tree_of))]
fn read_tree(words: &[String]) -> Option<Command<'_>>
    ensures command { option_map (λ c. seen c) result ≡ tree_of (map string_bytes words.now) }
    ensures built { IfSome result IsBuilt }
{
    if words.len() != 2 || words[0].as_str() != "tree" {
        return None;
    }
    Some(Command::Tree(read_image(&words[1])))
}

/// The words `step IMAGE SCRIPT MODE` and options.
#[tactic(auto, unfolding(crate::specs::Command::step_of))]
fn read_step(words: &[String]) -> Option<Command<'_>>
    ensures command { option_map (λ c. seen c) result ≡ step_of (map string_bytes words.now) }
    ensures built { IfSome result IsBuilt }
{
    if words.len() < 4 || words[0].as_str() != "step" {
        return None;
    }
    let mode = read_mode(words[3].as_str())?;
    let options = read_options(mode, &words[4..])?;
    Some(Command::Step {
        image: read_image(&words[1]),
        script: &words[2],
        options,
    })
}

/// The words `run IMAGE SCRIPT MODE` and options.
#[tactic(auto, unfolding(crate::specs::Command::threads_of))]
fn read_threads(words: &[String]) -> Option<Command<'_>>
    ensures command { option_map (λ c. seen c) result ≡ threads_of (map string_bytes words.now) }
    ensures built { IfSome result IsBuilt }
{
    if words.len() < 4 || words[0].as_str() != "run" {
        return None;
    }
    let mode = read_mode(words[3].as_str())?;
    let options = read_thread_options(mode, &words[4..])?;
    Some(Command::Step {
        image: read_image(&words[1]),
        script: &words[2],
        options,
    })
}

/// The number that a word spells, where it lies between two.
fn read_within(word: &str, low: u32, high: u32) -> Option<u32>
    ensures number { result ≡ number_within low high word.now }
    ensures within { IfSome result (λ n. n ≤ high) }
{
    let n = read_number(word.as_bytes())?;
    if n < u64::from(low) || n > u64::from(high) {
        return None;
    }
    Some(n as u32)
}

/// The words `load N T MODE`.
#[tactic(auto, unfolding(crate::specs::Command::load_of))]
fn read_load(words: &[String]) -> Option<Command<'_>>
    ensures command { option_map (λ c. seen c) result ≡ load_of (map string_bytes words.now) }
    ensures built { IfSome result IsBuilt }
{
    if words.len() != 4 || words[0].as_str() != "load" {
        return None;
    }
    let calls = read_within(words[1].as_str(), 0, 500)?;
    let threads = read_within(words[2].as_str(), 1, 8)?;
    let mode = read_mode(words[3].as_str())?;
    Some(Command::Load {
        calls,
        threads,
        mode,
    })
}

/// The command that the words are, if they are one.
#[tactic(auto, unfolding(crate::specs::Command::command_of))]
pub fn read_command(words: &[String]) -> Option<Command<'_>>
    ensures built { IfSome result IsBuilt }
    ensures command { option_map (λ c. seen c) result ≡ command_of (map string_bytes words.now) }
{
    if let Some(command) = read_mkfs(words) {
        return Some(command);
    }
    if let Some(command) = read_tree(words) {
        return Some(command);
    }
    if let Some(command) = read_step(words) {
        return Some(command);
    }
    if let Some(command) = read_threads(words) {
        return Some(command);
    }
    read_load(words)
}
