//! The top call.
ghost use Rattle.std.specs.Prelude.{◌≡◌, ◌⊎◌, ◌↔◌, true, false, List, ℕ, Option, None, Some, IfSome, map};
ghost use Rattle.std.specs.String.{string_bytes};
ghost use Rattle.outside.specs.Outside.{Rose};
ghost use Rattle.command_line.specs.Command as commands;
ghost use Rattle.command_line.specs.Command.{command_of};
ghost use Rattle.command_line.specs.Seen.{IsBuilt, seen};
ghost use Rattle.split_top.specs.Jobs.{IsAlone, IsAnswer};
ghost use Rattle.split_top.specs.Top.{BreaksGrammar, BreaksRule, Completes, IsByThreads, IsCutShort, IsDone, IsMissing, IsRefusal, IsReplacedBy, IsTold, MayFail, Replaces, Says};

use crate::loading::run_load;
use crate::making::make_image;
use crate::showing::show;
use crate::stepping::run_step;
use crate::threads::{Machine, Named, run_threads};
use command_line::{Command, Status, read_command};
use outside::{Files, Sink};
use split_threads::Gate;
use std::alloc::Global;
use std::sync::Wait;
use std::thread::Threads;

/// Does what a command says that is no run by threads.
fn do_alone<F: Files, K: Sink>(
    alloc: Global,
    command: &Command<'_>,
    files: &mut F,
    out: &mut K,
) -> Status
    requires built { IsBuilt command.now }
    requires alone { IsAlone command.now }
    ensures { IsAnswer (seen command.now) (F.told files.old) (F.told files.new) (K.told out.old) (K.told out.new) (Rose (F.misses files.old) (F.misses files.new)) (Rose (F.faults files.old) (F.faults files.new)) (Rose (K.faults out.old) (K.faults out.new)) result }
{
    match command {
        Command::Mkfs { name, geometry } => make_image(alloc, name.as_str(), geometry, files, out),
        Command::Tree(image) => show(alloc, image, files, out),
        Command::Step {
            image,
            script,
            options,
        } => run_step(alloc, image, script.as_str(), options, files, out),
        Command::Load {
            calls,
            threads,
            mode,
        } => run_load(alloc, *calls, *threads, *mode, files, out),
    }
}

/// Whether a command is a run by threads.
fn is_by_threads(command: &Command<'_>) -> bool
    ensures yes { result ≡ true → IsByThreads (seen command.now) }
    ensures no { result ≡ false → IsAlone command.now }
{
    match command {
        Command::Step { options, .. } => options.by_threads,
        Command::Mkfs { .. } | Command::Tree(_) | Command::Load { .. } => false,
    }
}

/// Does what a command says.
fn do_command<R: Threads + Wait + Sync, G: Gate + Sync, F: Files, K: Sink>(
    machine: &Machine<'_, R, G>,
    alloc: Global,
    command: &Command<'_>,
    files: &mut F,
    out: &mut K,
) -> Status
    requires built { IsBuilt command.now }
    ensures { IsAnswer (seen command.now) (F.told files.old) (F.told files.new) (K.told out.old) (K.told out.new) (Rose (F.misses files.old) (F.misses files.new)) (Rose (F.faults files.old) (F.faults files.new)) (Rose (K.faults out.old) (K.faults out.new)) result }
{
    match command {
        Command::Step {
            image,
            script,
            options,
        } => {
            if !options.by_threads {
                return do_alone(alloc, command, files, out);
            }
            let named = Named {
                image,
                script: script.as_str(),
                options,
            };
            run_threads(machine, alloc, &named, files, out)
        }
        Command::Mkfs { .. } => do_alone(alloc, command, files, out),
        Command::Tree(_) => do_alone(alloc, command, files, out),
        Command::Load { .. } => do_alone(alloc, command, files, out),
    }
}

/// Does the job that the words of the command line say.
///
/// - `mkfs IMAGE BLOCKS LOG INODES NAMES`: the file IMAGE is replaced by the fresh image with these numbers, and then
///   the line `D data blocks` is put.
/// - `tree IMAGE`: the image is read, checked and mounted, and its tree is put. `-` is the fresh default image. Live
///   entries of the log count: the tree is the one that they leave.
/// - `step IMAGE S MODE`, then the options `order LIST` or `seed N`, `cut E`, `stop N`, `again NUMBERS`, `choose C` and
///   `keep NAME`: the image is read, checked and mounted (`-` is the fresh default one); then the script S is read, checked
///   and run on it in the mode, `strict` or `sync`, the set-up first, then its threads picked by the numbers of LIST (1 to 65,536 of
///   them, below 8), behind which they come in turn, by draws from N, or in turn; the file NAME is replaced by the image that is
///   left; then the history of the calls and the tree that is left are put at once. With `cut E` the power goes behind E
///   events, with `stop N` after N device steps; a word that is not durable is what `choose C` says (`oldest`, `newest`,
///   `even`, `odd`, or a number for draws from it as a seed); and the image that is left is mounted again. With `again`, 1 to
///   8 numbers with commas between them, it is mounted once more before that for each of them, with power for so many steps:
///   where they run out, the choice is applied again to what the mount hands back; where they last, the mounted device goes
///   on. Whatever they are, the tree is one that the mode permits for the history.
/// - `run IMAGE S MODE`, then the options `stop N`, `again NUMBERS`, `choose C` and `keep NAME` of `step`: the same, but the calls of
///   each thread of the script are made by a thread of the machine. Which of them return first is the threads' choice; whatever it is, the
///   history is legal and follows the script, without `stop` all calls return, and the tree is one that the mode permits for it. With
///   `stop N` there are N device steps for all that is done in the turn and between rounds, over the whole run, and N more for what each
///   thread fills and appends in a round of the log; whoever uses up its own, the power goes for all. It goes only where N is at most 2^31
///   for each call that returned and for two more. The gate is called by these threads, before each append to the log and behind each that
///   was Done.
/// - `load N T MODE`: the scripts of a load of N calls, at most 500, for each of T threads, 1 to 8, are run on a fresh
///   image of 4,096 blocks, 256 log lines, 64 inode lines and 128 name lines, the threads in turn; then five sums of the
///   history and the tree are put: `calls`, `refused`, `written`, `files` and `bytes`.
///
/// A number has at most 18 decimal digits. No file but that of `mkfs` or `keep` is changed, and that one only once all
/// that is to be told is made. Nothing is put unless the job is done, but where the sink refuses, or memory runs out in
/// putting: then it has a front of the output.
pub fn top<R: Threads + Wait + Sync, F: Files, K: Sink, G: Gate + Sync>(
    rt: &R,
    alloc: Global,
    words: &[String],
    files: &mut F,
    out: &mut K,
    gate: &G,
) -> Status
    ensures usage { (result ≡ Status.Usage) ↔ (command_of (map string_bytes words.now) ≡ None) }
    ensures no_such_file { (name : List ℕ) → result ≡ Status.NoSuchFile name → Says (map string_bytes words.now) (λ c. IsMissing c (F.told files.old) name) × Rose (F.misses files.old) (F.misses files.new) }
    ensures bad_image { (rule place : ℕ) → result ≡ Status.BadImage rule place → Says (map string_bytes words.now) (λ c. BreaksRule c (F.told files.old) rule place) }
    ensures bad_script { (line : ℕ) → result ≡ Status.BadScript line → Says (map string_bytes words.now) (λ c. BreaksGrammar c (F.told files.old) line) }
    ensures read_fault { result ≡ Status.ReadFault → Says (map string_bytes words.now) (λ c. MayFail c (F.told files.old))
        × Rose (F.faults files.old) (F.faults files.new) }
    ensures write_fault { result ≡ Status.WriteFault → Rose (K.faults out.old) (K.faults out.new) ⊎ Says (map string_bytes words.now) (λ c. Replaces c × Rose (F.faults files.old) (F.faults files.new)) }

    // The promise: a fresh image; the tree of an image; a history and a tree that are permitted, or the five sums of
    // such a run; and nothing else is printed or replaced.
    ensures done { result ≡ Status.Done → Says (map string_bytes words.now) (λ c. IsDone c (F.told files.old) (F.told files.new) (K.told out.old) (K.told out.new)) }

    // What is left where the job is not done.
    ensures files { (F.told files.new ≡ F.told files.old) ⊎ Says (map string_bytes words.now) (λ c. IsReplacedBy c (F.told files.old) (F.told files.new)) }
    ensures front { (result ≡ Status.WriteFault) ⊎ (result ≡ Status.NoMemory) → ((F.told files.new ≡ F.told files.old) × (K.told out.new ≡ K.told out.old)) ⊎ Says (map string_bytes words.now) (λ c. IsCutShort c (F.told files.old) (F.told files.new) (K.told out.old) (K.told out.new)) }
    ensures nothing { IsRefusal result → (F.told files.new ≡ F.told files.old) × (K.told out.new ≡ K.told out.old) }

    // A command whose files are there is done, unless the rules, the grammar, a failure or out of memory forbids it.
    ensures complete { (c : commands.Command) → command_of (map string_bytes words.now) ≡ Some c → ¬ Rose (F.faults files.old) (F.faults files.new) → ¬ Rose (K.faults out.old) (K.faults out.new) → Completes c (F.told files.old) result }
{
    let Some(command) = read_command(words) else {
        return Status::Usage;
    };
    do_command(&Machine { rt, gate }, alloc, &command, files, out)
}

/// The same for words that need no thread: None for those of `run`, of which nothing is done. It starts no threads, and waits for nobody.
pub fn top_alone<F: Files, K: Sink>(
    alloc: Global,
    words: &[String],
    files: &mut F,
    out: &mut K,
) -> Option<Status>
    ensures threads { result ≡ None → Says (map string_bytes words.now) IsByThreads × (F.told files.new ≡ F.told files.old) × (K.told out.new ≡ K.told out.old) }
    ensures told { IfSome result (IsTold (map string_bytes words.now) (F.told files.old) (F.told files.new) (K.told out.old) (K.told out.new) (Rose (F.misses files.old) (F.misses files.new)) (Rose (F.faults files.old) (F.faults files.new)) (Rose (K.faults out.old) (K.faults out.new))) }
{
    let Some(command) = read_command(words) else {
        return Some(Status::Usage);
    };
    if is_by_threads(&command) {
        return None;
    }
    Some(do_alone(alloc, &command, files, out))
}
