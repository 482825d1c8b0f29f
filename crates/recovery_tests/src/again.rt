//! The option `again`: mounts behind a run that lose their power too.
use crate::images::{no_files, read, run};
use outside::{Files, MemFiles};
use split_cases::rows;
use split_tables::{answer, session_told};
use std::alloc::Global;
use std::test::Fail;
use test_kit::{Text, assert_rows};

// Worked by hand: what a mount finds does not hang on where the one before it was cut.
const ROWS: &str = "\
# Thread 0 has claimed slot 0, and thread 1 has stored and persisted its entry in slot 1, and finished.
row power_lost_in_recovery
mkfs g 64 4 16 16 = 56 data blocks
script S 5
step g S strict order 0,0,0,1,1,1,1,1,1 cut 11 = s.0 open x /x wc = fd 0; s.1 open y /y wc = fd 1; 1.0 write y 62 = count 1; / dir; /x file 0; /y file 1 62
step g S strict order 0,0,0,1,1,1,1,1,1 cut 11 again 1,2,3 = s.0 open x /x wc = fd 0; s.1 open y /y wc = fd 1; 1.0 write y 62 = count 1; / dir; /x file 0; /y file 1 62
step g S strict order 0,0,0,1,1,1,1,1,1 cut 11 again 1,2,3 choose newest = s.0 open x /x wc = fd 0; s.1 open y /y wc = fd 1; 1.0 write y 62 = count 1; / dir; /x file 0; /y file 1 62
step g S strict order 0,0,0,1,1,1,1,1,1 cut 11 again 3,50,7,120,0,60,200,1 choose 7 keep h = s.0 open x /x wc = fd 0; s.1 open y /y wc = fd 1; 1.0 write y 62 = count 1; / dir; /x file 0; /y file 1 62
tree h = / dir; /x file 0; /y file 1 62
# Without a loss the image behind the unmount is mounted in the same way, and so is one that was lost before its first step.
step g S strict again 0,1,2,40 choose even = s.0 open x /x wc = fd 0; s.1 open y /y wc = fd 1; 0.0 write x 61 = count 1; 1.0 write y 62 = count 1; / dir; /x file 1 61; /y file 1 62
step g S strict stop 0 again 5,5 = / dir

# Each mount that lasts begins a lap of 4 lines: the first mount raises the base from 1 to 5, the unmount to 9, and each mount behind it by 4.
row mounts_that_last
mkfs g 64 4 16 16 = 56 data blocks
script S 1
step g S strict keep h = 0.0 mkdir /a = ok; / dir; /a dir
bytes h 128 8 = 13 0 0 0 0 0 0 0
step g S strict again 1000000 keep h = 0.0 mkdir /a = ok; / dir; /a dir
bytes h 128 8 = 17 0 0 0 0 0 0 0
step g S strict again 0,1000000,0,1000000 keep h = 0.0 mkdir /a = ok; / dir; /a dir
bytes h 128 8 = 21 0 0 0 0 0 0 0
step g S strict again 999999999999999999,1000000,1000000,1000000,1000000,1000000,1000000,1000000 keep h = 0.0 mkdir /a = ok; / dir; /a dir
bytes h 128 8 = 45 0 0 0 0 0 0 0
step g S strict again 0,0,0,0,0,0,0,0 keep h = 0.0 mkdir /a = ok; / dir; /a dir
bytes h 128 8 = 13 0 0 0 0 0 0 0

# In sync mode a write of 1,000 bytes from byte 4,090 on loses its power once its entry is durable: its six bytes before the block of the
# old end are not written, and no mount writes them.
row recovery_writes_no_front
mkfs g 64 4 16 16 = 56 data blocks
file S open a /f wc; write a 61*5000; pwrite a 4090 62*1000
step g S sync cut 12 again 1,2,3 = 0.0 open a /f wc = fd 0; 0.1 write a 61*5000 = count 5000; / dir; /f file 5090 61*4096+62*994
step g S sync cut 12 again 3,50,7,120,0,60,200,1 choose 7 keep h = 0.0 open a /f wc = fd 0; 0.1 write a 61*5000 = count 5000; / dir; /f file 5090 61*4096+62*994
tree h = / dir; /f file 5090 61*4096+62*994

# 1 to 8 numbers of up to 18 digits, behind `stop` and before `choose`.
row words_of_again
script S 1
step - S strict again 1 = 0.0 mkdir /a = ok; / dir; /a dir
step - S strict order 0 cut 9 stop 999999 again 1,2,3,4,5,6,7,8 choose odd = 0.0 mkdir /a = ok; / dir; /a dir
step - S strict again 1,2,3,4,5,6,7,8,9 = splitfs: usage
step - S strict again 1000000000000000000 = splitfs: usage
step - S strict again = splitfs: usage
step - S strict again  = splitfs: usage
step - S strict again 1, = splitfs: usage
step - S strict again 01 = splitfs: usage
step - S strict again -1 = splitfs: usage
step - S strict again x = splitfs: usage
step - S strict again 1 again 2 = splitfs: usage
step - S strict again 1 stop 1 = splitfs: usage
step - S strict choose odd again 1 = splitfs: usage
step - S strict keep h again 1 = splitfs: usage
";

#[test]
fn runs_with_again(rt: HostRuntime) -> Result<(), Fail> {
    assert_rows(&rt, ROWS, 4, &session_told)?;
    Ok(())
}

// The place of the hole in the log among the worked runs.
const HOLE: usize = 5;

const TOLD: &str =
    "s.0 open x /x wc = fd 0\ns.1 open y /y wc = fd 1\n1.0 write y 62 = count 1\n/ dir\n/x file 0\n/y file 1 62\n";

// The run of the hole in the log, where the first mount has so many steps. The image is kept.
fn put_hole(line: &mut Text, steps: u64, choice: &str) {
    line.put("step g S strict order 0,0,0,1,1,1,1,1,1 cut 11 again ");
    line.put_number(steps);
    line.put(" choose ");
    line.put(choice);
    line.put(" keep h");
}

// Whether it puts what it has to.
fn is_hole(alloc: Global, files: &mut MemFiles, steps: u64, choice: &str) -> bool {
    let mut line = Text::new(alloc);
    put_hole(&mut line, steps, choice);
    answer(alloc, files, line.as_str()).is(TOLD)
}

// The script of the hole in the log, and an image.
fn add_hole(alloc: Global, files: &mut MemFiles) {
    let script = rows().get(HOLE).copied().unwrap_or("");
    let _is_there = files.replace("S", script.as_bytes());
    run(alloc, files, "mkfs g 64 4 16 16");
}

// Whether an image is kept, which then has one more name.
fn is_kept_whole(alloc: Global, files: &mut MemFiles) -> bool {
    let image = read(alloc, files, "h");
    !image.is_empty() && files.replace("whole", &image).is_ok()
}

// Whether the image that is kept is the whole one.
fn is_whole(files: &MemFiles) -> bool {
    files.bytes("h").unwrap_or(b"") == files.bytes("whole").unwrap_or(b"")
}

// With how many steps the image is the whole one, where the same is put with each number before it; 0 where it is not.
fn first_whole(alloc: Global, files: &mut MemFiles, choice: &str) -> u64 {
    for steps in 0..10_000_u64 {
        if !is_hole(alloc, files, steps, choice) {
            return 0;
        }
        if is_whole(files) {
            return steps;
        }
    }
    0
}

// Whether the recovery ends before the power goes with some number of steps above 100, where the same is put with each number before it.
fn ends(alloc: Global, choice: &str) -> bool {
    let mut files = no_files(alloc);
    add_hole(alloc, &mut files);
    is_hole(alloc, &mut files, 1_000_000, choice)
        && is_kept_whole(alloc, &mut files)
        && first_whole(alloc, &mut files, choice) > 100
}

#[test]
fn hole_in_the_log_until_recovery_ends(rt: HostRuntime) {
    assert!(rt; ends(rt.alloc(), "oldest"));
    assert!(rt; ends(rt.alloc(), "newest"));
    assert!(rt; ends(rt.alloc(), "7"));
}
