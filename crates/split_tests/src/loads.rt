//! The command `load`: its scripts, and the sums that it puts.
use crate::asserting::assert_sessions;
use split_cases::load_script;
use std::alloc::Global;
use std::test::Fail;

const SUMS: &str = "\
# Worked out by a program of a few lines in Python, from the rule for the scripts alone: so many draws of SplitMix64, what each says
# of a call, and the lengths and places that make a file's size.
row empty_load
load 0 1 strict = calls 0; refused 0; written 0; files 1; bytes 0

row loads_of_few_calls
load 1 1 strict = calls 1; refused 0; written 1645; files 1; bytes 1645
load 3 2 strict = calls 6; refused 0; written 3824; files 2; bytes 55996

row load_of_eight_threads
load 500 8 strict = calls 4000; refused 0; written 3072578; files 8; bytes 2042707
load 500 8 sync = calls 4000; refused 0; written 3072578; files 8; bytes 2042707

# Words that are no load. No file is read or replaced, and the sums are put by one call.
row words_of_loads
load 501 1 strict = splitfs: usage
load 1 0 strict = splitfs: usage
load 1 9 strict = splitfs: usage
load 01 1 strict = splitfs: usage
load 1 1 = splitfs: usage
load 1 1 posix = splitfs: usage
load 1 1 strict stop 1 = splitfs: usage
file S mkdir /a
failing 0 1 load 1 1 strict = calls 1; refused 0; written 1645; files 1; bytes 1645; S is kept, 9 bytes
failing - 0 load 1 1 strict = splitfs: write failed; S is kept, 9 bytes
";

// Four calls for each of three threads, from the number 67: all kinds, of 0 to 7 but 2.
const TEXT: &str = "\
setup
open h0 /f0 rwc
open h1 /f1 rwc
open h2 /f2 rwc
thread
pwrite h0 54966 61*153
write h0 61*483
fsync h0
pwrite h0 33652 61*89
thread
pwrite h1 42398 62*533
write h1 62*1224
pread h1 13031 833
pread h1 28188 534
thread
write h2 63*76
write h2 63*935
pread h2 57664 1969
pwrite h2 34549 63*1066
";

#[test]
fn sums_of_loads(rt: HostRuntime) -> Result<(), Fail> {
    assert_sessions(&rt, SUMS, 4)
}

// Whether the script of a load of four calls of each of three threads is that one.
fn is_text_of_a_load(alloc: Global) -> bool {
    match load_script(alloc, 4, 3) {
        Ok(text) => text.as_slice() == TEXT.as_bytes(),
        Err(_) => false,
    }
}

#[test]
fn text_of_a_load(rt: HostRuntime) {
    assert!(rt; is_text_of_a_load(rt.alloc()));
}
