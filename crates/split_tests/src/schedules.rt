//! Scripts of several threads, by orders of their events, and cut behind an event.
use crate::asserting::assert_sessions;
use std::test::Fail;
use test_kit::Text;

const CUT: &str = "\
# 64 lines of the log: the first mount raises its base from 1 to 65, an unmount by 64, and the last mount again. So a cut behind
# the last event comes before the unmount, and one that is never reached leaves a whole run.
row unmount_comes_behind_the_cut
file S open a /f rwc; write a 6869
step - S strict cut 7 keep H = 0.0 open a /f rwc = fd 0; 0.1 write a 6869 = count 2; / dir; /f file 2 6869
bytes H 128 8 = 129 0 0 0 0 0 0 0
step - S strict cut 8 keep H = 0.0 open a /f rwc = fd 0; 0.1 write a 6869 = count 2; / dir; /f file 2 6869
bytes H 128 8 = 193 0 0 0 0 0 0 0
step - S strict keep H = 0.0 open a /f rwc = fd 0; 0.1 write a 6869 = count 2; / dir; /f file 2 6869
bytes H 128 8 = 193 0 0 0 0 0 0 0

# A file that is busy keeps its call waiting: the first 1 is passed over.
row busy_file_is_passed_over
file S setup; open x /x wc; thread; write x 61; thread; stat /x
step - S strict order 0,1,0,0,0,0,0,1 = s.0 open x /x wc = fd 0; 0.0 write x 61 = count 1; 1.0 stat /x = file 1; / dir; /x file 1 61
step - S strict order 1,0 = s.0 open x /x wc = fd 0; 1.0 stat /x = file 0; 0.0 write x 61 = count 1; / dir; /x file 1 61
";

const WORDS: &str = "\
# The words of orders and cuts. A number of a thread that is not there is passed over.
row words_of_orders
file S thread; mkdir /a; thread; mkdir /b
step - S strict order 1 = 1.0 mkdir /b = ok; 0.0 mkdir /a = ok; / dir; /a dir; /b dir
step - S strict order 7,7,1,0 = 1.0 mkdir /b = ok; 0.0 mkdir /a = ok; / dir; /a dir; /b dir
step - S strict order 0,0,0,1 cut 1 = 0.0 mkdir /a = ok; / dir; /a dir
step - S strict order 0 cut 2 stop 0 choose newest = / dir
step - S strict order = splitfs: usage
step - S strict order  = splitfs: usage
step - S strict order  seed 1 = splitfs: usage
step - S strict order 8 = splitfs: usage
step - S strict order 0,1,8 = splitfs: usage
step - S strict order -1 = splitfs: usage
step - S strict order 0,a = splitfs: usage
step - S strict order 0,,1 = splitfs: usage
step - S strict order 0,1, = splitfs: usage
step - S strict order ,0 = splitfs: usage
step - S strict order 01 = splitfs: usage
step - S strict order 0 seed 1 = splitfs: usage
step - S strict seed 1 order 0 = splitfs: usage
step - S strict seed x = splitfs: usage
step - S strict cut 1 seed 1 = splitfs: usage
step - S strict stop 1 cut 1 = splitfs: usage
step - S strict cut = splitfs: usage
step - S strict cut x = splitfs: usage
step - S strict cut 01 = splitfs: usage
step - S strict seed 1 seed 2 = splitfs: usage
# A pick takes the draw, modulo how many can run. The first two draws of SplitMix64, modulo 3 and 2, are 1 and 0 from 0, 2 and 1 from 1,
# and 0 and 1 from 3.
file T thread; mkdir /a; thread; mkdir /b; thread; mkdir /c
step - T strict seed 0 = 1.0 mkdir /b = ok; 0.0 mkdir /a = ok; 2.0 mkdir /c = ok; / dir; /a dir; /b dir; /c dir
step - T strict seed 1 = 2.0 mkdir /c = ok; 1.0 mkdir /b = ok; 0.0 mkdir /a = ok; / dir; /a dir; /b dir; /c dir
step - T strict seed 3 = 0.0 mkdir /a = ok; 2.0 mkdir /c = ok; 1.0 mkdir /b = ok; / dir; /a dir; /b dir; /c dir
";

// Adds a session with an order of so many numbers, each 1 and then 0 in the end, and what is told of it.
fn put_long_order(row: &mut Text, ones: u32, told: &str) {
    row.put("row long_order\nfile S thread; mkdir /a; thread; mkdir /b\nstep - S strict order ");
    for _one in 0..ones {
        row.put("1,");
    }
    row.put("0 = ");
    row.put(told);
    row.put("\n");
}

// Asserts that it goes so.
fn assert_long_order(rt: &HostRuntime, ones: u32, told: &str) -> Result<(), Fail> {
    let mut row = Text::new(rt.alloc());
    put_long_order(&mut row, ones, told);
    assert_sessions(rt, row.as_str(), 1)
}

#[test]
fn cut_behind_events(rt: HostRuntime) -> Result<(), Fail> {
    assert_sessions(&rt, CUT, 2)
}

#[test]
fn words_of_orders(rt: HostRuntime) -> Result<(), Fail> {
    assert_sessions(&rt, WORDS, 1)
}

// A list has 65,536 numbers at most.
#[test]
fn longest_order(rt: HostRuntime) -> Result<(), Fail> {
    let ran = "1.0 mkdir /b = ok; 0.0 mkdir /a = ok; / dir; /a dir; /b dir";
    assert_long_order(&rt, 65_535, ran)?;
    assert_long_order(&rt, 65_536, "splitfs: usage")
}
