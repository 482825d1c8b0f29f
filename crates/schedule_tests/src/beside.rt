//! Two and three calls in flight, with a loss after each step. All rows are worked by hand.
use crate::asserting::assert_losses;
use std::test::Fail;
use test_kit::Text;

// In turn: each thread begins, then each fills, and so on. The set-up takes 48 steps a file.
const TWO_WRITES: &str = "\
row two_writes_in_flight
image 64 4 16 16
s: open x /x wc = fd 0
tree = / dir; /x file 0
s: open y /y wc = fd 1
tree = / dir; /x file 0; /y file 0
0: write x 61 = count 1
tree = / dir; /x file 1 61; /y file 0
1: write y 62 = count 1
tree = / dir; /x file 1 61; /y file 1 62
";

const THREE_WRITES: &str = "\
row three_writes_in_flight
image 64 4 16 16
s: open x /x wc = fd 0
s: open y /y wc = fd 1
s: open z /z wc = fd 2
tree = / dir; /x file 0; /y file 0; /z file 0
0: write x 61 = count 1
tree = / dir; /x file 1 61; /y file 0; /z file 0
1: write y 62 = count 1
tree = / dir; /x file 1 61; /y file 1 62; /z file 0
2: write z 63 = count 1
tree = / dir; /x file 1 61; /y file 1 62; /z file 1 63
";

// What is done beside a write in flight: a name goes over that of its file, and its file's name goes. Between them an overwrite of
// bytes on both sides of the border of two blocks.
const BESIDE: &str = "\
# Thread 0 begins, fills and claims; thread 1 renames; thread 0 ends.
row rename_over_a_busy_file_at_steps
image 64 4 16 16
order 0,0,0,1
losses every 11 each 4 cuts 18
s: open f /f wc = fd 0
s: write f 61 = count 1
s: open g /g wc = fd 1
s: write g 62 = count 1
tree = / dir; /f file 1 61; /g file 1 62
1: rename /g /f = ok
tree = / dir; /f file 1 62
0: write f 63 = count 1
tree = / dir; /f file 1 62

# Both begin, fill and claim; thread 2 takes a name away between their stores. The last write is of a file without a name.
row unlink_of_a_busy_file_at_steps
image 64 4 16 16
order 0,1,0,1,0,1,0,2,1
losses every 11 each 4 cuts 22
s: open f /f rwc = fd 0
s: write f 61*4098 = count 4098
s: open g /g wc = fd 1
tree = / dir; /f file 4098 61*4098; /g file 0
2: unlink /g = ok
tree = / dir; /f file 4098 61*4098
0: pwrite f 4095 6262 = count 2
tree = / dir; /f file 4098 61*4095+62*2+61
1: write g 63 = count 1
tree = / dir; /f file 4098 61*4095+62*2+61
";

const APPENDS: &str = "\
# While one thread writes the file is busy, so that they take turns.
row appends_by_two_handles_at_steps
image 64 4 16 16
losses every 11 cuts 26
s: open a /f wac = fd 0
s: open b /f wac = fd 1
0: write a 616263 = count 3
tree = / dir; /f file 3 616263
1: write b 7879 = count 2
tree = / dir; /f file 5 6162637879
0: write a 616263 = count 3
1: write b 7879 = count 2
tree = / dir; /f file 10 61626378796162637879
";

// The first write begins before the block of its file's end, and writes those bytes in place when it finishes. The second one is out
// meanwhile, and the third is within its file's length, over the border of two blocks: one event.
const FRONTS: &str = "\
# In turn: the third call returns first. When the first one finishes, the second one's entry is durable.
row a_front_beside_writes
modes sync
image 64 4 16 16
losses every 13 from 2500 cuts 28
s: open x /x wc = fd 0
s: write x 61*5000 = count 5000
s: open y /y wc = fd 1
s: open z /z wc = fd 2
s: write z 64*5000 = count 5000
tree = / dir; /x file 5000 61*5000; /y file 0; /z file 5000 64*5000
2: pwrite z 4090 65*300 = count 300
tree = / dir; /x file 5000 61*5000; /y file 0; /z file 5000 64*4090+65*300+64*610
0: pwrite x 3700 62*1390 = count 1390
tree = / dir; /x file 5090 61*3700+62*1390; /y file 0; /z file 5000 64*4090+65*300+64*610
1: write y 63 = count 1
tree = / dir; /x file 5090 61*3700+62*1390; /y file 1 63; /z file 5000 64*4090+65*300+64*610

# The second one is filled, and the third begins once the first one has stored its entry, before it is durable.
row a_front_beside_a_write_that_is_filled
modes sync
image 64 4 16 16
order 0,1,0,1,0,0,2,0,0
losses every 13 from 2500 cuts 28
s: open x /x wc = fd 0
s: write x 61*5000 = count 5000
s: open y /y wc = fd 1
s: open z /z wc = fd 2
s: write z 64*5000 = count 5000
tree = / dir; /x file 5000 61*5000; /y file 0; /z file 5000 64*5000
2: pwrite z 4090 65*300 = count 300
0: pwrite x 3700 62*1390 = count 1390
tree = / dir; /x file 5090 61*3700+62*1390; /y file 0; /z file 5000 64*4090+65*300+64*610
1: write y 63 = count 1
tree = / dir; /x file 5090 61*3700+62*1390; /y file 1 63; /z file 5000 64*4090+65*300+64*610
";

// Asserts that a row goes `ok` with these losses, the last of its options.
fn assert_part(rt: &HostRuntime, losses: &str, row: &str) -> Result<(), Fail> {
    let mut text = Text::new(rt.alloc());
    text.put(row);
    text.put(losses);
    text.put("\n");
    assert_losses(rt, text.as_str(), 1)
}

// Of each step some tests have a part: every second, every third.
#[test]
fn two_writes_at_even_steps(rt: HostRuntime) -> Result<(), Fail> {
    assert_part(&rt, "losses every 2 from 96 cuts 14", TWO_WRITES)
}

#[test]
fn two_writes_at_odd_steps(rt: HostRuntime) -> Result<(), Fail> {
    assert_part(&rt, "losses every 2 from 97", TWO_WRITES)
}

#[test]
fn three_writes_at_a_third_of_the_steps(rt: HostRuntime) -> Result<(), Fail> {
    assert_part(&rt, "losses every 3 from 144 cuts 21", THREE_WRITES)
}

#[test]
fn three_writes_at_another_third(rt: HostRuntime) -> Result<(), Fail> {
    assert_part(&rt, "losses every 3 from 145", THREE_WRITES)
}

#[test]
fn three_writes_at_the_last_third(rt: HostRuntime) -> Result<(), Fail> {
    assert_part(&rt, "losses every 3 from 146", THREE_WRITES)
}

#[test]
fn names_change_beside_writes(rt: HostRuntime) -> Result<(), Fail> {
    assert_losses(&rt, BESIDE, 2)
}

#[test]
fn fronts_are_written_beside_writes(rt: HostRuntime) -> Result<(), Fail> {
    assert_losses(&rt, FRONTS, 2)
}

#[test]
fn two_threads_append_to_one_file(rt: HostRuntime) -> Result<(), Fail> {
    assert_losses(&rt, APPENDS, 1)
}
