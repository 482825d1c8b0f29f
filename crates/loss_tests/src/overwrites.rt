//! Scripts in sync mode: bytes that are written in place, before and behind the end of a file. All rows are worked by hand.
use crate::parts::{assert_losses, assert_part};
use std::test::Fail;

const OVERWRITES: &str = "\
# Two bytes over the border of two blocks: after a loss each is old or new, and both are new once the call returned.
row overwrite_at_each_stop_sync
modes sync
image 64 4 16 16
losses every 13 each 2
open a /f rwc = fd 0
write a 61*8192 = count 8192
tree = / dir; /f file 8192 61*8192
pwrite a 4095 6262 = count 2
tree = / dir; /f file 8192 61*4095+6262+61*4095

# What an append staged is overwritten where it is staged, and staged again by the next append with what it has by then.
row an_overwrite_of_what_an_append_staged
modes sync
image 64 4 16 16
losses every 13 each 2 4 6
open f /f rwc = fd 0
write f 61*100 = count 100
pwrite f 50 62*20 = count 20
write f 63*10 = count 10
pwrite f 55 64*50 = count 50
fsync f = ok
pwrite f 0 65 = count 1
close f = ok
tree = / dir; /f file 110 65+61*49+62*5+64*50+63*5

# The first block is published, the second was never written, and the third is staged: one write over all of them.
row a_write_over_all_kinds_of_blocks
modes sync
image 64 4 16 16
losses every 31
open f /f rwc = fd 0
write f 61*4096 = count 4096
fsync f = ok
truncate f 8192 = ok
pwrite f 8192 62*4096 = count 4096
pwrite f 4000 63*4500 = count 4500
pread f 3999 4502 = data 61+63*4500+62
fsync f = ok
tree = / dir; /f file 12288 61*4000+63*4500+62*3788
";

const TAILS: &str = "\
# Behind byte 4,100 the last block still has bytes of before, where a write begins in a later block, and behind byte 4,101 where the
# file grows: both times they are zeros then.
row a_tail_is_cleaned_and_a_write_behind
modes sync
image 64 4 16 16
losses every 31
open f /f rwc = fd 0
write f 61*5000 = count 5000
fsync f = ok
truncate f 4100 = ok
pwrite f 9000 6262 = count 2
pread f 4098 4 = data 61610000
tree = / dir; /f file 9002 61*4100+00*4900+6262
truncate f 5000 = ok
pwrite f 4099 636363 = count 3
truncate f 4101 = ok
truncate f 8192 = ok
pwrite f 4098 6464 = count 2
pread f 4096 8 = data 6161646463000000
tree = / dir; /f file 8192 61*4098+6464+63+00*4091
";

const APPENDS: &str = "\
# The first append is staged with the bytes of its block. The second write begins before the block of the file's end: its bytes there
# are written in place when it finishes, and those behind are staged. It takes the steps from 1,833 to 2,422.
row sync_append_across_blocks
modes sync
image 64 4 16 16
open a /f wc = fd 0
write a 61*5000 = count 5000
tree = / dir; /f file 5000 61*5000
write a 62*10 = count 10
tree = / dir; /f file 5010 61*5000+62*10
pwrite a 4090 63*1000 = count 1000
tree = / dir; /f file 5090 61*4090+63*1000
";

const HOLES: &str = "\
# The blocks that were those of another file, full of 78, become blocks of this one: each byte of the hole is zero, or the call's. The
# overwrite takes the steps from 2,590 to 4,377.
row a_hole_gets_blocks_that_another_file_had
modes sync
image 64 4 16 16
open g /g wc = fd 0
write g 78*16384 = count 16384
fsync g = ok
close g = ok
unlink /g = ok
tree = / dir
open f /f rwc = fd 0
truncate f 8192 = ok
tree = / dir; /f file 8192 00*8192
pwrite f 4000 62*200 = count 200
pread f 3999 202 = data 00+62*200+00
tree = / dir; /f file 8192 00*4000+62*200+00*3992
";

const ROUNDS: &str = "\
# 32 blocks are absent, and beside the one that is staged 35 have to be free, of which 29 are: the round ends, and the call comes behind
# the Checkpoint.
row holes_end_a_round
modes sync
image 64 4 16 16
losses every 997 cuts 12
open g /g wc = fd 0
write g 61 = count 1
open f /f wc = fd 1
truncate f 184320 = ok
tree = / dir; /f file 184320 00*184320; /g file 1 61
pwrite f 0 62*131072 = count 131072
tree = / dir; /f file 184320 62*131072+00*53248; /g file 1 61
";

#[test]
fn overwrites_at_each_stop(rt: HostRuntime) -> Result<(), Fail> {
    assert_losses(&rt, OVERWRITES, 3)
}

#[test]
fn tails_and_writes_behind(rt: HostRuntime) -> Result<(), Fail> {
    assert_losses(&rt, TAILS, 1)
}

#[test]
fn an_append_across_blocks(rt: HostRuntime) -> Result<(), Fail> {
    assert_part(&rt, "losses every 31 cuts 20", APPENDS)
}

#[test]
fn each_step_of_an_entry_and_of_what_is_written_in_place(rt: HostRuntime) -> Result<(), Fail> {
    assert_part(&rt, "losses every 1 from 2408 to 2424", APPENDS)
}

#[test]
fn holes_are_filled(rt: HostRuntime) -> Result<(), Fail> {
    assert_part(&rt, "losses every 37", HOLES)
}

#[test]
fn each_step_behind_the_zeros_of_a_hole(rt: HostRuntime) -> Result<(), Fail> {
    assert_part(&rt, "losses every 1 from 4317 to 4379", HOLES)
}

#[test]
fn holes_end_a_round(rt: HostRuntime) -> Result<(), Fail> {
    assert_losses(&rt, ROUNDS, 1)
}
