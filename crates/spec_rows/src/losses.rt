//! What a power loss may leave in each mode.
use crate::cases::assert_told;
use std::test::Fail;

const MODES: &str = "\
# What returned is there.
row judge_refuses_a_lost_mkdir
mkdir /a = ok
never = / dir
left = / dir; /a dir
never = / dir; /a dir; /b dir

row a_lost_mkdir_in_posix_mode
mode posix
mkdir /a = ok
left = / dir
left = / dir; /a dir
never = / dir; /b dir

# An overwrite of two bytes across the border of two blocks, all four results.
row overwrite_across_a_border_strict
open f /f wc = fd 0
write f 61*4098 = count 4098
begun = pwrite f 4095 6262
left = / dir; /f file 4098 61*4098
never = / dir; /f file 4098 61*4095+62+61*2
never = / dir; /f file 4098 61*4096+62+61
left = / dir; /f file 4098 61*4095+62*2+61

row overwrite_across_a_border_sync
mode sync
open f /f wc = fd 0
write f 61*4098 = count 4098
begun = pwrite f 4095 6262
left = / dir; /f file 4098 61*4098
left = / dir; /f file 4098 61*4095+62+61*2
left = / dir; /f file 4098 61*4096+62+61
left = / dir; /f file 4098 61*4095+62*2+61
never = / dir; /f file 4098 61*4095+62*3
never = / dir; /f file 4095 61*4095
never = / dir

row overwrite_across_a_border_posix
mode posix
open f /f wc = fd 0
write f 61*4098 = count 4098
fsync f = ok
begun = pwrite f 4095 6262
left = / dir; /f file 4098 61*4098
left = / dir; /f file 4098 61*4095+62+61*2
left = / dir; /f file 4098 61*4096+62+61
left = / dir; /f file 4098 61*4095+62*2+61
never = / dir; /f file 4098 61*4095+62*3
never = / dir; /f file 4095 61*4095
never = / dir

# A write past the end in sync mode: the new length with the new bytes, and old or new ones below.
row write_past_the_end_sync
mode sync
open f /f wc = fd 0
write f 616161 = count 3
begun = pwrite f 1 62626262
left = / dir; /f file 3 616161
left = / dir; /f file 5 6162626262
left = / dir; /f file 5 6161616262
left = / dir; /f file 5 6161626262
left = / dir; /f file 5 6162616262
never = / dir; /f file 3 616262
never = / dir; /f file 5 6161616162
never = / dir; /f file 4 61626262

# An append that was not followed by an fsync: gone, there at length 0, or whole.
row append_without_fsync
mode posix
open f /f wc = fd 0
write f 616263 = count 3
left = / dir
left = / dir; /f file 0
left = / dir; /f file 3 616263
never = / dir; /f file 1 61
never = / dir; /f file 3 616200

# After an fsync an overwrite that returned is there, at the published length; or all is.
row fsync_then_overwrite_and_append
mode posix
open f /f rwc = fd 0
write f 6161 = count 2
fsync f = ok
pwrite f 0 62 = count 1
pwrite f 2 6363 = count 2
left = / dir; /f file 2 6261
left = / dir; /f file 4 62616363
never = / dir; /f file 2 6161
never = / dir; /f file 3 626163
never = / dir; /f file 0
never = / dir

row fsync_then_an_overwrite_that_did_not_return
mode posix
open f /f rwc = fd 0
write f 6161 = count 2
fsync f = ok
begun = pwrite f 0 62
left = / dir; /f file 2 6161
left = / dir; /f file 2 6261
never = / dir; /f file 2 6162
never = / dir

# The later write that returned is there, or the one that did not; the older byte is not.
row an_unfinished_overwrite_behind_one_that_returned
mode posix
open f /f rwc = fd 0
write f 6161 = count 2
fsync f = ok
pwrite f 0 62 = count 1
begun = pwrite f 0 63
left = / dir; /f file 2 6261
left = / dir; /f file 2 6361
never = / dir; /f file 2 6161

# A `truncate` publishes the length, and so does a `close`.
row lengths_that_are_published
mode posix
open f /f wc = fd 0
write f 61616161 = count 4
truncate f 2 = ok
write f 62 = count 1
close f = ok
left = / dir
left = / dir; /f file 0
left = / dir; /f file 2 6161
left = / dir; /f file 5 6161000062
never = / dir; /f file 4 61616161
never = / dir; /f file 4 61610000
never = / dir; /f file 3 616162

row rename_after_an_fsync
mode posix
open f /f wc = fd 0
write f 61 = count 1
fsync f = ok
rename /f /g = ok
left = / dir; /f file 1 61
left = / dir; /g file 1 61
never = / dir; /f file 1 61; /g file 1 61
never = / dir
never = / dir; /g file 0

# What is cut and written again may be found as it was before: its block may have been given up.
row cut_and_written_again
mode posix
open f /f wc = fd 0
write f 61626364 = count 4
fsync f = ok
truncate f 2 = ok
pwrite f 2 7878 = count 2
left = / dir; /f file 4 61626364
left = / dir; /f file 4 61627864
left = / dir; /f file 4 61626378
left = / dir; /f file 4 61627878
left = / dir; /f file 2 6162
never = / dir; /f file 3 616263
never = / dir; /f file 4 61620064
never = / dir; /f file 4 78626364

# Three writes of three threads: each sublist.
row three_unfinished_writes
s: open a /a wc = fd 0
s: open b /b wc = fd 1
s: open c /c wc = fd 2
begun = write a 61
begun = 1: write b 62
begun = 2: write c 63
left = / dir; /a file 0; /b file 0; /c file 0
left = / dir; /a file 1 61; /b file 0; /c file 0
left = / dir; /a file 0; /b file 1 62; /c file 0
left = / dir; /a file 0; /b file 0; /c file 1 63
left = / dir; /a file 1 61; /b file 1 62; /c file 0
left = / dir; /a file 1 61; /b file 0; /c file 1 63
left = / dir; /a file 0; /b file 1 62; /c file 1 63
left = / dir; /a file 1 61; /b file 1 62; /c file 1 63
never = / dir; /a file 1 62; /b file 0; /c file 0
never = / dir; /a file 2 6161; /b file 0; /c file 0
never = / dir; /a file 1 61; /b file 1 62

# Two overwrites of one byte, of which either, both or none may be there.
row two_overwrites_sync
mode sync
s: open a /a wc = fd 0
s: write a 0000 = count 2
begun = pwrite a 0 1111
begun = 1: pwrite a 0 2222
left = / dir; /a file 2 0000
left = / dir; /a file 2 1122
left = / dir; /a file 2 2211
left = / dir; /a file 2 0022
never = / dir; /a file 2 0033

# A history of a hundred calls.
row a_hundred_calls
mode posix
open f /f wc = fd 0
write f 61*3000 = count 3000
fsync f = ok
for 1 to 97: pwrite f 0 62*3000 = count 3000
left = / dir; /f file 3000 62*3000
never = / dir; /f file 3000 61*3000
never = / dir; /f file 2999 62*2999
";

const SMALL: &str = "\
# Each byte of a small file by itself: as it was published, or as an overwrite that returned or had begun put it.
row every_tree_of_two_bytes
mode posix
open a /f rwc = fd 0
write a 7071 = count 2
fsync a = ok
begun = pwrite a 0 7273
left = / dir; /f file 2 7071
left = / dir; /f file 2 7271
left = / dir; /f file 2 7073
left = / dir; /f file 2 7273
never = / dir; /f file 2 7170
never = / dir; /f file 2 7372
never = / dir; /f file 2 7072
never = / dir; /f file 1 70
never = / dir; /f file 0
never = / dir; /f file 3 707100
never = / dir; /g file 2 7071
never = / dir

# Two appends that nothing published: no file, a file of the published length, or all that was done.
row two_appends_without_fsync
mode posix
open a /f rwc = fd 0
write a 70 = count 1
write a 71 = count 1
begun = mkdir /d
left = / dir
left = / dir; /f file 0
left = / dir; /f file 2 7071
left = / dir; /d dir; /f file 0
never = / dir; /f file 1 70
never = / dir; /f file 2 0000
never = / dir; /d dir; /f file 1 70
never = / dir; /d dir

# In strict mode a call that had begun is done or not; in sync mode its bytes come one by one.
row an_overwrite_of_two_bytes_strict
open a /f rwc = fd 0
write a 7071 = count 2
begun = pwrite a 0 7273
left = / dir; /f file 2 7071
left = / dir; /f file 2 7273
never = / dir; /f file 2 7271
never = / dir; /f file 2 7073
never = / dir; /f file 0
never = / dir

row an_overwrite_of_two_bytes_sync
mode sync
open a /f rwc = fd 0
write a 7071 = count 2
begun = pwrite a 0 7273
left = / dir; /f file 2 7071
left = / dir; /f file 2 7273
left = / dir; /f file 2 7271
left = / dir; /f file 2 7073
never = / dir; /f file 2 7371
never = / dir; /f file 0
never = / dir
";

#[test]
fn permitted_and_forbidden_trees(rt: HostRuntime) -> Result<(), Fail> {
    assert_told(&rt, MODES, 16)
}

#[test]
fn all_trees_of_small_files(rt: HostRuntime) -> Result<(), Fail> {
    assert_told(&rt, SMALL, 4)
}
