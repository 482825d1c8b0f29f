//! Scripts that read, write and publish.
use crate::parts::{assert_losses, assert_part};
use std::test::Fail;

const BYTES: &str = "\
# Worked by hand from the rows of docs/CALLS.md. Bytes that were written are read back.
row write_then_read_back
image 64 16 16 16
losses every 13
open a /f rwc = fd 0
write a 6869 = count 2
tree = / dir; /f file 2 6869
seek a set 0 = offset 0
read a 9 = data 6869
tree = / dir; /f file 2 6869

# What is written over the border of two blocks is read back; what is behind the end is nothing.
row over_the_border_of_two_blocks
modes strict sync
image 64 16 16 16
losses every 13
open f /f rwc = fd 0
write f 61*5000 = count 5000
pread f 4999 9 = data 61
read f 4 = data -
seek f set 4094 = offset 4094
read f 4 = data 61616161
pwrite f 4094 62626262 = count 4
pread f 4093 6 = data 616262626261
seek f end 0 = offset 5000
write f 63*9 = count 9
pread f 4998 20 = data 6161636363636363636363
stat /f = file 5009
close f = ok
open f /f r = fd 0
pread f 4096 3 = data 626261
write f 61 = EBADF
close f = ok
tree = / dir; /f file 5009 61*4094+62626262+61*902+63*9

# A file is cut and grows between writes, with and without bytes that are staged.
row a_file_is_cut_and_grows
modes strict sync
image 64 16 16 16
losses every 13
open f /f rwc = fd 0
write f 61*5000 = count 5000
truncate f 100 = ok
truncate f 5000 = ok
pread f 98 4 = data 61610000
pread f 4999 2 = data 00
fsync f = ok
truncate f 4097 = ok
truncate f 9000 = ok
pread f 4095 4 = data 00000000
write f 62*9 = count 9
pread f 4999 12 = data 006262626262626262620000
truncate f 0 = ok
pread f 0 9 = data -
pwrite f 8190 6363 = count 2
pread f 8189 4 = data 006363
truncate f 8191 = ok
stat /f = file 8191
close f = ok
tree = / dir; /f file 8191 00*8190+63
";

const NAMELESS: &str = "\
# Worked by hand from the rows of docs/CALLS.md. The file is written and read without its name, and is gone with the power.
row write_to_an_unlinked_file
image 64 16 16 16
losses every 13
open a /f rwc = fd 0
tree = / dir; /f file 0
unlink /f = ok
tree = / dir
write a 6869 = count 2
pread a 0 9 = data 6869
tree = / dir

# It is written, read and published while it is open, and is gone after a loss, or once it is closed.
row a_file_without_a_name_is_published
modes strict sync
image 64 16 16 16
losses every 13
open f /f rwc = fd 0
write f 61*4100 = count 4100
unlink /f = ok
write f 62*4100 = count 4100
pread f 4099 2 = data 6162
fsync f = ok
write f 63*9 = count 9
pread f 8199 4 = data 62636363
open g /f wc = fd 1
write g 64*9 = count 9
close f = ok
fsync g = ok
close g = ok
tree = / dir; /f file 9 64*9
";

const HANDLES: &str = "\
# One appends, whatever the other wrote; offsets are their own, but those of a dup.
row two_handles_of_one_file
modes strict sync
image 64 16 16 16
losses every 13
open a /f rwac = fd 0
open b /f rwc = fd 1
write a 61*9 = count 9
write b 6262626262 = count 5
write a 636363 = count 3
read a 9 = data -
read b 9 = data 61616161636363
dup b c = fd 2
seek c set 1 = offset 1
write b 6464 = count 2
read c 4 = data 62626161
seek a set 0 = offset 0
write a 65 = count 1
read a 1 = data -
pread a 0 20 = data 62646462626161616163636365
close b = ok
write c 66 = count 1
pread a 0 20 = data 62646462626161666163636365
close c = ok
close a = ok
tree = / dir; /f file 13 62646462626161666163636365

# The first block is published, the second was never written, the third is staged, and the file ends in the fourth.
row a_read_over_all_kinds_of_blocks
modes strict sync
image 64 16 16 16
losses every 13
open f /f rwc = fd 0
write f 61*4096 = count 4096
fsync f = ok
truncate f 12290 = ok
pwrite f 8192 62*4096 = count 4096
pread f 4094 4 = data 61610000
pread f 8190 4 = data 00006262
pread f 12286 9 = data 62620000
pread f 0 12290 = data 61*4096+00*4096+62*4096+0000
read f 12290 = data 00*4096+62*4096+0000
fsync f = ok
pread f 8190 4 = data 00006262
truncate f 0 = ok
close f = ok
tree = / dir; /f file 0
";

const GAPS: &str = "\
# What lies between the end of a file and a write behind it is zeros.
row writes_with_a_gap
modes strict sync
image 64 16 16 16
losses every 13
open f /f rwc = fd 0
write f 616161 = count 3
pwrite f 9000 6262 = count 2
pread f 0 9 = data 616161000000000000
pread f 4094 4 = data 00000000
pread f 8998 9 = data 00006262
stat /f = file 9002
fsync f = ok
pwrite f 20000 63 = count 1
pread f 9000 9 = data 626200000000000000
pread f 19998 9 = data 000063
truncate f 3 = ok
close f = ok
tree = / dir; /f file 3 616161

# A file keeps its bytes under another name, and those of a file that was renamed over are gone.
row names_and_bytes
image 64 16 16 16
losses every 13
mkdir /d = ok
open f /d/f rwc = fd 0
write f 61*4100 = count 4100
rename /d/f /g = ok
pread f 4099 9 = data 61
open h /h rwc = fd 1
write h 62*9 = count 9
rename /g /h = ok
list / = names d h
pread h 0 9 = data 62*9
write f 63*9 = count 9
fsync f = ok
close h = ok
stat /h = file 4109
rmdir /d = ok
open g /h rwt = fd 1
stat /h = file 0
pread f 0 9 = data -
write f 64 = count 1
pread g 4109 2 = data 64
close f = ok
close g = ok
tree = / dir; /h file 4110 00*4109+64
";

const ERRORS: &str = "\
# All 64 descriptors, and the errors of too much.
row descriptor_limits_and_errors
losses every 13
open a /f rwc = fd 0
read b 1 = EBADF
for 1 to 63: open h# /f rwc = fd #
open last /f rwc = EMFILE
truncate a 16777217 = EFBIG
write a 61*131073 = EINVAL
seek a cur -1 = EINVAL
tree = / dir; /f file 0

# The errors of calls on handles: unknown, closed, opened without r or without w, and all in use.
row errors_of_handles
image 64 16 16 16
losses every 13
for 0 to 63: open h# /f rwc = fd #
open z /f r = EMFILE
open z /g rwc = EMFILE
dup h0 z = EMFILE
close h11 = ok
dup h0 z = fd 11
write z 61 = count 1
read h1 1 = data 61
close h11 = EBADF
write h11 61 = EBADF
read h11 1 = EBADF
seek h11 set 0 = EBADF
truncate h11 1 = EBADF
fsync h11 = EBADF
close h63 = ok
open r /f r = fd 63
write r 61 = EBADF
truncate r 0 = EBADF
read r 1 = data 61
seek r set -1 = EINVAL
seek r end -2 = EINVAL
seek r end -1 = offset 0
fsync r = ok
close h62 = ok
open w /f w = fd 62
read w 1 = EBADF
pread w 0 1 = EBADF
pwrite w 1 - = count 0
pwrite w 0 62*131073 = EINVAL
pwrite w 1 62 = count 1
stat /f = file 2
tree = / dir; /f file 2 6162
";

const NO_ROOM: &str = "\
# Worked by hand from the rows of docs/CALLS.md, which know of no log and of no staging files.
# 56 data blocks: 4 are the reserve and 33 hold the file, so that 19 are left.
row no_room_for_a_second_file
image 64 4 16 16
losses every 13
open a /f wc = fd 0
write a 78*131072 = count 131072
tree = / dir; /f file 131072 78*131072
write a 78*131072 = ENOSPC blocks 32 19
tree = / dir; /f file 131072 78*131072
";

const OVERWRITE: &str = "\
# Worked by hand from the rows of docs/CALLS.md.
# Two bytes over the border of two blocks: after a loss both are old, or both are new.
row overwrite_at_each_stop_strict
image 64 4 16 16
losses every 13 each 2
open a /f rwc = fd 0
write a 61*8192 = count 8192
tree = / dir; /f file 8192 61*8192
pwrite a 4095 6262 = count 2
tree = / dir; /f file 8192 61*4095+6262+61*4095
";

const TRUNCATE: &str = "\
# What was cut is zeros where the file grows again.
row truncate_and_grow_at_each_stop
image 64 4 16 16
open a /f rwc = fd 0
write a 61*5000 = count 5000
tree = / dir; /f file 5000 61*5000
truncate a 10 = ok
tree = / dir; /f file 10 61*10
truncate a 5000 = ok
tree = / dir; /f file 5000 61*10+00*4990
";

#[test]
fn bytes_are_read_back(rt: HostRuntime) -> Result<(), Fail> {
    assert_losses(&rt, BYTES, 3)
}

#[test]
fn files_without_a_name(rt: HostRuntime) -> Result<(), Fail> {
    assert_losses(&rt, NAMELESS, 2)
}

#[test]
fn handles_and_blocks(rt: HostRuntime) -> Result<(), Fail> {
    assert_losses(&rt, HANDLES, 2)
}

#[test]
fn gaps_and_names(rt: HostRuntime) -> Result<(), Fail> {
    assert_losses(&rt, GAPS, 2)
}

#[test]
fn errors_of_all_handles(rt: HostRuntime) -> Result<(), Fail> {
    assert_losses(&rt, ERRORS, 2)
}

#[test]
fn no_room_for_a_second_file(rt: HostRuntime) -> Result<(), Fail> {
    assert_losses(&rt, NO_ROOM, 1)
}

#[test]
fn each_step_of_an_overwrite(rt: HostRuntime) -> Result<(), Fail> {
    assert_losses(&rt, OVERWRITE, 1)
}

#[test]
fn each_step_of_a_truncate(rt: HostRuntime) -> Result<(), Fail> {
    assert_part(&rt, "losses each 2", TRUNCATE)
}

#[test]
fn each_step_of_growing_again(rt: HostRuntime) -> Result<(), Fail> {
    assert_part(&rt, "losses every 13 each 3", TRUNCATE)
}
