//! Images with live entries in their logs.
use crate::asserting::assert_sessions;
use std::test::Fail;

const REPLAYS: &str = "\
# Images of whose logs entries are live, worked out by hand from docs/FORMAT.md. A line `entry FILE PLACE NUMBER ..` makes the
# line at that place an entry, with its check: its sequence number and order, inode and generation, file block and count,
# staging inode, staging block and staging generation, and the file's size.
#
# The image s has 64 blocks and 4 log lines: inode lines from byte 20480 on, name lines from 24576, log lines from 28672, data
# from 32768. Inodes 5 and 6 are the files /x and /y, empty, of generation 1. Staging file 1, of generation 1, has chain block 8
# and the 8 blocks from 9 on; the block 9 + i is full of the byte 97 + i, which prints as 61 and what follows.
row live_entries
mkfs s 64 4 16 16 = 56 data blocks
set s 20800 2 0 0 0 1
set s 20864 2 0 0 0 1
set s 24576 0 0 0 0 5 0 0 0 1 0 0 0 0 0 0 0 120
set s 24640 0 0 0 0 6 0 0 0 1 0 0 0 0 0 0 0 121
set s 20548 1
set s 20568 8 0 0 0 1
set s 32772 1 0 0 0 0 0 0 0 0 0 0 0 0 0 0 0 9 0 0 0 8
fill s 36864 4096 97
fill s 40960 4096 98
fill s 45056 4096 99
fill s 49152 4096 100
fill s 53248 4096 101
fill s 57344 4096 102
fill s 61440 4096 103
fill s 65536 4096 104
file S stat /y
tree s = / dir; /x file 0; /y file 0
# A live entry behind a hole: slot 0 is zero, and slot 1 says that /y has one byte, in staging block 1. A mount carries it out:
# the byte is in a block of /y itself, order 1 is applied, and nothing is staged. A run mounts twice, before its calls and after
# them, and each mount begins a lap, and so does the end of a run: the log's base is 1, then 5, 9 and 13.
copy s h
entry h 28736 2 1 6 1 0 1 1 1 1 1
tree h = / dir; /x file 0; /y file 1 62
step h S strict keep k = 0.0 stat /y = file 1; / dir; /x file 0; /y file 1 62
tree k = / dir; /x file 0; /y file 1 62
bytes k 128 8 = 13 0 0 0 0 0 0 0
bytes k 20864 24 = 2 0 0 0 1 0 0 0 1 0 0 0 0 0 0 0 1 0 0 0 0 0 0 0
bytes k 20892 1 = 1
bytes k 20568 8 = 0 0 0 0 0 0 0 0
# The same entry where order 1 is applied already: it is not live, and /y is empty.
copy h a
set a 20880 1
tree a = / dir; /x file 0; /y file 0
step a S strict keep k = 0.0 stat /y = file 0; / dir; /x file 0; /y file 0
bytes k 128 8 = 13 0 0 0 0 0 0 0
bytes k 20864 24 = 2 0 0 0 1 0 0 0 0 0 0 0 0 0 0 0 1 0 0 0 0 0 0 0
# The log's base is above 2^62: the log's lines become zero, its base 1 (5 behind the run, and 9 at the second mount), and no order above 2^62
# stays, be it of the entry's file or of another.
copy s r
set r 128 1 0 0 0 0 0 0 64
set r 20816 5 0 0 0 0 0 0 64
set r 20880 8 0 0 0 0 0 0 64
entry r 28736 4611686018427387906 4611686018427387913 6 1 0 1 1 1 1 1
tree r = / dir; /x file 0; /y file 1 62
step r S strict keep k = 0.0 stat /y = file 1; / dir; /x file 0; /y file 1 62
tree k = / dir; /x file 0; /y file 1 62
bytes k 128 8 = 9 0 0 0 0 0 0 0
bytes k 28736 8 = 0 0 0 0 0 0 0 0
bytes k 20816 8 = 0 0 0 0 0 0 0 0
bytes k 20880 8 = 0 0 0 0 0 0 0 0
# A base of 2^62 still rises, to 2^62 + 4, and to 2^62 + 8 behind the run, from which the second mount begins with 1.
copy s r
set r 128 0 0 0 0 0 0 0 64
step r S strict keep k = 0.0 stat /y = file 0; / dir; /x file 0; /y file 0
bytes k 128 8 = 1 0 0 0 0 0 0 0
# Entries of two files, mixed over the slots and out of order: /y has orders 1 and 2 in slots 2 and 0, /x 1 and 2 in slots 3 and
# 1. Of /x both cover block 0, and the greater order wins; the length is that of the greatest order, 3 bytes.
copy s m
fill m 49152 4096 97
entry m 28672 1 2 6 1 1 1 1 3 1 4098
entry m 28736 2 2 5 1 0 1 1 2 1 3
entry m 28800 3 1 6 1 0 1 1 0 1 2
entry m 28864 4 1 5 1 0 1 1 4 1 4096
tree m = / dir; /x file 3 636363; /y file 4098 61*4098
step m S strict keep k = 0.0 stat /y = file 4098; / dir; /x file 3 636363; /y file 4098 61*4098
tree k = / dir; /x file 3 636363; /y file 4098 61*4098
bytes k 20800 24 = 2 0 0 0 1 0 0 0 3 0 0 0 0 0 0 0 2 0 0 0 0 0 0 0
bytes k 20864 24 = 2 0 0 0 1 0 0 0 2 16 0 0 0 0 0 0 2 0 0 0 0 0 0 0
# Runs of several blocks that overlap: order 1 has blocks 0 to 2 of /x, order 2 blocks 1 and 2, order 3 block 2 and the one
# behind it. The blocks that are seen, staging blocks 0, 3, 5 and 6, are full of the byte 97; those that are covered are not.
copy s o
fill o 49152 4096 97
fill o 57344 8192 97
entry o 28672 1 1 5 1 0 3 1 0 1 12288
entry o 28736 2 2 5 1 1 2 1 3 1 12288
entry o 28800 3 3 5 1 2 2 1 5 1 12289
tree o = / dir; /x file 12289 61*12289; /y file 0
step o S strict keep k = 0.0 stat /y = file 0; / dir; /x file 12289 61*12289; /y file 0
tree k = / dir; /x file 12289 61*12289; /y file 0
bytes k 20800 24 = 2 0 0 0 1 0 0 0 1 48 0 0 0 0 0 0 3 0 0 0 0 0 0 0
# A file that has a block of its own, full of the byte 122, and an entry for the next, which is as full.
copy s f
set f 20808 1 0 0 0 0 0 0 0 0 0 0 0 0 0 0 0 20 0 0 0 1
set f 81924 1 0 0 0 0 0 0 0 0 0 0 0 0 0 0 0 21 0 0 0 1
fill f 86016 4096 122
fill f 36864 4096 122
entry f 28672 1 1 5 1 1 1 1 0 1 4098
tree f = / dir; /x file 4098 7a*4098; /y file 0
step f S strict keep k = 0.0 stat /y = file 0; / dir; /x file 4098 7a*4098; /y file 0
tree k = / dir; /x file 4098 7a*4098; /y file 0
# A hole in front of a staged block, which is full of zeros: the hole reads as zeros too.
copy s g
fill g 36864 4096 0
entry g 28672 1 1 5 1 1 1 1 0 1 4105
tree g = / dir; /x file 4105 00*4105; /y file 0
step g S strict keep k = 0.0 stat /y = file 0; / dir; /x file 4105 00*4105; /y file 0
tree k = / dir; /x file 4105 00*4105; /y file 0
# Entries that are not live: of a generation of the file before; of a generation of the staging file before; of the lap before
# in the same slot; and one whose check does not fit.
copy s d
set d 128 5
entry d 28672 5 1 6 0 0 1 1 0 1 1
entry d 28736 6 1 6 1 0 1 1 0 0 1
entry d 28800 3 1 6 1 0 1 1 0 1 1
entry d 28864 8 1 6 1 0 1 1 0 1 1
set d 28920 1
tree d = / dir; /x file 0; /y file 0
step d S strict keep k = 0.0 stat /y = file 0; / dir; /x file 0; /y file 0
tree k = / dir; /x file 0; /y file 0
bytes k 128 8 = 17 0 0 0 0 0 0 0
# A live entry of a file without a name: it is carried out, and the file goes.
copy s n
set n 24640 0 0 0 0 0 0 0 0 0 0 0 0 0 0 0 0 0
entry n 28672 1 1 6 1 0 1 1 0 1 1
tree n = / dir; /x file 0
file T stat /x
step n T strict keep k = 0.0 stat /x = file 0; / dir; /x file 0
tree k = / dir; /x file 0
bytes k 20864 24 = 0 0 0 0 1 0 0 0 0 0 0 0 0 0 0 0 0 0 0 0 0 0 0 0
# Blocks past the end of a file: /x has one byte and two extents, of which a mount keeps the one that has the byte.
copy s e
set e 20808 1 0 0 0 0 0 0 0 0 0 0 0 0 0 0 0 20 0 0 0 2
set e 81924 2 0 0 0 0 0 0 0 0 0 0 0 0 0 0 0 21 0 0 0 1 0 0 0 0 0 0 0 2 0 0 0 23 0 0 0 1
set e 86016 122
tree e = / dir; /x file 1 7a; /y file 0
step e S strict keep k = 0.0 stat /y = file 0; / dir; /x file 1 7a; /y file 0
tree k = / dir; /x file 1 7a; /y file 0
bytes k 20828 1 = 1
# A run on such an image: what was logged is there for the calls, and stays when the power goes at once.
file U open a /y r; read a 5; mkdir /d
step h U strict = 0.0 open a /y r = fd 0; 0.1 read a 5 = data 62; 0.2 mkdir /d = ok; / dir; /d dir; /x file 0; /y file 1 62
step h U strict stop 0 = / dir; /x file 0; /y file 1 62
# A hundred images from a seed, with live entries in their logs: how many of them show, before a mount and after it, what they
# contain by the plain meaning of their lines.
forged 20261128 100 = 100 forged images with 613 live entries: 100 are kept
";

#[test]
fn live_entries(rt: HostRuntime) -> Result<(), Fail> {
    assert_sessions(&rt, REPLAYS, 1)
}
