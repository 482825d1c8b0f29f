//! Images that are made, damaged and shown, with the rule that refuses each or its tree.
use crate::asserting::assert_sessions;
use std::test::Fail;

const IMAGES: &str = "\
# Images that are made, damaged and shown. The image g has 64 blocks: inode lines from byte 20480 on, name lines from 24576,
# log lines from 28672, data from 32768.
# The smallest image: 1 block 0, 4 of the journal, 1 of inodes, 1 of names, 1 of the log, and 56 more.
row bad_images
mkfs g 64 4 16 16 = 56 data blocks
tree g = / dir
# The default image, which is also `-`: 1 + 4 + 1 + 2 + 1 = 9 blocks before the data.
mkfs d 256 64 64 128 = 247 data blocks
tree d = / dir
tree - = / dir
# The most lines of each kind: 5 + 16 + 64 + 16 = 101 blocks before the data.
mkfs m 256 1024 1024 4096 = 155 data blocks
tree m = / dir
mkfs m 133 1024 1024 4096 = 32 data blocks
tree m = / dir
# Numbers outside the limits, and one data block too few: no file is made.
mkfs n 63 4 16 16 = splitfs: usage
mkfs n 16385 4 16 16 = splitfs: usage
mkfs n 64 3 16 16 = splitfs: usage
mkfs n 64 1025 16 16 = splitfs: usage
mkfs n 64 4 15 16 = splitfs: usage
mkfs n 64 4 1025 16 = splitfs: usage
mkfs n 64 4 16 15 = splitfs: usage
mkfs n 64 4 16 4097 = splitfs: usage
mkfs n 132 1024 1024 4096 = splitfs: usage
tree n = splitfs: no such file n
# Words that are no command.
mkfs - 64 4 16 16 = splitfs: usage
mkfs n 064 4 16 16 = splitfs: usage
mkfs n 64 4 16 = splitfs: usage
mkfs n 64 4 16 16 n = splitfs: usage
tree = splitfs: usage
tree g g = splitfs: usage
step - S = splitfs: usage
step - S strict choose 07 = splitfs: usage
step - S strict choose 1000000000000000000 = splitfs: usage
step - S strict choose middle = splitfs: usage
step - S strict choose odd stop 1 = splitfs: usage
step - S strict keep n stop 1 = splitfs: usage
step - S strict keep = splitfs: usage
step - S posix = splitfs: usage
# A number chooses by draws from it as a seed. A command reads its image first.
step - S strict choose 7 = splitfs: no such file S
step g S strict keep n = splitfs: no such file S
# Each refusal, where it is first.
file S frob /a
tree n = splitfs: no such file n
step - n strict = splitfs: no such file n
step - S strict = splitfs: bad script: line 1
# Lengths: rule 1, whatever the bytes are.
copy d h
cut h 1048575
tree h = rule 1 at 1048575
file h
tree h = rule 1 at 0
# 63 blocks of an image of 64.
copy g h
cut h 258048
tree h = rule 1 at 258048
# 64 blocks of the default image: whole blocks enough, but not as many as it says.
copy d h
cut h 262144
tree h = rule 4 at 0
# The magic.
copy g h
set h 7 50
tree h = rule 2 at 0
# Version 9.
copy g h
set h 8 9
tree h = rule 3 at 0
# 63 blocks in the superblock; a byte behind the superblock; a byte in line 3.
copy g h
set h 12 63
tree h = rule 4 at 0
copy g h
set h 28 1
tree h = rule 4 at 0
copy g h
set h 192 1
tree h = rule 4 at 0
# The commit word 129.
copy g h
set h 64 129
tree h = rule 11 at 128
# A committed record whose target is line 1, which is not journaled; and two, of which the first has the root's line.
copy g h
set h 64 1
set h 4096 1
tree h = rule 11 at 0
copy g h
set h 64 2
set h 4096 64 1
set h 4160 1
set h 4224 1
tree h = rule 11 at 1
# The log base 0.
copy g h
set h 128 0
tree h = rule 11 at 128
# Inode line 1 of kind 2, of kind 4; inode line 0 free; inode line 5 a staging file.
copy g h
set h 20544 2
tree h = rule 5 at 1
copy g h
set h 20544 4
tree h = rule 5 at 1
copy g h
set h 20480 0
tree h = rule 5 at 0
copy g h
set h 20800 3
tree h = rule 5 at 5
# A name line without a length; one whose child is free.
copy g h
set h 24576 0 0 0 0 5
tree h = rule 6 at 0
copy g h
set h 24640 0 0 0 0 6 0 0 0 1 0 0 0 0 0 0 0 97
tree h = rule 6 at 1
# A file with an extent and no chain block; one whose chain block is block 7, of the log.
copy g h
set h 20800 2 0 0 0 1 0 0 0 0 0 0 0 0 0 0 0 0 0 0 0 0 0 0 0 0 0 0 0 1
tree h = rule 5 at 5
copy g h
set h 20800 2 0 0 0 1 0 0 0 0 0 0 0 0 0 0 0 0 0 0 0 0 0 0 0 7 0 0 0 1
tree h = rule 7 at 5
# A file whose chain block 8 names block 8; two files with one chain.
copy g h
set h 20800 2 0 0 0 1 0 0 0 1 0 0 0 0 0 0 0 0 0 0 0 0 0 0 0 8 0 0 0 1
set h 32768 0 0 0 0 1 0 0 0 0 0 0 0 0 0 0 0 0 0 0 0 8 0 0 0 1
tree h = rule 8 at 8
copy g h
set h 20800 2 0 0 0 1 0 0 0 1 0 0 0 0 0 0 0 0 0 0 0 0 0 0 0 8 0 0 0 1
set h 20864 2 0 0 0 1 0 0 0 1 0 0 0 0 0 0 0 0 0 0 0 0 0 0 0 8 0 0 0 1
set h 32768 0 0 0 0 1 0 0 0 0 0 0 0 0 0 0 0 0 0 0 0 9 0 0 0 1
tree h = rule 8 at 8
# A directory without a name: place 16 is the count of name lines. A name below a file; a name twice in one directory.
copy g h
set h 20800 1 0 0 0 1
tree h = rule 9 at 16
copy g h
set h 20800 2 0 0 0 1
set h 20864 2 0 0 0 1
set h 24576 0 0 0 0 5 0 0 0 1 0 0 0 0 0 0 0 97
set h 24640 5 0 0 0 6 0 0 0 1 0 0 0 0 0 0 0 98
tree h = rule 9 at 1
copy g h
set h 20800 2 0 0 0 1
set h 20864 2 0 0 0 1
set h 24576 0 0 0 0 5 0 0 0 1 0 0 0 0 0 0 0 97
set h 24640 0 0 0 0 6 0 0 0 1 0 0 0 0 0 0 0 97
tree h = rule 9 at 0
# Two directories that are each below the other: going up from line 0 ends nowhere.
copy g h
set h 20800 1 0 0 0 1
set h 20864 1 0 0 0 1
set h 24576 6 0 0 0 5 0 0 0 1 0 0 0 0 0 0 0 97
set h 24640 5 0 0 0 6 0 0 0 1 0 0 0 0 0 0 0 98
tree h = rule 9 at 0
# A directory with two names in the root.
copy g h
set h 20800 1 0 0 0 1
set h 24576 0 0 0 0 5 0 0 0 1 0 0 0 0 0 0 0 97
set h 24640 0 0 0 0 5 0 0 0 1 0 0 0 0 0 0 0 98
tree h = rule 10 at 5
# An entry for a file that is there, in slot 1 of base 1, whose staging file has no block.
copy g h
set h 20800 2 0 0 0 1
set h 24576 0 0 0 0 5 0 0 0 1 0 0 0 0 0 0 0 102
set h 28736 97 110 121 59 1 1 1 0 2 0 0 0 0 0 0 0 1 0 0 0 0 0 0 0 5 0 0 0 1 0 0 0 0 0 0 0 1 0 0 0 0 0 0 0 0 0 0 0 1
tree h = rule 12 at 0
# The same with its staging block, which keeps all rules: it is live, so that the file has the block, which is full of zeros.
copy g h
set h 20800 2 0 0 0 1
set h 24576 0 0 0 0 5 0 0 0 1 0 0 0 0 0 0 0 102
set h 20544 3 0 0 0 0 0 0 0 0 0 0 0 0 0 0 0 0 0 0 0 0 0 0 0 8 0 0 0 1
set h 32768 0 0 0 0 1 0 0 0 0 0 0 0 0 0 0 0 0 0 0 0 9 0 0 0 1
set h 28736 97 110 121 59 1 1 1 0 2 0 0 0 0 0 0 0 1 0 0 0 0 0 0 0 5 0 0 0 1 0 0 0 0 0 0 0 1 0 0 0 0 0 0 0 0 0 0 0 1
tree h = / dir; /f file 1 00
# The same for the file's generation before: it is not live.
copy g h
set h 20800 2 0 0 0 1
set h 24576 0 0 0 0 5 0 0 0 1 0 0 0 0 0 0 0 102
set h 20544 3 0 0 0 0 0 0 0 0 0 0 0 0 0 0 0 0 0 0 0 0 0 0 0 8 0 0 0 1
set h 32768 0 0 0 0 1 0 0 0 0 0 0 0 0 0 0 0 0 0 0 0 9 0 0 0 1
set h 28736 48 11 102 161 1 1 1 0 2 0 0 0 0 0 0 0 1 0 0 0 0 0 0 0 5 0 0 0 0 0 0 0 0 0 0 0 1 0 0 0 0 0 0 0 0 0 0 0 1
tree h = / dir; /f file 0
# The same with a check that is one off: it is no entry.
copy g h
set h 20800 2 0 0 0 1
set h 24576 0 0 0 0 5 0 0 0 1 0 0 0 0 0 0 0 102
set h 20544 3 0 0 0 0 0 0 0 0 0 0 0 0 0 0 0 0 0 0 0 0 0 0 0 8 0 0 0 1
set h 32768 0 0 0 0 1 0 0 0 0 0 0 0 0 0 0 0 0 0 0 0 9 0 0 0 1
set h 28736 96 110 121 59 1 1 1 0 2 0 0 0 0 0 0 0 1 0 0 0 0 0 0 0 5 0 0 0 1 0 0 0 0 0 0 0 1 0 0 0 0 0 0 0 0 0 0 0 1
tree h = / dir; /f file 0
# An entry in slot 2 that says sequence number 5: that is of the lap to come.
copy g h
set h 28800 134 120 201 229 1 1 1 0 5 0 0 0 0 0 0 0 1 0 0 0 0 0 0 0 5 0 0 0 1 0 0 0 0 0 0 0 1 0 0 0 0 0 0 0 0 0 0 0 1
tree h = rule 13 at 2
# A file with a byte, in a directory; a file without a name is in no tree.
copy g h
set h 20800 1 0 0 0 1
set h 20864 2 0 0 0 1 0 0 0 1 0 0 0 0 0 0 0 0 0 0 0 0 0 0 0 8 0 0 0 1
set h 20928 2 0 0 0 1
set h 24576 0 0 0 0 5 0 0 0 1 0 0 0 0 0 0 0 100
set h 24640 5 0 0 0 6 0 0 0 1 0 0 0 0 0 0 0 102
set h 32768 0 0 0 0 1 0 0 0 0 0 0 0 0 0 0 0 0 0 0 0 9 0 0 0 1
set h 36864 97
tree h = / dir; /d dir; /d/f file 1 61
# A chain of two extents, word by word: file blocks 0 and 1 in blocks 10 and 11, and file block 2 in block 20.
copy g h
set h 20800 2 0 0 0 1 0 0 0 1 32 0 0 0 0 0 0 0 0 0 0 0 0 0 0 8 0 0 0 2
set h 24576 0 0 0 0 5 0 0 0 1 0 0 0 0 0 0 0 97
set h 32772 2 0 0 0 0 0 0 0 0 0 0 0 0 0 0 0 10 0 0 0 2 0 0 0 0 0 0 0 2 0 0 0 20 0 0 0 1
set h 45055 98
set h 81920 97
tree h = / dir; /a file 8193 00*4095+62+00*4096+61
# A committed record that makes inode 5 a directory, which a name has: lines count as the journal has them.
copy g h
set h 24576 0 0 0 0 5 0 0 0 1 0 0 0 0 0 0 0 100
set h 64 1
set h 4096 69 1
set h 4160 1 0 0 0 1
tree h = / dir; /d dir
# Commands after one another: the image that was damaged is made again, and no tree changed it before.
tree h = / dir; /d dir
mkfs h 64 4 16 16 = 56 data blocks
tree h = / dir
";

const DAMAGES: &str = "\
# Damaged images: one kind of place changed in each, and what is then broken first, worked out by hand from the rules in
# docs/FORMAT.md. A line `damage b PLACE BYTE .. = ANSWER` copies the image b, sets bytes from that place on (and from others
# behind `;`) and asks for the tree: `same` is that of b, `rule R at P` the refusal.
#
# The image b has 64 blocks, 4 log lines, 16 inode lines (from byte 20480 on) and 16 name lines (from 24576), log lines from
# 28672 and data from 32768. Inode 5 is the directory /d, named by line 0; inode 6 the file /d/f, named by line 1, with
# chain block 8 and the byte `a` in block 9; inode 1 is a staging file with chain block 10 and block 11. Slot 1 has an entry
# of the file's generation before, which is not live.
row each_damaged_field
mkfs b 64 4 16 16 = 56 data blocks
set b 20544 3 0 0 0 0 0 0 0 0 0 0 0 0 0 0 0 0 0 0 0 0 0 0 0 10 0 0 0 1
set b 20800 1 0 0 0 1
set b 20864 2 0 0 0 1 0 0 0 1 0 0 0 0 0 0 0 0 0 0 0 0 0 0 0 8 0 0 0 1
set b 24576 0 0 0 0 5 0 0 0 1 0 0 0 0 0 0 0 100
set b 24640 5 0 0 0 6 0 0 0 1 0 0 0 0 0 0 0 102
set b 28736 179 221 118 212 1 1 1 0 2 0 0 0 0 0 0 0 1 0 0 0 0 0 0 0 6 0 0 0 0 0 0 0 0 0 0 0 1 0 0 0 0 0 0 0 0 0 0 0 1
set b 32768 0 0 0 0 1 0 0 0 0 0 0 0 0 0 0 0 0 0 0 0 9 0 0 0 1
set b 36864 97
set b 40960 0 0 0 0 1 0 0 0 0 0 0 0 0 0 0 0 0 0 0 0 11 0 0 0 1
tree b = / dir; /d dir; /d/f file 1 61
# The superblock: the magic; the version; blocks; log; inodes; names; what is behind them.
damage b 0 84 = rule 2 at 0
damage b 7 50 = rule 2 at 0
damage b 8 0 = rule 3 at 0
damage b 8 2 = rule 3 at 0
damage b 11 1 = rule 3 at 0
damage b 12 63 = rule 4 at 0
damage b 12 65 = rule 4 at 0
damage b 16 3 = rule 4 at 0
damage b 16 1 4 = rule 4 at 0
# A log of 5 lines has one block too, and the fifth is no entry; one of 65 has two, and block 8 is no data block any more.
damage b 16 5 = same
damage b 16 65 = rule 7 at 6
# 17 inode lines: the last is free. 65 take two blocks, so that inode line 64 is name line 0, of which byte 8 would be a size.
damage b 20 15 = rule 4 at 0
damage b 20 17 = same
damage b 20 65 = rule 5 at 64
damage b 20 1 4 = rule 4 at 0
damage b 24 15 = rule 4 at 0
damage b 24 17 = same
damage b 24 65 = rule 7 at 6
damage b 24 1 16 = rule 4 at 0
damage b 28 1 = rule 4 at 0
damage b 63 1 = rule 4 at 0
# The rest of block 0: behind the commit word, behind the log base, and the lines that nothing is in.
damage b 72 1 = rule 4 at 0
damage b 127 1 = rule 4 at 0
damage b 136 1 = rule 4 at 0
damage b 191 1 = rule 4 at 0
damage b 192 1 = rule 4 at 0
damage b 4095 1 = rule 4 at 0
# The log base: 0; 2^63, by which slot 1 has no entry; one more; and 3, by which it has none either.
damage b 128 0 = rule 11 at 128
damage b 128 0 0 0 0 0 0 0 128 = same
damage b 128 1 0 0 0 0 0 0 128 = rule 11 at 128
damage b 128 3 = same
# The commit word, with records of zeros: their target is line 0, which is not journaled. Above 128 no record counts.
damage b 64 1 = rule 11 at 0
damage b 64 128 = rule 11 at 0
damage b 64 129 = rule 11 at 128
damage b 71 1 = rule 11 at 128
# Records that nothing committed are read by no rule.
damage b 4096 99 = same
damage b 20479 1 = same
# A committed record and its target: the line of the commit word, of the log base, line 3, a record, inode line 0, 15 and 16, name
# line 0, 15 and 16, log line 0, a data line.
damage b 64 1 ; 4096 1 = rule 11 at 0
damage b 64 1 ; 4096 2 ; 4160 1 = same
damage b 64 1 ; 4096 3 = rule 11 at 0
damage b 64 1 ; 4096 64 = rule 11 at 0
damage b 64 1 ; 4096 64 1 ; 4160 1 = same
damage b 64 1 ; 4096 79 1 = same
damage b 64 1 ; 4096 80 1 = rule 11 at 0
damage b 64 1 ; 4096 143 1 = same
damage b 64 1 ; 4096 144 1 = rule 11 at 0
damage b 64 1 ; 4096 192 1 = rule 11 at 0
damage b 64 1 ; 4096 0 2 = rule 11 at 0
# The second of two committed records has no journaled target.
damage b 64 2 ; 4096 2 ; 4160 1 ; 4224 1 = rule 11 at 1
# What a committed record says counts: a log base of 0, of 1 with a word behind it; the root free; name line 0 free, by which /d has
# no name and line 1 leads nowhere; of two records of one line the second, either way; and a line that is broken as it stands.
damage b 64 1 ; 4096 2 = rule 11 at 128
damage b 64 1 ; 4096 2 ; 4160 1 0 0 0 0 0 0 0 1 = rule 4 at 0
damage b 64 1 ; 4096 64 1 = rule 5 at 0
damage b 64 1 ; 4096 128 1 = rule 9 at 1
damage b 64 2 ; 4096 64 1 ; 4224 64 1 ; 4288 1 = same
damage b 64 2 ; 4096 64 1 ; 4160 1 ; 4224 64 1 = rule 5 at 0
damage b 20864 9 ; 64 1 ; 4096 70 1 ; 4160 2 0 0 0 1 0 0 0 1 0 0 0 0 0 0 0 0 0 0 0 0 0 0 0 8 0 0 0 1 = same
# Inode line 0, the root: kind, unnamed bytes, generation, size, applied, root, extents.
damage b 20480 0 = rule 5 at 0
damage b 20480 2 = rule 5 at 0
damage b 20480 3 = rule 5 at 0
damage b 20481 1 = rule 5 at 0
damage b 20484 9 = same
damage b 20488 1 = rule 5 at 0
damage b 20496 1 = rule 5 at 0
damage b 20504 12 = rule 5 at 0
damage b 20508 1 = rule 5 at 0
damage b 20543 1 = rule 5 at 0
# Inode line 1, a staging file.
damage b 20544 0 = rule 5 at 1
damage b 20544 1 = rule 5 at 1
damage b 20544 2 = rule 5 at 1
damage b 20544 4 = rule 5 at 1
damage b 20548 7 = same
damage b 20552 1 = rule 5 at 1
damage b 20560 1 = rule 5 at 1
damage b 20568 0 = rule 5 at 1
damage b 20568 7 = rule 7 at 1
damage b 20568 11 = rule 7 at 1
damage b 20568 64 = rule 7 at 1
damage b 20572 0 = rule 5 at 1
damage b 20572 2 = rule 7 at 1
damage b 20576 1 = rule 5 at 1
# Inode line 5, the directory: free it has a name; as a file it has one below it; a staging file may not stand there.
damage b 20800 0 = rule 6 at 0
damage b 20800 2 = rule 9 at 1
damage b 20800 3 = rule 5 at 5
damage b 20800 4 = rule 5 at 5
# Inode line 6, the file: kind, size, applied, root, extents. A size of 52 blocks holds 53, and 4 are the reserve; 56 are there.
damage b 20864 0 = rule 5 at 6
damage b 20864 1 = rule 5 at 6
damage b 20872 0 = / dir; /d dir; /d/f file 0
damage b 20872 2 = / dir; /d dir; /d/f file 2 6100
damage b 20872 0 64 3 = rule 12 at 0
damage b 20872 0 0 0 1 = rule 12 at 0
damage b 20872 1 0 0 1 = rule 5 at 6
damage b 20880 0 0 0 0 0 0 0 128 = same
damage b 20880 1 0 0 0 0 0 0 128 = rule 5 at 6
damage b 20888 0 = rule 5 at 6
damage b 20888 9 = rule 7 at 6
damage b 20888 10 = rule 8 at 10
damage b 20892 0 = rule 5 at 6
damage b 20892 2 = rule 7 at 6
damage b 20892 0 1 = rule 7 at 6
# Inode line 7, which is free: a directory without a name (16 is the count of name lines), a file without one, a generation, a size.
# Bytes behind the last line are read by no rule.
damage b 20928 1 = rule 9 at 16
damage b 20928 2 = same
damage b 20932 9 = same
damage b 20936 1 = rule 5 at 7
damage b 21504 1 = same
# Name line 0: the parent is the directory itself, a file, a free inode, no inode; the child is none, a staging file, the file, a free
# inode, no inode.
damage b 24576 5 = rule 9 at 0
damage b 24576 6 = rule 9 at 0
damage b 24576 7 = rule 9 at 0
damage b 24576 16 = rule 6 at 0
damage b 24580 0 = rule 6 at 0
damage b 24580 1 = rule 6 at 0
damage b 24580 6 = rule 9 at 1
damage b 24580 7 = rule 6 at 0
damage b 24580 16 = rule 6 at 0
# Its length, unnamed bytes, and bytes of the name: a slash, a blank, one above 126, a dot alone, one behind the name.
damage b 24584 0 = rule 6 at 0
damage b 24584 2 = rule 6 at 0
damage b 24584 49 = rule 6 at 0
damage b 24585 1 = rule 6 at 0
damage b 24592 47 = rule 6 at 0
damage b 24592 32 = rule 6 at 0
damage b 24592 127 = rule 6 at 0
damage b 24592 46 = rule 6 at 0
damage b 24593 101 = rule 6 at 0
damage b 24592 33 = / dir; /! dir; /!/f file 1 61
# Name line 1 in the root; line 2, which is free, with a child, and with a second name of the file and of the directory.
damage b 24640 0 = / dir; /d dir; /f file 1 61
damage b 24708 5 = rule 6 at 2
damage b 24704 0 0 0 0 6 0 0 0 1 0 0 0 0 0 0 0 103 = rule 10 at 6
damage b 24704 0 0 0 0 5 0 0 0 1 0 0 0 0 0 0 0 103 = rule 10 at 5
damage b 24704 0 0 0 0 6 0 0 0 1 0 0 0 0 0 0 0 100 = rule 9 at 0
damage b 25600 1 = same
# Chain block 8, of the file: a block behind the last; the count; unnamed bytes; the extent's place in the file, on the disk, and its
# count; behind the extents.
damage b 32768 12 = rule 7 at 6
damage b 32772 0 = rule 7 at 6
damage b 32772 2 = rule 7 at 6
damage b 32776 1 = rule 7 at 6
damage b 32784 0 16 = rule 7 at 6
damage b 32784 255 15 = / dir; /d dir; /d/f file 1 00
damage b 32788 7 = rule 7 at 6
damage b 32788 64 = rule 7 at 6
damage b 32788 63 = / dir; /d dir; /d/f file 1 00
damage b 32788 8 = rule 8 at 8
damage b 32788 10 = rule 8 at 10
damage b 32788 11 = rule 8 at 11
damage b 32792 0 = rule 7 at 6
damage b 32792 2 = rule 8 at 10
damage b 32796 1 = rule 7 at 6
damage b 32800 1 = rule 7 at 6
damage b 36863 1 = rule 7 at 6
# Chain block 10, of the staging file: block 64 of it; 52 blocks of the disk, by which one is left free, and 53, by which none is.
damage b 40976 63 = same
damage b 40976 64 = rule 7 at 1
damage b 40984 52 = same
damage b 40984 53 = rule 12 at 0
# A byte of the file; one of the staging file, and of a block that nothing names.
damage b 36864 98 = / dir; /d dir; /d/f file 1 62
damage b 45056 1 = same
damage b 262143 1 = same
# The entry in slot 1: its check, and each field under a check that fits. It is of sequence number 2. It is live where the generation is
# that of the file and of the staging file and its order is above what is applied; then the file has its block, which is full of
# zeros, or, where the staging file has no such block, the image is refused.
damage b 28736 1 = same
damage b 28736 176 163 172 158 1 1 1 0 1 0 0 0 0 0 0 0 1 0 0 0 0 0 0 0 6 0 0 0 0 0 0 0 0 0 0 0 1 0 0 0 0 0 0 0 0 0 0 0 1 = same
damage b 28736 117 144 134 171 1 1 1 0 4 0 0 0 0 0 0 0 1 0 0 0 0 0 0 0 6 0 0 0 0 0 0 0 0 0 0 0 1 0 0 0 0 0 0 0 0 0 0 0 1 = same
damage b 28736 52 9 204 76 1 1 1 0 5 0 0 0 0 0 0 0 1 0 0 0 0 0 0 0 6 0 0 0 0 0 0 0 0 0 0 0 1 0 0 0 0 0 0 0 0 0 0 0 1 = rule 13 at 1
damage b 28736 233 85 31 251 1 1 1 0 255 255 255 255 255 255 255 255 1 0 0 0 0 0 0 0 6 0 0 0 0 0 0 0 0 0 0 0 1 0 0 0 0 0 0 0 0 0 0 0 1 = rule 13 at 1
damage b 28736 167 64 231 4 2 1 1 0 5 0 0 0 0 0 0 0 1 0 0 0 0 0 0 0 6 0 0 0 0 0 0 0 0 0 0 0 1 0 0 0 0 0 0 0 0 0 0 0 1 = same
damage b 28736 17 143 243 72 1 2 1 0 5 0 0 0 0 0 0 0 1 0 0 0 0 0 0 0 6 0 0 0 0 0 0 0 0 0 0 0 1 0 0 0 0 0 0 0 0 0 0 0 1 = same
damage b 28736 221 109 80 238 1 1 0 0 5 0 0 0 0 0 0 0 1 0 0 0 0 0 0 0 6 0 0 0 0 0 0 0 0 0 0 0 1 0 0 0 0 0 0 0 0 0 0 0 1 = same
damage b 28736 20 160 170 5 1 1 33 0 5 0 0 0 0 0 0 0 1 0 0 0 0 0 0 0 6 0 0 0 0 0 0 0 0 0 0 0 1 0 0 0 0 0 0 0 0 0 0 0 1 = rule 13 at 1
damage b 28736 175 252 170 248 1 1 34 0 5 0 0 0 0 0 0 0 1 0 0 0 0 0 0 0 6 0 0 0 0 0 0 0 0 0 0 0 1 0 0 0 0 0 0 0 0 0 0 0 1 = same
damage b 28736 149 7 48 223 1 1 1 0 5 0 0 0 0 0 0 0 0 0 0 0 0 0 0 0 6 0 0 0 0 0 0 0 0 0 0 0 1 0 0 0 0 0 0 0 0 0 0 0 1 = same
damage b 28736 21 206 20 167 1 1 1 0 5 0 0 0 0 0 0 0 0 0 0 0 0 0 0 128 6 0 0 0 0 0 0 0 0 0 0 0 1 0 0 0 0 0 0 0 0 0 0 0 1 = rule 13 at 1
damage b 28736 180 207 176 20 1 1 1 0 5 0 0 0 0 0 0 0 1 0 0 0 0 0 0 128 6 0 0 0 0 0 0 0 0 0 0 0 1 0 0 0 0 0 0 0 0 0 0 0 1 = same
damage b 28736 10 169 226 130 1 1 1 0 5 0 0 0 0 0 0 0 1 0 0 0 0 0 0 0 6 0 0 0 0 0 0 0 255 15 0 0 1 0 0 0 0 0 0 0 0 0 0 0 1 = rule 13 at 1
damage b 28736 228 234 182 79 1 1 1 0 5 0 0 0 0 0 0 0 1 0 0 0 0 0 0 0 6 0 0 0 0 0 0 0 0 16 0 0 1 0 0 0 0 0 0 0 0 0 0 0 1 = same
damage b 28736 69 175 118 216 1 1 1 0 5 0 0 0 0 0 0 0 1 0 0 0 0 0 0 0 6 0 0 0 0 0 0 0 0 0 0 0 0 0 0 0 0 0 0 0 0 0 0 0 1 = same
damage b 28736 129 53 69 100 1 1 1 0 5 0 0 0 0 0 0 0 1 0 0 0 0 0 0 0 6 0 0 0 0 0 0 0 0 0 0 0 4 0 0 0 0 0 0 0 0 0 0 0 1 = rule 13 at 1
damage b 28736 112 143 154 216 1 1 1 0 5 0 0 0 0 0 0 0 1 0 0 0 0 0 0 0 6 0 0 0 0 0 0 0 0 0 0 0 5 0 0 0 0 0 0 0 0 0 0 0 1 = same
damage b 28736 171 50 128 225 1 1 1 0 5 0 0 0 0 0 0 0 1 0 0 0 0 0 0 0 6 0 0 0 0 0 0 0 0 0 0 0 1 0 0 0 63 0 0 0 0 0 0 0 1 = rule 13 at 1
damage b 28736 116 97 134 125 1 1 1 0 5 0 0 0 0 0 0 0 1 0 0 0 0 0 0 0 6 0 0 0 0 0 0 0 0 0 0 0 1 0 0 0 64 0 0 0 0 0 0 0 1 = same
damage b 28736 82 238 18 74 1 1 1 0 5 0 0 0 0 0 0 0 1 0 0 0 0 0 0 0 6 0 0 0 0 0 0 0 0 0 0 0 1 0 0 0 0 0 0 0 0 0 0 0 0 0 0 1 = rule 13 at 1
damage b 28736 87 166 224 131 1 1 1 0 5 0 0 0 0 0 0 0 1 0 0 0 0 0 0 0 6 0 0 0 0 0 0 0 0 0 0 0 1 0 0 0 0 0 0 0 0 0 0 0 1 0 0 1 = same
damage b 28736 85 104 45 170 1 1 1 0 5 0 0 0 0 0 0 0 1 0 0 0 0 0 0 0 6 0 0 0 0 0 0 0 0 0 0 0 1 0 0 0 0 0 0 0 0 0 0 0 1 0 0 0 0 0 0 0 1 = same
damage b 28736 130 122 99 58 1 1 1 0 2 0 0 0 0 0 0 0 1 0 0 0 0 0 0 0 6 0 0 0 1 0 0 0 0 0 0 0 1 0 0 0 0 0 0 0 0 0 0 0 1 = / dir; /d dir; /d/f file 1 00
damage b 28736 163 149 87 246 1 1 1 0 2 0 0 0 0 0 0 0 1 0 0 0 0 0 0 0 6 0 0 0 1 0 0 0 0 0 0 0 1 0 0 0 1 0 0 0 0 0 0 0 1 = rule 12 at 0
damage b 28736 179 217 204 240 1 1 1 0 2 0 0 0 0 0 0 0 1 0 0 0 0 0 0 0 6 0 0 0 1 0 0 0 0 0 0 0 1 0 0 0 0 0 0 0 1 0 0 0 1 = same
damage b 28736 97 110 121 59 1 1 1 0 2 0 0 0 0 0 0 0 1 0 0 0 0 0 0 0 5 0 0 0 1 0 0 0 0 0 0 0 1 0 0 0 0 0 0 0 0 0 0 0 1 = same
# An entry that was applied, alone, and beside another of its order; beside one of another order.
damage b 20880 2 ; 28736 129 161 195 157 1 1 1 0 2 0 0 0 0 0 0 0 2 0 0 0 0 0 0 0 6 0 0 0 1 0 0 0 0 0 0 0 1 0 0 0 0 0 0 0 0 0 0 0 1 = same
damage b 20880 2 ; 28672 226 223 95 213 1 1 1 0 1 0 0 0 0 0 0 0 2 0 0 0 0 0 0 0 6 0 0 0 1 0 0 0 0 0 0 0 1 0 0 0 0 0 0 0 0 0 0 0 1 ; 28736 129 161 195 157 1 1 1 0 2 0 0 0 0 0 0 0 2 0 0 0 0 0 0 0 6 0 0 0 1 0 0 0 0 0 0 0 1 0 0 0 0 0 0 0 0 0 0 0 1 = rule 12 at 0
damage b 20880 2 ; 28672 225 6 192 56 1 1 1 0 1 0 0 0 0 0 0 0 1 0 0 0 0 0 0 0 6 0 0 0 1 0 0 0 0 0 0 0 1 0 0 0 0 0 0 0 0 0 0 0 1 ; 28736 129 161 195 157 1 1 1 0 2 0 0 0 0 0 0 0 2 0 0 0 0 0 0 0 6 0 0 0 1 0 0 0 0 0 0 0 1 0 0 0 0 0 0 0 0 0 0 0 1 = same
# Two rules are broken: the one that is tried first is named, whatever their numbers.
damage b 8 9 ; 64 129 = rule 3 at 0
damage b 64 129 ; 20480 0 = rule 11 at 128
damage b 20480 0 ; 24580 16 = rule 5 at 0
damage b 24580 16 ; 32772 0 = rule 6 at 0
damage b 32772 0 ; 20568 7 = rule 7 at 1
damage b 32788 10 ; 24576 5 = rule 8 at 10
damage b 20928 1 ; 24704 0 0 0 0 6 0 0 0 1 0 0 0 0 0 0 0 103 = rule 9 at 16
damage b 24704 0 0 0 0 6 0 0 0 1 0 0 0 0 0 0 0 103 ; 40984 53 = rule 10 at 6
damage b 40984 53 ; 28736 52 9 204 76 1 1 1 0 5 0 0 0 0 0 0 0 1 0 0 0 0 0 0 0 6 0 0 0 0 0 0 0 0 0 0 0 1 0 0 0 0 0 0 0 0 0 0 0 1 = rule 12 at 0
# The most names that a way may have, 16: /a/a/.., and one more, in line 16.
mkfs p 64 4 32 32 = 56 data blocks
set p 20800 1
set p 24576 0 0 0 0 5 0 0 0 1 0 0 0 0 0 0 0 97
set p 20864 1
set p 24640 5 0 0 0 6 0 0 0 1 0 0 0 0 0 0 0 97
set p 20928 1
set p 24704 6 0 0 0 7 0 0 0 1 0 0 0 0 0 0 0 97
set p 20992 1
set p 24768 7 0 0 0 8 0 0 0 1 0 0 0 0 0 0 0 97
set p 21056 1
set p 24832 8 0 0 0 9 0 0 0 1 0 0 0 0 0 0 0 97
set p 21120 1
set p 24896 9 0 0 0 10 0 0 0 1 0 0 0 0 0 0 0 97
set p 21184 1
set p 24960 10 0 0 0 11 0 0 0 1 0 0 0 0 0 0 0 97
set p 21248 1
set p 25024 11 0 0 0 12 0 0 0 1 0 0 0 0 0 0 0 97
set p 21312 1
set p 25088 12 0 0 0 13 0 0 0 1 0 0 0 0 0 0 0 97
set p 21376 1
set p 25152 13 0 0 0 14 0 0 0 1 0 0 0 0 0 0 0 97
set p 21440 1
set p 25216 14 0 0 0 15 0 0 0 1 0 0 0 0 0 0 0 97
set p 21504 1
set p 25280 15 0 0 0 16 0 0 0 1 0 0 0 0 0 0 0 97
set p 21568 1
set p 25344 16 0 0 0 17 0 0 0 1 0 0 0 0 0 0 0 97
set p 21632 1
set p 25408 17 0 0 0 18 0 0 0 1 0 0 0 0 0 0 0 97
set p 21696 1
set p 25472 18 0 0 0 19 0 0 0 1 0 0 0 0 0 0 0 97
set p 21760 1
set p 25536 19 0 0 0 20 0 0 0 1 0 0 0 0 0 0 0 97
set p 21824 1
set p 25600 20 0 0 0 21 0 0 0 1 0 0 0 0 0 0 0 97
tree p = rule 9 at 16
set p 21824 0
set p 25600 0 0 0 0 0 0 0 0 0 0 0 0 0 0 0 0 0
tree p = / dir; /a dir; /a/a dir; /a/a/a dir; /a/a/a/a dir; /a/a/a/a/a dir; /a/a/a/a/a/a dir; /a/a/a/a/a/a/a dir; /a/a/a/a/a/a/a/a dir; /a/a/a/a/a/a/a/a/a dir; /a/a/a/a/a/a/a/a/a/a dir; /a/a/a/a/a/a/a/a/a/a/a dir; /a/a/a/a/a/a/a/a/a/a/a/a dir; /a/a/a/a/a/a/a/a/a/a/a/a/a dir; /a/a/a/a/a/a/a/a/a/a/a/a/a/a dir; /a/a/a/a/a/a/a/a/a/a/a/a/a/a/a dir; /a/a/a/a/a/a/a/a/a/a/a/a/a/a/a/a dir
";

const LIMITS: &str = "\
# An image of each limit: made, shown, run on, kept and shown again.
row images_of_each_limit
file S mkdir /d; open a /d/f wc; rename /d/f /f
# The fewest of all: 1 block 0, 4 of the journal, 1 of inodes, 1 of names, 1 of the log, and 56 more.
mkfs g 64 4 16 16 = 56 data blocks
tree g = / dir
step g S strict keep g = 0.0 mkdir /d = ok; 0.1 open a /d/f wc = fd 0; 0.2 rename /d/f /f = ok; / dir; /d dir; /f file 0
tree g = / dir; /d dir; /f file 0
# The most log lines, 16 blocks of them.
mkfs g 64 1024 16 16 = 41 data blocks
tree g = / dir
step g S strict keep g = 0.0 mkdir /d = ok; 0.1 open a /d/f wc = fd 0; 0.2 rename /d/f /f = ok; / dir; /d dir; /f file 0
tree g = / dir; /d dir; /f file 0
# The most inode lines, 16 blocks of them.
mkfs g 64 4 1024 16 = 41 data blocks
tree g = / dir
step g S strict keep g = 0.0 mkdir /d = ok; 0.1 open a /d/f wc = fd 0; 0.2 rename /d/f /f = ok; / dir; /d dir; /f file 0
tree g = / dir; /d dir; /f file 0
# The most name lines, 64 blocks of them, and the fewest data blocks, 32.
mkfs g 103 4 16 4096 = 32 data blocks
tree g = / dir
step g S strict keep g = 0.0 mkdir /d = ok; 0.1 open a /d/f wc = fd 0; 0.2 rename /d/f /f = ok; / dir; /d dir; /f file 0
tree g = / dir; /d dir; /f file 0
";

#[test]
fn bad_images(rt: HostRuntime) -> Result<(), Fail> {
    assert_sessions(&rt, IMAGES, 1)
}

#[test]
fn each_damaged_field(rt: HostRuntime) -> Result<(), Fail> {
    assert_sessions(&rt, DAMAGES, 1)
}

#[test]
fn images_of_each_limit(rt: HostRuntime) -> Result<(), Fail> {
    assert_sessions(&rt, LIMITS, 1)
}
