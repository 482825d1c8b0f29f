//! Runs on images: what they put, and what is kept of them.
use crate::asserting::assert_sessions;
use std::test::Fail;

const SESSIONS: &str = "\
# Runs on image files, and what is kept of them. `file NAME LINES` gives a file lines, parted by `; `.
# Nodes run out: of 16 inode lines four are staging files', and one is the root's, so that eleven directories can be made.
row images_that_are_kept
mkfs g 64 4 16 16 = 56 data blocks
file S mkdir /a; mkdir /b; mkdir /c; mkdir /d; mkdir /e; mkdir /f; mkdir /g; mkdir /h; mkdir /i; mkdir /j; mkdir /k; mkdir /l
step g S strict = 0.0 mkdir /a = ok; 0.1 mkdir /b = ok; 0.2 mkdir /c = ok; 0.3 mkdir /d = ok; 0.4 mkdir /e = ok; 0.5 mkdir /f = ok; 0.6 mkdir /g = ok; 0.7 mkdir /h = ok; 0.8 mkdir /i = ok; 0.9 mkdir /j = ok; 0.10 mkdir /k = ok; 0.11 mkdir /l = ENOSPC nodes 1 0; / dir; /a dir; /b dir; /c dir; /d dir; /e dir; /f dir; /g dir; /h dir; /i dir; /j dir; /k dir
# Nothing is kept unless a name says so.
tree g = / dir
# Name lines run out: 16 of them, and 32 inode lines.
mkfs n 64 4 32 16 = 56 data blocks
file S mkdir /a; mkdir /b; mkdir /c; mkdir /d; mkdir /e; mkdir /f; mkdir /g; mkdir /h; mkdir /i; mkdir /j; mkdir /k; mkdir /l; mkdir /m; mkdir /n; mkdir /o; mkdir /p; mkdir /q
step n S strict keep m = 0.0 mkdir /a = ok; 0.1 mkdir /b = ok; 0.2 mkdir /c = ok; 0.3 mkdir /d = ok; 0.4 mkdir /e = ok; 0.5 mkdir /f = ok; 0.6 mkdir /g = ok; 0.7 mkdir /h = ok; 0.8 mkdir /i = ok; 0.9 mkdir /j = ok; 0.10 mkdir /k = ok; 0.11 mkdir /l = ok; 0.12 mkdir /m = ok; 0.13 mkdir /n = ok; 0.14 mkdir /o = ok; 0.15 mkdir /p = ok; 0.16 mkdir /q = ENOSPC names 1 0; / dir; /a dir; /b dir; /c dir; /d dir; /e dir; /f dir; /g dir; /h dir; /i dir; /j dir; /k dir; /l dir; /m dir; /n dir; /o dir; /p dir
tree m = / dir; /a dir; /b dir; /c dir; /d dir; /e dir; /f dir; /g dir; /h dir; /i dir; /j dir; /k dir; /l dir; /m dir; /n dir; /o dir; /p dir
tree n = / dir
# One image after another: each run begins with the tree that the one before left. A file that is open at the end has a name.
file S mkdir /d; open a /d/f wc; mkdir /e
step g S strict keep h = 0.0 mkdir /d = ok; 0.1 open a /d/f wc = fd 0; 0.2 mkdir /e = ok; / dir; /d dir; /d/f file 0; /e dir
tree h = / dir; /d dir; /d/f file 0; /e dir
file S mkdir /d; stat /d/f; rename /d /e/d; list /e; unlink /e/d/f; close a
step h S strict keep h = 0.0 mkdir /d = EEXIST; 0.1 stat /d/f = file 0; 0.2 rename /d /e/d = ok; 0.3 list /e = names d; 0.4 unlink /e/d/f = ok; 0.5 close a = EBADF; / dir; /e dir; /e/d dir
tree h = / dir; /e dir; /e/d dir
# The power goes before the first step: the image is kept as it was found.
file S rmdir /e/d
step h S strict stop 0 keep k = / dir; /e dir; /e/d dir
tree k = / dir; /e dir; /e/d dir
step h S strict keep k = 0.0 rmdir /e/d = ok; / dir; /e dir
tree k = / dir; /e dir
tree h = / dir; /e dir; /e/d dir
# The fresh default image is kept too.
file S mkdir /a
step - S strict choose 5 keep k = 0.0 mkdir /a = ok; / dir; /a dir
tree k = / dir; /a dir
# A file with bytes stays.
copy g b
set b 20800 2 0 0 0 1 0 0 0 1 0 0 0 0 0 0 0 0 0 0 0 0 0 0 0 8 0 0 0 1
set b 24576 0 0 0 0 5 0 0 0 1 0 0 0 0 0 0 0 102
set b 32768 0 0 0 0 1 0 0 0 0 0 0 0 0 0 0 0 0 0 0 0 9 0 0 0 1
set b 36864 97
file S mkdir /d; rename /f /d/f; stat /d/f
step b S strict keep b = 0.0 mkdir /d = ok; 0.1 rename /f /d/f = ok; 0.2 stat /d/f = file 1; / dir; /d dir; /d/f file 1 61
tree b = / dir; /d dir; /d/f file 1 61
# Its byte is read: from the offset on, which rises, and from a place; what is behind the end is nothing. A seek counts from
# the start, the offset or the end, and may lead behind it. Two handles of one description share its offset. There is nothing
# that an fsync has to publish. A handle that was not opened to read is none for it.
file S open a /d/f r; read a 9; read a 9; pread a 0 1; pread a 1 5; seek a end 10; read a 1; seek a set 0; read a 0; read a 1; seek a cur -2; dup a b; seek b cur -1; read a 5; fsync a; close a; read a 1; fsync z; pread b 0 3; open c /d/f w; read c 1; seek c end -1; open e /e rwc; read e 7; seek e end 0; fsync e
step b S strict = 0.0 open a /d/f r = fd 0; 0.1 read a 9 = data 61; 0.2 read a 9 = data -; 0.3 pread a 0 1 = data 61; 0.4 pread a 1 5 = data -; 0.5 seek a end 10 = offset 11; 0.6 read a 1 = data -; 0.7 seek a set 0 = offset 0; 0.8 read a 0 = data -; 0.9 read a 1 = data 61; 0.10 seek a cur -2 = EINVAL; 0.11 dup a b = fd 1; 0.12 seek b cur -1 = offset 0; 0.13 read a 5 = data 61; 0.14 fsync a = ok; 0.15 close a = ok; 0.16 read a 1 = EBADF; 0.17 fsync z = EBADF; 0.18 pread b 0 3 = data 61; 0.19 open c /d/f w = fd 0; 0.20 read c 1 = EBADF; 0.21 seek c end -1 = offset 0; 0.22 open e /e rwc = fd 2; 0.23 read e 7 = data -; 0.24 seek e end 0 = offset 0; 0.25 fsync e = ok; / dir; /d dir; /d/f file 1 61; /e file 0
# An entry of a node that is to be made: inode 5 is free with generation 3, and slot 0 has a valid entry of inode 5 and
# generation 4. It is not live, so the image is run; a new lap begins first, so that the file that is made there is empty.
copy g b
set b 20804 3
set b 20544 3 0 0 0 0 0 0 0 0 0 0 0 0 0 0 0 0 0 0 0 0 0 0 0 8 0 0 0 1
set b 32768 0 0 0 0 1 0 0 0 0 0 0 0 0 0 0 0 0 0 0 0 9 0 0 0 1
set b 36864 97
set b 28672 119 228 145 127 1 1 1 0 1 0 0 0 0 0 0 0 1 0 0 0 0 0 0 0 5 0 0 0 4 0 0 0 0 0 0 0 1 0 0 0 0 0 0 0 0 0 0 0 1
file S open a /f wc; stat /f
step b S strict keep b = 0.0 open a /f wc = fd 0; 0.1 stat /f = file 0; / dir; /f file 0
tree b = / dir; /f file 0
# Refusals, by the order of what is tried: the image before the script, and both before the run.
file S frob /a
copy g b
set b 8 9
step b T strict keep k = rule 3 at 0
step z T strict keep k = splitfs: no such file z
step g T strict keep k = splitfs: no such file T
step g S strict keep k = splitfs: bad script: line 1
tree k = / dir; /a dir
";

const SMALL: &str = "\
# Images on which nodes or names run out, worked out by hand from the rules of the calls (docs/CALLS.md). A directory or a
# file that is made takes a node and a name line; nodes are tested first.
#
# 16 inode lines and 16 name lines, the fewest: four inode lines are those of staging files, and one is the root's, so that 11
# nodes can be made. An open file keeps its node without a name. The rows before come first: EEXIST, ENOENT. What is there is
# opened, and is moved, without a node.
row nodes_and_names_run_out
mkfs g 64 4 16 16 = 56 data blocks
file S mkdir /a; mkdir /b; mkdir /c; mkdir /d; mkdir /e; mkdir /f; mkdir /g; mkdir /h; mkdir /i; mkdir /j; open a /k wc; mkdir /l; open b /l wc; mkdir /k; open b /k wcx; open b /l w; mkdir /z/l; open b /z/l wc; unlink /k; mkdir /l; open b /l wc; close a; open b /l wc; mkdir /m; open c /m wc; open c /l wc; rename /l /m; unlink /m; close b; mkdir /n; close c; mkdir /n; open b /o wc; rmdir /n; open b /o wc; mkdir /p
step g S strict keep g = 0.0 mkdir /a = ok; 0.1 mkdir /b = ok; 0.2 mkdir /c = ok; 0.3 mkdir /d = ok; 0.4 mkdir /e = ok; 0.5 mkdir /f = ok; 0.6 mkdir /g = ok; 0.7 mkdir /h = ok; 0.8 mkdir /i = ok; 0.9 mkdir /j = ok; 0.10 open a /k wc = fd 0; 0.11 mkdir /l = ENOSPC nodes 1 0; 0.12 open b /l wc = ENOSPC nodes 1 0; 0.13 mkdir /k = EEXIST; 0.14 open b /k wcx = EEXIST; 0.15 open b /l w = ENOENT; 0.16 mkdir /z/l = ENOENT; 0.17 open b /z/l wc = ENOENT; 0.18 unlink /k = ok; 0.19 mkdir /l = ENOSPC nodes 1 0; 0.20 open b /l wc = ENOSPC nodes 1 0; 0.21 close a = ok; 0.22 open b /l wc = fd 0; 0.23 mkdir /m = ENOSPC nodes 1 0; 0.24 open c /m wc = ENOSPC nodes 1 0; 0.25 open c /l wc = fd 1; 0.26 rename /l /m = ok; 0.27 unlink /m = ok; 0.28 close b = ok; 0.29 mkdir /n = ENOSPC nodes 1 0; 0.30 close c = ok; 0.31 mkdir /n = ok; 0.32 open b /o wc = ENOSPC nodes 1 0; 0.33 rmdir /n = ok; 0.34 open b /o wc = fd 0; 0.35 mkdir /p = ENOSPC nodes 1 0; / dir; /a dir; /b dir; /c dir; /d dir; /e dir; /f dir; /g dir; /h dir; /i dir; /j dir; /o file 0
tree g = / dir; /a dir; /b dir; /c dir; /d dir; /e dir; /f dir; /g dir; /h dir; /i dir; /j dir; /o file 0
# The file /o is open when the power goes, and keeps its node, since it has a name. The last inode line is given back and taken again.
file S mkdir /p; open a /p wc; stat /p; unlink /o; mkdir /p; mkdir /q; rmdir /p; open a /q wc; open b /r wc; unlink /q; open b /r wc
step g S strict keep g = 0.0 mkdir /p = ENOSPC nodes 1 0; 0.1 open a /p wc = ENOSPC nodes 1 0; 0.2 stat /p = ENOENT; 0.3 unlink /o = ok; 0.4 mkdir /p = ok; 0.5 mkdir /q = ENOSPC nodes 1 0; 0.6 rmdir /p = ok; 0.7 open a /q wc = fd 0; 0.8 open b /r wc = ENOSPC nodes 1 0; 0.9 unlink /q = ok; 0.10 open b /r wc = ENOSPC nodes 1 0; / dir; /a dir; /b dir; /c dir; /d dir; /e dir; /f dir; /g dir; /h dir; /i dir; /j dir
# The file /q had no name when the power went: its node is free.
file S open b /r wc; open c /s wc; rename /r /s; open c /s wc
step g S strict keep g = 0.0 open b /r wc = fd 0; 0.1 open c /s wc = ENOSPC nodes 1 0; 0.2 rename /r /s = ok; 0.3 open c /s wc = fd 1; / dir; /a dir; /b dir; /c dir; /d dir; /e dir; /f dir; /g dir; /h dir; /i dir; /j dir; /s file 0
tree g = / dir; /a dir; /b dir; /c dir; /d dir; /e dir; /f dir; /g dir; /h dir; /i dir; /j dir; /s file 0
# 16 name lines, and 22 inode lines: 17 nodes can be made, so that names run out before nodes, by mkdir and by open alike. A
# rename takes no name line, and one onto a file gives one back. An unlink gives the name line back at once, and the node with
# the last descriptor.
mkfs n 64 4 22 16 = 56 data blocks
file S mkdir /a; mkdir /b; mkdir /c; mkdir /d; mkdir /e; mkdir /f; mkdir /g; mkdir /h; mkdir /i; mkdir /j; mkdir /k; mkdir /l; mkdir /m; mkdir /n; open a /o wc; open b /p wc; mkdir /q; open c /q wc; rename /p /q; mkdir /r; unlink /q; open c /q wc; mkdir /r; open d /r wc; close b; mkdir /r; open d /r wc; rename /o /q; mkdir /r; close a; mkdir /s; close c; mkdir /s
step n S strict keep n = 0.0 mkdir /a = ok; 0.1 mkdir /b = ok; 0.2 mkdir /c = ok; 0.3 mkdir /d = ok; 0.4 mkdir /e = ok; 0.5 mkdir /f = ok; 0.6 mkdir /g = ok; 0.7 mkdir /h = ok; 0.8 mkdir /i = ok; 0.9 mkdir /j = ok; 0.10 mkdir /k = ok; 0.11 mkdir /l = ok; 0.12 mkdir /m = ok; 0.13 mkdir /n = ok; 0.14 open a /o wc = fd 0; 0.15 open b /p wc = fd 1; 0.16 mkdir /q = ENOSPC names 1 0; 0.17 open c /q wc = ENOSPC names 1 0; 0.18 rename /p /q = ok; 0.19 mkdir /r = ENOSPC names 1 0; 0.20 unlink /q = ok; 0.21 open c /q wc = fd 2; 0.22 mkdir /r = ENOSPC nodes 1 0; 0.23 open d /r wc = ENOSPC nodes 1 0; 0.24 close b = ok; 0.25 mkdir /r = ENOSPC names 1 0; 0.26 open d /r wc = ENOSPC names 1 0; 0.27 rename /o /q = ok; 0.28 mkdir /r = ok; 0.29 close a = ok; 0.30 mkdir /s = ENOSPC nodes 1 0; 0.31 close c = ok; 0.32 mkdir /s = ENOSPC names 1 0; / dir; /a dir; /b dir; /c dir; /d dir; /e dir; /f dir; /g dir; /h dir; /i dir; /j dir; /k dir; /l dir; /m dir; /n dir; /q file 0; /r dir
tree n = / dir; /a dir; /b dir; /c dir; /d dir; /e dir; /f dir; /g dir; /h dir; /i dir; /j dir; /k dir; /l dir; /m dir; /n dir; /q file 0; /r dir
# 21 inode lines and 16 name lines: both run out at once, and nodes are told.
mkfs o 64 4 21 16 = 56 data blocks
file S mkdir /a; mkdir /b; mkdir /c; mkdir /d; mkdir /e; mkdir /f; mkdir /g; mkdir /h; mkdir /i; mkdir /j; mkdir /k; mkdir /l; mkdir /m; mkdir /n; mkdir /o; open a /p wc; mkdir /q; unlink /p; mkdir /q; close a; mkdir /q; mkdir /r
step o S strict = 0.0 mkdir /a = ok; 0.1 mkdir /b = ok; 0.2 mkdir /c = ok; 0.3 mkdir /d = ok; 0.4 mkdir /e = ok; 0.5 mkdir /f = ok; 0.6 mkdir /g = ok; 0.7 mkdir /h = ok; 0.8 mkdir /i = ok; 0.9 mkdir /j = ok; 0.10 mkdir /k = ok; 0.11 mkdir /l = ok; 0.12 mkdir /m = ok; 0.13 mkdir /n = ok; 0.14 mkdir /o = ok; 0.15 open a /p wc = fd 0; 0.16 mkdir /q = ENOSPC nodes 1 0; 0.17 unlink /p = ok; 0.18 mkdir /q = ENOSPC nodes 1 0; 0.19 close a = ok; 0.20 mkdir /q = ok; 0.21 mkdir /r = ENOSPC nodes 1 0; / dir; /a dir; /b dir; /c dir; /d dir; /e dir; /f dir; /g dir; /h dir; /i dir; /j dir; /k dir; /l dir; /m dir; /n dir; /o dir; /q dir
";

const REFUSALS: &str = "\
# What files and a sink that fail at a call leave. `failing FILES PUTS WORDS`: the calls of these numbers fail, over a file
# `S` alone.
row statuses_of_refusals
file S mkdir /a
# A wrong word is told before a file is read.
failing 0 - step - S = splitfs: usage; S is kept, 9 bytes
failing 0 - step - S strict = splitfs: read failed; S is kept, 9 bytes
failing - 0 step - S strict = splitfs: write failed; S is kept, 9 bytes
# The output is put by one call: the puts behind it are never made.
failing - 1,2,3 step - S strict = 0.0 mkdir /a = ok; / dir; /a dir; S is kept, 9 bytes
# Call 0 reads the script, and call 1 replaces the image that is kept, here in the place of the script.
failing 1 - step - S strict keep S = splitfs: write failed; S is kept, 9 bytes
failing - 0 step - S strict keep S = splitfs: write failed; S is replaced, 1048576 bytes
# The image is replaced before the output is put.
failing 0 - mkfs S 64 4 16 16 = splitfs: write failed; S is kept, 9 bytes
failing - 0 mkfs S 64 4 16 16 = splitfs: write failed; S is replaced, 262144 bytes
failing 0 - tree S = splitfs: read failed; S is kept, 9 bytes
failing 1 - tree S = splitfs: bad image: rule 1 at 9; S is kept, 9 bytes
failing 1 - step S S strict = splitfs: bad image: rule 1 at 9; S is kept, 9 bytes
failing 0 0 tree - = splitfs: write failed; S is kept, 9 bytes
";

const CHOICES: &str = "\
# A script with nothing in it.
row choices_of_words
file S
step - S strict = / dir
# A file outlives its last name while it is open.
file S mkdir /d; open a /d/f rwc; dup a b; close a; rename /d/f /d/g; stat /d/g; unlink /d/g; list /d; close b; rmdir /d; mkdir /e
step - S strict = 0.0 mkdir /d = ok; 0.1 open a /d/f rwc = fd 0; 0.2 dup a b = fd 1; 0.3 close a = ok; 0.4 rename /d/f /d/g = ok; 0.5 stat /d/g = file 0; 0.6 unlink /d/g = ok; 0.7 list /d = names; 0.8 close b = ok; 0.9 rmdir /d = ok; 0.10 mkdir /e = ok; / dir; /e dir
# Step 24 of a run stores the commit word of its first mkdir, word 8 of the image, the one word with two candidates then:
# whether it is found decides. The first draw of SplitMix64 from 0 is odd, 0xe220a8397b1dcdaf; from 2 it is even.
file S mkdir /a; mkdir /b; mkdir /a
step - S strict stop 24 = / dir
step - S strict stop 24 choose oldest = / dir
step - S strict stop 24 choose newest = / dir; /a dir
step - S strict stop 24 choose even = / dir; /a dir
step - S strict stop 24 choose odd = / dir
step - S strict stop 24 choose 0 = / dir; /a dir
step - S strict stop 24 choose 2 = / dir
# A power that ends with the very last step is lost at the return: the call is unfinished.
file S mkdir /a
step - S strict stop 0 = / dir
step - S strict stop 48 = / dir; /a dir
step - S strict stop 49 = 0.0 mkdir /a = ok; / dir; /a dir
# A word that no command has.
file S mkdir /a; frob /a
step - S strict = splitfs: bad script: line 2
# Several words with two candidates at once: at step 20 those of the records of the first mkdir, in rising order words 512 (the
# target of record 0), 520 to 527 (its new words), 528 (the target of record 1, 384: name line 0) and 536 to 543, of which 536 (the
# child 5), 537 (the length 1) and 538 (the name `a`) are not zero. So draws 9, 10, 11 and 12 decide what record 1 is found as. No
# commit word counts it; in the image that is kept the next lap of the log is record 0, and record 1 is as it was found. The damage
# makes both count, and inode line 5 the directory that record 1 would name: without the target rule 11, with the target alone a
# directory without a name, with some of the three a bad line, and with all of them the tree.
#
# Draws 9 to 12 of SplitMix64 from 0 are even, odd, even, odd; from 5 odd, odd, even, odd; from 9 odd, even, odd, odd; from 10 odd,
# even, even, even; from 54 odd, odd, odd, odd; from 10^18 - 1 even, odd, even, odd.
mkfs g 64 4 16 16 = 56 data blocks
file S mkdir /a; mkdir /b
step g S strict stop 20 choose 0 keep k = / dir
damage k 64 2 ; 20800 1 0 0 0 1 = rule 11 at 1
step g S strict stop 20 choose 5 keep k = / dir
damage k 64 2 ; 20800 1 0 0 0 1 = rule 6 at 0
step g S strict stop 20 choose 9 keep k = / dir
damage k 64 2 ; 20800 1 0 0 0 1 = rule 6 at 0
step g S strict stop 20 choose 10 keep k = / dir
damage k 64 2 ; 20800 1 0 0 0 1 = rule 9 at 16
step g S strict stop 20 choose 54 keep k = / dir
damage k 64 2 ; 20800 1 0 0 0 1 = / dir; /a dir
step g S strict stop 20 choose 999999999999999999 keep k = / dir
damage k 64 2 ; 20800 1 0 0 0 1 = rule 11 at 1
# The same by the other choices: words 528, 536 and 538 are even, 537 is odd.
step g S strict stop 20 choose oldest keep k = / dir
damage k 64 2 ; 20800 1 0 0 0 1 = rule 11 at 1
step g S strict stop 20 choose newest keep k = / dir
damage k 64 2 ; 20800 1 0 0 0 1 = / dir; /a dir
step g S strict stop 20 choose even keep k = / dir
damage k 64 2 ; 20800 1 0 0 0 1 = rule 6 at 0
step g S strict stop 20 choose odd keep k = / dir
damage k 64 2 ; 20800 1 0 0 0 1 = rule 11 at 1
# A flush takes no candidate away, and the fence, step 23, does: then no word has a draw. At step 12 the target alone was stored.
step g S strict stop 22 choose 0 keep k = / dir
damage k 64 2 ; 20800 1 0 0 0 1 = rule 11 at 1
step g S strict stop 23 choose 0 keep k = / dir
damage k 64 2 ; 20800 1 0 0 0 1 = / dir; /a dir
step g S strict stop 12 choose 54 keep k = / dir
damage k 64 2 ; 20800 1 0 0 0 1 = rule 9 at 16
# Step 72 stores the commit word of the second mkdir, which has the first draw again: it is even from 4 and odd from 7.
step g S strict stop 72 choose 4 = 0.0 mkdir /a = ok; / dir; /a dir
step g S strict stop 72 choose 7 = 0.0 mkdir /a = ok; / dir; /a dir; /b dir
";

#[test]
fn images_that_are_kept(rt: HostRuntime) -> Result<(), Fail> {
    assert_sessions(&rt, SESSIONS, 1)
}

#[test]
fn nodes_and_names_run_out(rt: HostRuntime) -> Result<(), Fail> {
    assert_sessions(&rt, SMALL, 1)
}

#[test]
fn statuses_of_refusals(rt: HostRuntime) -> Result<(), Fail> {
    assert_sessions(&rt, REFUSALS, 1)
}

#[test]
fn choices_of_words(rt: HostRuntime) -> Result<(), Fail> {
    assert_sessions(&rt, CHOICES, 1)
}
