//! Sequences that were worked by hand.
use crate::cases::assert_told;
use std::test::Fail;

const WORKED: &str = "\
# Histories that were worked by hand, with the trees that they leave.
row worked_1
mkdir /a = ok
tree = / dir; /a dir

row worked_2
mkdir /a = ok
mkdir /a = EEXIST
tree = / dir; /a dir

row worked_3
open a /f rwc = fd 0
write a 6869 = count 2
seek a set 0 = offset 0
read a 9 = data 6869
tree = / dir; /f file 2 6869

row worked_4
s: open x /x wc = fd 0
s: open y /y wc = fd 1
1: write y 62 = count 1
tree = / dir; /x file 0; /y file 1 62

row worked_5
open a /f rwc = fd 0
unlink /f = ok
write a 6869 = count 2
pread a 0 9 = data 6869
tree = / dir

row worked_6
s: open f /f wc = fd 0
s: write f 61 = count 1
s: open g /g wc = fd 1
s: write g 62 = count 1
write f 63 = count 1
1: rename /g /f = ok
tree = / dir; /f file 1 62

row worked_7
open a /f rwc = fd 0
write a 61*5000 = count 5000
truncate a 10 = ok
truncate a 5000 = ok
stat /f = file 5000
pread a 0 12 = data 616161616161616161610000
pread a 10 9999 = data 00*4990

row worked_8
open a /f rwc = fd 0
write a 61*8192 = count 8192
pwrite a 4095 6262 = count 2
pread a 4094 4 = data 61626261

row worked_9
mkdir /a = ok
mkdir /a/b = ok
rename /a /a/b/c = EINVAL
rename /a/b /x = ok
rmdir /a = ok
list / = names x
tree = / dir; /x dir

row worked_10
open a /f wc = fd 0
close a = ok
tree = / dir; /f file 0

row worked_11
mkdir /a = ok
open f /a! wc = fd 0
open g /a/b wc = fd 1
write g 62 = count 1
mkdir /a-c = ok
tree = / dir; /a dir; /a! file 0; /a-c dir; /a/b file 1 62
list / = names a a! a-c
";

const OWN: &str = "\
# Worked by hand, where this project chooses, or POSIX or Linux leaves a choice or says otherwise: the
# rows on the root, EPERM for unlink of a directory, EISDIR for each open of one, EBADF for truncate
# without write access, a pwrite at its own place also after a, the limits, handles, and which error
# comes where several fit.
row own_1
mkdir / = EEXIST
rmdir / = EBUSY
unlink / = EPERM
mkdir /a = ok
rename / /b = EBUSY
rename /a / = EBUSY
rename / / = EBUSY
open h / r = EISDIR
open h / rwc = EISDIR
open h / rwcx = EEXIST
stat / = dir
list / = names a
rmdir / = EBUSY

row own_2
mkdir /d = ok
unlink /d = EPERM
open h /d r = EISDIR
stat /d = dir

row own_3
open a /f rwc = fd 0
write a 616263 = count 3
open b /f r = fd 1
truncate b 0 = EBADF
fsync b = ok
stat /f = file 3

row own_4
open a /f rwc = fd 0
rename /missing /f/x = ENOENT
rename /f/x /missing/y = ENOTDIR
rename /missing/x /nnnnnnnnnnnnnnnnnnnnnnnnnnnnnnnnnnnnnnnnnnnnnnnnn = ENAMETOOLONG

row own_5
mkdir /nnnnnnnnnnnnnnnnnnnnnnnnnnnnnnnnnnnnnnnnnnnnnnnn = ok
mkdir /nnnnnnnnnnnnnnnnnnnnnnnnnnnnnnnnnnnnnnnnnnnnnnnnn = ENAMETOOLONG
stat /nnnnnnnnnnnnnnnnnnnnnnnnnnnnnnnnnnnnnnnnnnnnnnnnn = ENAMETOOLONG
rmdir /nnnnnnnnnnnnnnnnnnnnnnnnnnnnnnnnnnnnnnnnnnnnnnnnn/x = ENAMETOOLONG
unlink /x/nnnnnnnnnnnnnnnnnnnnnnnnnnnnnnnnnnnnnnnnnnnnnnnnn = ENAMETOOLONG
open h /nnnnnnnnnnnnnnnnnnnnnnnnnnnnnnnnnnnnnnnnnnnnnnnnn wc = ENAMETOOLONG
list /nnnnnnnnnnnnnnnnnnnnnnnnnnnnnnnnnnnnnnnnnnnnnnnnn = ENAMETOOLONG
rename /nnnnnnnnnnnnnnnnnnnnnnnnnnnnnnnnnnnnnnnnnnnnnnnn /nnnnnnnnnnnnnnnnnnnnnnnnnnnnnnnnnnnnnnnnnnnnnnnnn = ENAMETOOLONG
rename /nnnnnnnnnnnnnnnnnnnnnnnnnnnnnnnnnnnnnnnnnnnnnnnnn /x = ENAMETOOLONG
list / = names nnnnnnnnnnnnnnnnnnnnnnnnnnnnnnnnnnnnnnnnnnnnnnnn

row own_6
stat /a/a/a/a/a/a/a/a/a/a/a/a/a/a/a/a = ENOENT
stat /a/a/a/a/a/a/a/a/a/a/a/a/a/a/a/a/a = ENAMETOOLONG
mkdir /a/a/a/a/a/a/a/a/a/a/a/a/a/a/a/a/a = ENAMETOOLONG
rename /a/a/a/a/a/a/a/a/a/a/a/a/a/a/a/a/a / = EBUSY
rename /a/a/a/a/a/a/a/a/a/a/a/a/a/a/a/a/a /x = ENAMETOOLONG

row own_7
open a /f rwac = fd 0
write a 616263 = count 3
pwrite a 1 58 = count 1
pread a 0 9 = data 615863
seek a cur 0 = offset 3

row own_8
open a /f rwc = fd 0
seek a set 999999999999999999 = offset 999999999999999999
seek a cur 1 = EINVAL
seek a cur 0 = offset 999999999999999999
read a 9 = data -
write a 61 = EFBIG
write a - = count 0
seek a set 16777216 = offset 16777216
write a 61 = EFBIG
pwrite a 16777215 6161 = EFBIG
pwrite a 999999999999999999 61 = EFBIG
truncate a 16777217 = EFBIG
truncate a 16777216 = ENOSPC blocks 4113 243
stat /f = file 0

row own_9
open a /f rwc = fd 0
open b /f r = fd 1
write b 61*131073 = EBADF
write a 61*131073 = EINVAL
pwrite a 999999999999999999 61*131073 = EINVAL
write b - = EBADF
write a 61*131072 = count 131072

row own_10
s: open h /f rwc = fd 0
write h 61 = count 1
1: write h 62 = count 1
1: open h /g rwc = fd 1
1: write h 63 = count 1
pread h 0 9 = data 6162
1: pread h 0 9 = data 63
1: close h = ok
1: pread h 0 9 = data 6162
close h = ok
1: read h 1 = EBADF
s: read h 1 = EBADF

row own_11
1: open k /k wc = fd 0
s: fsync k = EBADF
fsync k = EBADF
2: dup k j = EBADF
1: fsync k = ok

row own_12
s: open h /f rwc = fd 0
1: dup h h = fd 1
1: close h = ok
1: close h = ok
1: close h = EBADF

row own_13
open h /f rwc = fd 0
open h /g rwc = fd 1
write h 61 = count 1
stat /g = file 1
stat /f = file 0
close h = ok
write h 61 = EBADF
open i /g rwc = fd 1

row own_14
open h /f rwc = fd 0
dup h h = fd 1
close h = ok
close h = EBADF
open i /f r = fd 1

row own_15
mkdir /a = ok
mkdir /a/a = ok
mkdir /a/a/a = ok
mkdir /a/a/a/a = ok
mkdir /a/a/a/a/a = ok
mkdir /a/a/a/a/a/a = ok
mkdir /a/a/a/a/a/a/a = ok
mkdir /a/a/a/a/a/a/a/a = ok
mkdir /a/a/a/a/a/a/a/a/a = ok
mkdir /a/a/a/a/a/a/a/a/a/a = ok
mkdir /a/a/a/a/a/a/a/a/a/a/a = ok
mkdir /a/a/a/a/a/a/a/a/a/a/a/a = ok
mkdir /a/a/a/a/a/a/a/a/a/a/a/a/a = ok
mkdir /a/a/a/a/a/a/a/a/a/a/a/a/a/a = ok
mkdir /a/a/a/a/a/a/a/a/a/a/a/a/a/a/a = ok
mkdir /b = ok
mkdir /b/c = ok
rename /b /a/a/a/a/a/a/a/a/a/a/a/a/a/a/a/b = ENAMETOOLONG
rmdir /b/c = ok
rename /b /a/a/a/a/a/a/a/a/a/a/a/a/a/a/a/b = ok
stat /a/a/a/a/a/a/a/a/a/a/a/a/a/a/a/b = dir
mkdir /a/a/a/a/a/a/a/a/a/a/a/a/a/a/a/b/c = ENAMETOOLONG
";

const ROOM: &str = "\
# Worked by hand from the formulas of the room: data blocks, nodes, name lines and descriptors.
row room_1
shape 56 12 16
open a /f wc = fd 0
write a 78*131072 = count 131072
write a 78*131072 = ENOSPC blocks 32 19
tree = / dir; /f file 131072 78*131072
pwrite a 0 61*81920 = ENOSPC blocks 20 19
pwrite a 0 61*77824 = count 77824

row room_2
shape 56 12 16
mode sync
open a /f wc = fd 0
write a 78*131072 = count 131072
write a 78*131072 = ENOSPC blocks 32 19
pwrite a 0 61*81920 = count 81920

row room_3
shape 56 12 16
mode posix
open a /f wc = fd 0
write a 78*131072 = count 131072
pwrite a 65536 61*131072 = count 131072
pwrite a 65536 61*131072 = count 131072
write a 61*131072 = ENOSPC blocks 16 3
truncate a 208897 = ENOSPC blocks 4 3
truncate a 208896 = ok
truncate a 0 = ok
truncate a 208896 = ok

row room_4
shape 262 12 16
mode posix
open a /f rwc = fd 0
truncate a 1044480 = ok
truncate a 1044481 = ENOSPC blocks 2 1
pwrite a 1044480 61 = ENOSPC blocks 2 1
truncate a 1 = ok
truncate a 1044480 = ok

row room_5
shape 56 12 16
open a /f wc = fd 0
write a 78*131072 = count 131072
unlink /f = ok
open b /g wc = fd 1
write b 78*131072 = ENOSPC blocks 33 19
close a = ok
write b 78*131072 = count 131072

row room_6
shape 56 2 16
open a /f wc = fd 0
unlink /f = ok
mkdir /d = ENOSPC nodes 1 0
open b /g wc = ENOSPC nodes 1 0
close a = ok
mkdir /d = ok

row room_7
shape 56 12 16
mkdir /a = ok
mkdir /b = ok
mkdir /c = ok
mkdir /d = ok
mkdir /e = ok
mkdir /f = ok
mkdir /g = ok
mkdir /h = ok
mkdir /i = ok
mkdir /j = ok
mkdir /k = ok
mkdir /l = ENOSPC nodes 1 0
rmdir /a = ok
mkdir /l = ok

row room_8
shape 56 28 16
mkdir /a = ok
mkdir /b = ok
mkdir /c = ok
mkdir /d = ok
mkdir /e = ok
mkdir /f = ok
mkdir /g = ok
mkdir /h = ok
mkdir /i = ok
mkdir /j = ok
mkdir /k = ok
mkdir /l = ok
mkdir /m = ok
mkdir /n = ok
mkdir /o = ok
mkdir /p = ok
mkdir /q = ENOSPC names 1 0
open h /q wc = ENOSPC names 1 0
rename /a /q = ok

row room_9
mkdir /d0 = ok
mkdir /d1 = ok
mkdir /d2 = ok
mkdir /d3 = ok
mkdir /d4 = ok
mkdir /d5 = ok
mkdir /d6 = ok
mkdir /d7 = ok
mkdir /d8 = ok
mkdir /d9 = ok
mkdir /d10 = ok
mkdir /d11 = ok
mkdir /d12 = ok
mkdir /d13 = ok
mkdir /d14 = ok
mkdir /d15 = ok
mkdir /d16 = ok
mkdir /d17 = ok
mkdir /d18 = ok
mkdir /d19 = ok
mkdir /d20 = ok
mkdir /d21 = ok
mkdir /d22 = ok
mkdir /d23 = ok
mkdir /d24 = ok
mkdir /d25 = ok
mkdir /d26 = ok
mkdir /d27 = ok
mkdir /d28 = ok
mkdir /d29 = ok
mkdir /d30 = ok
mkdir /d31 = ok
mkdir /d32 = ok
mkdir /d33 = ok
mkdir /d34 = ok
mkdir /d35 = ok
mkdir /d36 = ok
mkdir /d37 = ok
mkdir /d38 = ok
mkdir /d39 = ok
mkdir /d40 = ok
mkdir /d41 = ok
mkdir /d42 = ok
mkdir /d43 = ok
mkdir /d44 = ok
mkdir /d45 = ok
mkdir /d46 = ok
mkdir /d47 = ok
mkdir /d48 = ok
mkdir /d49 = ok
mkdir /d50 = ok
mkdir /d51 = ok
mkdir /d52 = ok
mkdir /d53 = ok
mkdir /d54 = ok
mkdir /d55 = ok
mkdir /d56 = ok
mkdir /d57 = ok
mkdir /d58 = ok
mkdir /d59 = ENOSPC nodes 1 0

row room_10
open h0 /f rwc = fd 0
open h1 /f rwc = fd 1
open h2 /f rwc = fd 2
open h3 /f rwc = fd 3
open h4 /f rwc = fd 4
open h5 /f rwc = fd 5
open h6 /f rwc = fd 6
open h7 /f rwc = fd 7
open h8 /f rwc = fd 8
open h9 /f rwc = fd 9
open h10 /f rwc = fd 10
open h11 /f rwc = fd 11
open h12 /f rwc = fd 12
open h13 /f rwc = fd 13
open h14 /f rwc = fd 14
open h15 /f rwc = fd 15
open h16 /f rwc = fd 16
open h17 /f rwc = fd 17
open h18 /f rwc = fd 18
open h19 /f rwc = fd 19
open h20 /f rwc = fd 20
open h21 /f rwc = fd 21
open h22 /f rwc = fd 22
open h23 /f rwc = fd 23
open h24 /f rwc = fd 24
open h25 /f rwc = fd 25
open h26 /f rwc = fd 26
open h27 /f rwc = fd 27
open h28 /f rwc = fd 28
open h29 /f rwc = fd 29
open h30 /f rwc = fd 30
open h31 /f rwc = fd 31
open h32 /f rwc = fd 32
open h33 /f rwc = fd 33
open h34 /f rwc = fd 34
open h35 /f rwc = fd 35
open h36 /f rwc = fd 36
open h37 /f rwc = fd 37
open h38 /f rwc = fd 38
open h39 /f rwc = fd 39
open h40 /f rwc = fd 40
open h41 /f rwc = fd 41
open h42 /f rwc = fd 42
open h43 /f rwc = fd 43
open h44 /f rwc = fd 44
open h45 /f rwc = fd 45
open h46 /f rwc = fd 46
open h47 /f rwc = fd 47
open h48 /f rwc = fd 48
open h49 /f rwc = fd 49
open h50 /f rwc = fd 50
open h51 /f rwc = fd 51
open h52 /f rwc = fd 52
open h53 /f rwc = fd 53
open h54 /f rwc = fd 54
open h55 /f rwc = fd 55
open h56 /f rwc = fd 56
open h57 /f rwc = fd 57
open h58 /f rwc = fd 58
open h59 /f rwc = fd 59
open h60 /f rwc = fd 60
open h61 /f rwc = fd 61
open h62 /f rwc = fd 62
open h63 /f rwc = fd 63
read b 1 = EBADF
open a /f rwc = EMFILE
open a /g rwc = EMFILE
dup h0 a = EMFILE
dup b a = EBADF
truncate h0 16777217 = EFBIG
write h0 61*131073 = EINVAL
seek h0 cur -1 = EINVAL
close h7 = ok
open a /f rwc = fd 7
";

const SPELLED: &str = "\
# Each part of a printed line, spelled by hand: names, handles of eight bytes, flags in their order, data of both kinds, and numbers.
row lines_of_histories
s: open abcdefg8 /~! rwacx = fd 0
s: write abcdefg8 0009109abcdef0 = count 7
1: write abcdefg8 ff*11 = count 11
2: dup abcdefg8 n2 = fd 1
2: write n2 6161616161616161 = count 8
2: write n2 61*9 = count 9
2: write n2 616161616161616162 = count 9
2: write n2 - = count 0
2: pread n2 0 65536 = data 0009109abcdef0+ff*11+61*25+62
2: seek n2 end -1 = offset 43
2: seek n2 cur -43 = offset 0
2: read n2 7 = data 0009109abcdef0
2: read n2 9 = data ff*9
2: read n2 0 = data -
2: close n2 = ok
stat /~! = file 44
list / = names ~!
open h /~! wt = fd 1
list /~! = ENOTDIR
stat /~! = file 0
tree = / dir; /~! file 0

# A byte of a name below that of the slash stands first.
row paths_in_byte_order
mkdir /a = ok
list /a = names
open b /a/b wac = fd 0
open c /a! wc = fd 1
list / = names a a!
tree = / dir; /a dir; /a! file 0; /a/b file 0
";

#[test]
fn worked_by_hand(rt: HostRuntime) -> Result<(), Fail> {
    assert_told(&rt, WORKED, 11)
}

#[test]
fn where_this_project_chooses(rt: HostRuntime) -> Result<(), Fail> {
    assert_told(&rt, OWN, 15)
}

#[test]
fn room_runs_out(rt: HostRuntime) -> Result<(), Fail> {
    assert_told(&rt, ROOM, 10)
}

#[test]
fn printed_lines(rt: HostRuntime) -> Result<(), Fail> {
    assert_told(&rt, SPELLED, 2)
}
