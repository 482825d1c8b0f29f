//! Sequences that Linux answered.
use crate::cases::assert_told;
use std::test::Fail;

const LINUX: &str = "\
# One hundred sequences that Linux 6.18 answered: each was run in a fresh directory of an ext4 file
# system by mkdir(2), rename(2), open(2) and so on, as root, and descriptors are counted from the
# lowest that the sequence opened.
row linux_1
mkdir /a = ok
stat /a = dir
list / = names a

row linux_2
mkdir /a = ok
mkdir /a = EEXIST

row linux_3
mkdir /a/b = ENOENT

row linux_4
open h /f rwc = fd 0
mkdir /f = EEXIST

row linux_5
open h /f rwc = fd 0
mkdir /f/d = ENOTDIR

row linux_6
open h /f rwc = fd 0
stat /f/x = ENOTDIR

row linux_7
mkdir /a = ok
mkdir /a/b = ok
mkdir /a/b/c = ok
list /a = names b
list /a/b = names c

row linux_8
rmdir /a = ENOENT

row linux_9
mkdir /a = ok
rmdir /a = ok
rmdir /a = ENOENT

row linux_10
mkdir /a = ok
mkdir /a/b = ok
rmdir /a = ENOTEMPTY
rmdir /a/b = ok
rmdir /a = ok

row linux_11
open h /f rwc = fd 0
rmdir /f = ENOTDIR

row linux_12
mkdir /a = ok
open h /a/f rwc = fd 0
rmdir /a = ENOTEMPTY
unlink /a/f = ok
rmdir /a = ok

row linux_13
rmdir /a/b = ENOENT

row linux_14
open h /f rwc = fd 0
rmdir /f/a = ENOTDIR

row linux_15
unlink /f = ENOENT

row linux_16
open h /f rwc = fd 0
unlink /f = ok
unlink /f = ENOENT
stat /f = ENOENT

row linux_17
unlink /a/f = ENOENT

row linux_18
open h /f rwc = fd 0
unlink /f/a = ENOTDIR

row linux_19
open h /f rwc = fd 0
write h 6869 = count 2
unlink /f = ok
pread h 0 9 = data 6869
write h 21 = count 1
pread h 0 9 = data 686921
list / = names

row linux_20
open h /f rwc = fd 0
unlink /f = ok
open g /f rwc = fd 1
write h 61 = count 1
pread g 0 9 = data -
stat /f = file 0

row linux_21
rename /a /b = ENOENT

row linux_22
mkdir /a = ok
rename /a /b = ok
stat /a = ENOENT
stat /b = dir

row linux_23
mkdir /a = ok
rename /a /b/c = ENOENT

row linux_24
mkdir /a = ok
mkdir /b = ok
rename /a /b = ok
list / = names b

row linux_25
mkdir /a = ok
mkdir /b = ok
mkdir /b/c = ok
rename /a /b = ENOTEMPTY

row linux_26
mkdir /a = ok
mkdir /a/b = ok
rename /a /a/b = EINVAL

row linux_27
mkdir /a = ok
rename /a /a/c = EINVAL

row linux_28
mkdir /a = ok
mkdir /a/b = ok
rename /a/b /a = ENOTEMPTY

row linux_29
open f /f rwc = fd 0
rename /f /g = ok
list / = names g

row linux_30
open f /f rwc = fd 0
write f 61 = count 1
open g /g rwc = fd 1
write g 6262 = count 2
rename /f /g = ok
list / = names g
stat /g = file 1
pread g 0 9 = data 6262
pread f 0 9 = data 61

row linux_31
open f /f rwc = fd 0
mkdir /d = ok
rename /d /f = ENOTDIR

row linux_32
open f /f rwc = fd 0
mkdir /d = ok
rename /f /d = EISDIR

row linux_33
open f /f rwc = fd 0
mkdir /d = ok
mkdir /d/e = ok
rename /f /d = EISDIR

row linux_34
open f /f rwc = fd 0
rename /f /f = ok
stat /f = file 0

row linux_35
mkdir /a = ok
rename /a /a = ok
stat /a = dir

row linux_36
open f /f rwc = fd 0
rename /f /x/y = ENOENT

row linux_37
open f /f rwc = fd 0
open g /g rwc = fd 1
rename /f /g/x = ENOTDIR

row linux_38
open f /f rwc = fd 0
rename /f/x /g = ENOTDIR

row linux_39
mkdir /a = ok
mkdir /a/b = ok
rename /a/b /x = ok
rmdir /a = ok
list / = names x

row linux_40
mkdir /a = ok
open f /a/f rwc = fd 0
rename /a /b = ok
stat /b/f = file 0
stat /a/f = ENOENT

row linux_41
mkdir /p = ok
mkdir /p/q = ok
mkdir /p/q/r = ok
mkdir /s = ok
rename /p/q /s/q = ok
list /p = names
list /s = names q
stat /s/q/r = dir

row linux_42
open h /f rw = ENOENT

row linux_43
open h /f w = ENOENT

row linux_44
open h /f rwcx = fd 0
open g /f rwcx = EEXIST

row linux_45
open h /f rwc = fd 0
open g /f rwc = fd 1
write h 616263 = count 3
pread g 0 9 = data 616263

row linux_46
open h /f rwc = fd 0
write h 616263 = count 3
open g /f rwt = fd 1
pread h 0 9 = data -
stat /f = file 0

row linux_47
open h /f rwc = fd 0
write h 616263 = count 3
open g /f rw = fd 1
pread g 0 9 = data 616263

row linux_48
open h /d/f rwc = ENOENT

row linux_49
open h /f rwc = fd 0
open g /f/x rwc = ENOTDIR

row linux_50
mkdir /d = ok
open h /d wc = EISDIR

row linux_51
mkdir /d = ok
open h /d w = EISDIR

row linux_52
mkdir /d = ok
open h /d rwcx = EEXIST

row linux_53
close h = EBADF

row linux_54
open h /f rwc = fd 0
close h = ok
close h = EBADF

row linux_55
open h /f rwc = fd 0
close h = ok
read h 1 = EBADF

row linux_56
open a /f rwc = fd 0
open b /f rwc = fd 1
open c /f rwc = fd 2
close b = ok
open d /f rwc = fd 1
close a = ok
close c = ok
open e /f rwc = fd 0
open f /f rwc = fd 2

row linux_57
open h /f rwc = fd 0
write h 6869 = count 2
close h = ok
open g /f r = fd 0
read g 9 = data 6869
read g 9 = data -

row linux_58
dup a b = EBADF

row linux_59
open a /f rwc = fd 0
dup a b = fd 1
write a 6869 = count 2
write b 21 = count 1
pread a 0 9 = data 686921
seek b cur 0 = offset 3

row linux_60
open a /f rwc = fd 0
dup a b = fd 1
close a = ok
write b 6869 = count 2
pread b 0 9 = data 6869
write a 61 = EBADF

row linux_61
open a /f rwc = fd 0
write a 6869 = count 2
dup a b = fd 1
seek a set 0 = offset 0
read b 1 = data 68
read a 9 = data 69

row linux_62
open a /f wc = fd 0
read a 1 = EBADF

row linux_63
open a /f wc = fd 0
pread a 0 1 = EBADF

row linux_64
open a /f rwc = fd 0
close a = ok
open b /f r = fd 0
write b 61 = EBADF

row linux_65
open a /f rwc = fd 0
close a = ok
open b /f r = fd 0
pwrite b 0 61 = EBADF

row linux_66
open a /f rwc = fd 0
read a 9 = data -

row linux_67
open a /f rwc = fd 0
write a 68656c6c6f = count 5
seek a set 1 = offset 1
read a 3 = data 656c6c
read a 3 = data 6f
read a 3 = data -

row linux_68
open a /f rwc = fd 0
write a 68656c6c6f = count 5
pread a 3 9 = data 6c6f
pread a 5 9 = data -
pread a 99 9 = data -
read a 1 = data -

row linux_69
open a /f rwc = fd 0
write a 68656c6c6f = count 5
seek a set 1 = offset 1
write a 4545 = count 2
pread a 0 9 = data 6845456c6f
seek a cur 0 = offset 3

row linux_70
open a /f rwc = fd 0
write a - = count 0
stat /f = file 0
read a 1 = data -

row linux_71
open a /f rwc = fd 0
seek a set 4 = offset 4
write a 61 = count 1
pread a 0 9 = data 0000000061
stat /f = file 5

row linux_72
open a /f rwc = fd 0
pwrite a 3 6161 = count 2
pread a 0 9 = data 0000006161
seek a cur 0 = offset 0

row linux_73
open a /f rwc = fd 0
write a 616263 = count 3
pwrite a 1 58 = count 1
pread a 0 9 = data 615863
seek a cur 0 = offset 3

row linux_74
open a /f rwac = fd 0
write a 6161 = count 2
seek a set 0 = offset 0
write a 6262 = count 2
pread a 0 9 = data 61616262
seek a cur 0 = offset 4

row linux_75
open a /f rwc = fd 0
write a 6161 = count 2
open b /f wa = fd 1
write b 6262 = count 2
write a 63 = count 1
pread a 0 9 = data 61616362

row linux_76
open a /f rwc = fd 0
seek a set 5 = offset 5
stat /f = file 0
read a 1 = data -

row linux_77
open a /f rwc = fd 0
write a 616263 = count 3
seek a end 0 = offset 3
seek a end -1 = offset 2
seek a cur 1 = offset 3
seek a set 2 = offset 2
seek a end 4 = offset 7

row linux_78
open a /f rwc = fd 0
seek a set -1 = EINVAL

row linux_79
open a /f rwc = fd 0
write a 616263 = count 3
seek a end -4 = EINVAL
seek a cur -4 = EINVAL
seek a cur -3 = offset 0

row linux_80
seek a set 0 = EBADF

row linux_81
open a /f rwc = fd 0
write a 616263 = count 3
truncate a 1 = ok
pread a 0 9 = data 61
seek a cur 0 = offset 3

row linux_82
open a /f rwc = fd 0
write a 616263 = count 3
truncate a 5 = ok
pread a 0 9 = data 6162630000
stat /f = file 5

row linux_83
open a /f rwc = fd 0
write a 616263 = count 3
truncate a 0 = ok
write a 64 = count 1
pread a 0 9 = data 00000064

row linux_84
open a /f rwc = fd 0
write a 616263 = count 3
truncate a 1 = ok
truncate a 3 = ok
pread a 0 9 = data 610000

row linux_85
truncate a 0 = EBADF

row linux_86
open a /f rwc = fd 0
fsync a = ok

row linux_87
fsync a = EBADF

row linux_88
open a /f r = ENOENT

row linux_89
open a /f rwc = fd 0
fsync a = ok
close a = ok
fsync a = EBADF

row linux_90
stat / = dir

row linux_91
stat /a = ENOENT

row linux_92
mkdir /a = ok
stat /a/b = ENOENT

row linux_93
open a /f rwc = fd 0
write a 6869 = count 2
stat /f = file 2

row linux_94
list /a = ENOENT

row linux_95
open a /f rwc = fd 0
list /f = ENOTDIR

row linux_96
mkdir /b = ok
mkdir /a = ok
open f /B wc = fd 0
open g /a-b wc = fd 1
list / = names B a a-b b

row linux_97
list / = names
mkdir /z = ok
mkdir /y = ok
mkdir /x = ok
list / = names x y z
rmdir /y = ok
list / = names x z

row linux_98
mkdir /d = ok
open f /d/f rwc = fd 0
write f 61 = count 1
unlink /d/f = ok
rmdir /d = ok
pread f 0 9 = data 61
close f = ok
list / = names

row linux_99
open a /f rwc = fd 0
open a /g rwc = fd 1
close a = ok
close a = EBADF

row linux_100
open f /f rwc = fd 0
write f 616263 = count 3
open g /g rwc = fd 1
rename /g /f = ok
pread f 0 9 = data 616263
stat /f = file 0
write f 64 = count 1
pread f 0 9 = data 61626364
stat /f = file 0
";

#[test]
fn answered_by_linux(rt: HostRuntime) -> Result<(), Fail> {
    assert_told(&rt, LINUX, 100)
}
