//! Names that are changed, and their limits.
use crate::asserting::assert_losses;
use std::test::Fail;

const CHANGES: &str = "\
# Worked by hand from the rows of the calls.
# Below itself, and away.
row directories_below_one_another
mkdir /a = ok
mkdir /a/b = ok
mkdir /a/b/c = ok
rename /a /a/d = EINVAL
rename /a /a/b/c/d = EINVAL
rename /a /a = ok
rename /a/b/c /d = ok
rename /d /a/d = ok
rename /a/b /e = ok
tree = / dir; /a dir; /a/d dir; /e dir
rename /e /a/d/e = ok
tree = / dir; /a dir; /a/d dir; /a/d/e dir
rename /x /y = ENOENT
rename /a /x/y = ENOENT
rename / /x = EBUSY

# Over a file, and over directories.
row renames_over_files_and_directories
open h /a wcx = fd 0
close h = ok
open h /b wcx = fd 0
close h = ok
mkdir /d = ok
mkdir /e = ok
open h /e/f wcx = fd 0
close h = ok
rename /a /b = ok
tree = / dir; /b file 0; /d dir; /e dir; /e/f file 0
rename /b /d = EISDIR
rename /d /b = ENOTDIR
rename /d /e = ENOTEMPTY
rename /e /d = ok
tree = / dir; /b file 0; /d dir; /d/f file 0
rename /d/f /b = ok
rename /b /b = ok
tree = / dir; /b file 0; /d dir
open h /b wcx = EEXIST
mkdir /b = EEXIST
open h /b/x wcx = ENOTDIR
unlink /d = EPERM
rmdir /b = ENOTDIR
unlink /b = ok
rmdir /d = ok
tree = / dir

# Sixteen names deep, and seventeen.
row paths_of_sixteen_names
mkdir /a = ok
mkdir /a/b = ok
mkdir /a/b/c = ok
mkdir /a/b/c/d = ok
mkdir /a/b/c/d/e = ok
mkdir /a/b/c/d/e/f = ok
mkdir /a/b/c/d/e/f/g = ok
mkdir /a/b/c/d/e/f/g/h = ok
mkdir /a/b/c/d/e/f/g/h/i = ok
mkdir /a/b/c/d/e/f/g/h/i/j = ok
mkdir /a/b/c/d/e/f/g/h/i/j/k = ok
mkdir /a/b/c/d/e/f/g/h/i/j/k/l = ok
mkdir /a/b/c/d/e/f/g/h/i/j/k/l/m = ok
mkdir /a/b/c/d/e/f/g/h/i/j/k/l/m/n = ok
mkdir /a/b/c/d/e/f/g/h/i/j/k/l/m/n/o = ok
mkdir /a/b/c/d/e/f/g/h/i/j/k/l/m/n/o/p = ok
mkdir /a/b/c/d/e/f/g/h/i/j/k/l/m/n/o/p/q = ENAMETOOLONG
open h /a/b/c/d/e/f/g/h/i/j/k/l/m/n/o/p/q wcx = ENAMETOOLONG
mkdir /x = ok
mkdir /x/y = ok
rename /x /a/b/c/d/e/f/g/h/i/j/k/l/m/n/o/x = ENAMETOOLONG
rename /x/y /a/b/c/d/e/f/g/h/i/j/k/l/m/n/o/y = ok
rename /a /x/a = ENAMETOOLONG
rmdir /a/b/c/d/e/f/g/h/i/j/k/l/m/n/o/p = ok
rmdir /a/b/c/d/e/f/g/h/i/j/k/l/m/n/o/y = ok
rename /a /x/a = ok
mkdir /x/a/b/c/d/e/f/g/h/i/j/k/l/m/n/o/p = ENAMETOOLONG
tree = / dir; /x dir; /x/a dir; /x/a/b dir; /x/a/b/c dir; /x/a/b/c/d dir; /x/a/b/c/d/e dir; /x/a/b/c/d/e/f dir; /x/a/b/c/d/e/f/g dir; /x/a/b/c/d/e/f/g/h dir; /x/a/b/c/d/e/f/g/h/i dir; /x/a/b/c/d/e/f/g/h/i/j dir; /x/a/b/c/d/e/f/g/h/i/j/k dir; /x/a/b/c/d/e/f/g/h/i/j/k/l dir; /x/a/b/c/d/e/f/g/h/i/j/k/l/m dir; /x/a/b/c/d/e/f/g/h/i/j/k/l/m/n dir; /x/a/b/c/d/e/f/g/h/i/j/k/l/m/n/o dir

# A name of 48 bytes, and of 49.
row names_of_48_bytes
mkdir /aaaaaaaaaaaaaaaaaaaaaaaaaaaaaaaaaaaaaaaaaaaaaaaa = ok
mkdir /aaaaaaaaaaaaaaaaaaaaaaaaaaaaaaaaaaaaaaaaaaaaaaaaa = ENAMETOOLONG
open h /aaaaaaaaaaaaaaaaaaaaaaaaaaaaaaaaaaaaaaaaaaaaaaaa/aaaaaaaaaaaaaaaaaaaaaaaaaaaaaaaaaaaaaaaaaaaaaaaa wcx = fd 0
close h = ok
rename /aaaaaaaaaaaaaaaaaaaaaaaaaaaaaaaaaaaaaaaaaaaaaaaa/aaaaaaaaaaaaaaaaaaaaaaaaaaaaaaaaaaaaaaaaaaaaaaaa /aaaaaaaaaaaaaaaaaaaaaaaaaaaaaaaaaaaaaaaaaaaaaaaaa = ENAMETOOLONG
rename /aaaaaaaaaaaaaaaaaaaaaaaaaaaaaaaaaaaaaaaaaaaaaaaa/aaaaaaaaaaaaaaaaaaaaaaaaaaaaaaaaaaaaaaaaaaaaaaaa /aaaaaaaaaaaaaaaaaaaaaaaaaaaaaaaaaaaaaaaaaaaaaaab = ok
tree = / dir; /aaaaaaaaaaaaaaaaaaaaaaaaaaaaaaaaaaaaaaaaaaaaaaaa dir; /aaaaaaaaaaaaaaaaaaaaaaaaaaaaaaaaaaaaaaaaaaaaaaab file 0
rmdir /aaaaaaaaaaaaaaaaaaaaaaaaaaaaaaaaaaaaaaaaaaaaaaaaa = ENAMETOOLONG
unlink /aaaaaaaaaaaaaaaaaaaaaaaaaaaaaaaaaaaaaaaaaaaaaaaaa = ENAMETOOLONG

lines a_file_made
open h /# wcx = fd 0
close h = ok

# Name lines used up, and given back: 16 of them.
row name_lines_used_up
image 64 4 64 16
for a b c d e f g h i j k l m n o p: do a_file_made
open h /q wcx = ENOSPC names 1 0
mkdir /q = ENOSPC names 1 0
rename /a /q = ok
rename /q /a = ok
unlink /c = ok
mkdir /q = ok
open h /c wcx = ENOSPC names 1 0
rmdir /q = ok
open h /c wcx = fd 0
close h = ok
tree = / dir; /a file 0; /b file 0; /c file 0; /d file 0; /e file 0; /f file 0; /g file 0; /h file 0; /i file 0; /j file 0; /k file 0; /l file 0; /m file 0; /n file 0; /o file 0; /p file 0

# Nodes used up, and given back: 11 beside the root.
row nodes_used_up
image 64 4 16 64
for a b c d e f g h i j k: mkdir /# = ok
mkdir /l = ENOSPC nodes 1 0
open h /l wcx = ENOSPC nodes 1 0
mkdir /a = EEXIST
rename /a /b = ok
open h /a wcx = fd 0
close h = ok
open h /l wcx = ENOSPC nodes 1 0
unlink /a = ok
mkdir /l = ok
rmdir /c = ok
open h /c wcx = fd 0
close h = ok
tree = / dir; /b dir; /c file 0; /d dir; /e dir; /f dir; /g dir; /h dir; /i dir; /j dir; /k dir; /l dir

# A byte of a name below that of the slash stands first.
row paths_in_byte_order
mkdir /a = ok
open b /a/b wc = fd 0
open c /a! wc = fd 1
list / = names a a!
tree = / dir; /a dir; /a! file 0; /a/b file 0
";

#[test]
fn names_are_changed(rt: HostRuntime) -> Result<(), Fail> {
    assert_losses(&rt, CHANGES, 7)
}
