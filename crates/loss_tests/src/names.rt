//! Calls on names, with a loss after each step.
use crate::parts::assert_losses;
use std::test::Fail;

const LINUX: &str = "\
# Answered by Linux 6.18: each row was run in a fresh directory of an ext4 file system by mkdir(2),
# open(2) and so on, as root, and descriptors are counted from the lowest that the row opened.
# The trees are those of the directory after each call.
row rename_below_itself_and_away
image 64 16 16 16
losses every 1
mkdir /a = ok
tree = / dir; /a dir
mkdir /a/b = ok
tree = / dir; /a dir; /a/b dir
rename /a /a/b/c = EINVAL
rename /a/b /x = ok
tree = / dir; /a dir; /x dir
rmdir /a = ok
tree = / dir; /x dir
list / = names x

row file_made_opened_unlinked_and_closed
image 64 16 16 16
losses every 1
open m /f wc = fd 0
tree = / dir; /f file 0
close m = ok
open a /f rw = fd 0
unlink /f = ok
tree = / dir
list / = names
close a = ok

row safe_save
image 64 16 16 16
losses every 1
open o /f wc = fd 0
tree = / dir; /f file 0
close o = ok
open n /f2 wc = fd 0
tree = / dir; /f file 0; /f2 file 0
close n = ok
rename /f2 /f = ok
tree = / dir; /f file 0

row rename_over_an_open_file
image 64 16 16 16
losses every 1
open a /a wc = fd 0
tree = / dir; /a file 0
open b /b wc = fd 1
tree = / dir; /a file 0; /b file 0
rename /a /b = ok
tree = / dir; /b file 0
close b = ok
stat /b = file 0
close a = ok
";

#[test]
fn each_step_of_calls_on_names(rt: HostRuntime) -> Result<(), Fail> {
    assert_losses(&rt, LINUX, 4)
}
