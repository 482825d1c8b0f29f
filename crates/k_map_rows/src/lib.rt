//! K-Split's maps and staging beside tables worked by hand and power losses.
//!
//! The language is that of `test_kit`. A row of `maps` begins on a fresh device of 128 blocks, or of those of its option `image
//! BLOCKS`, with the empty files 5 and 6. Its calls are `size I N`, `fill I FIRST COUNT`, `take S COUNT`, `give S`, a relink
//! `move S SB I FB COUNT SIZE ORDER`, `write I AT COUNT BYTE`, `stage S B AT COUNT BYTE`, `clean I AT`, `lend S B WORD VALUE`
//! (lend, store, settle), `spread I COUNT` (every second block); `map I`, `free` and `bytes I AT COUNT` show. Three runs of file
//! 5 overlap: the second covers the end of the first and goes past the end of the file, the third covers a block of both. `enter`
//! puts their entries into the log, out of order and with a hole; `publish` publishes them, and `reads` shows what the file reads.
//! A call is stopped after every seventh number of steps: with each choice, by `cut CALL`, all maps are old or new; by `torn CALL`
//! each byte is; by `kept CALL` both files read as before. Each image is checked by the rules, recovered and opened.
//!
//! In `runs` rows begin on the default image, or by `image B L I N` on one of these numbers. `run COUNT` asks for a run of staging
//! blocks, `owed` for how many are out, and `give up` has all staging files give up their blocks.
//!
//! What is tested is shown alone. Stands on `k_map_tests`, `staging_files` and `fsync_relink`; that each call may be made is proved.
#![tactic(auto)]

#[cfg(test)]
mod asking;
#[cfg(test)]
mod contents;
#[cfg(test)]
mod entering;
#[cfg(test)]
mod lending;
#[cfg(test)]
mod maps;
#[cfg(test)]
mod publishing;
#[cfg(test)]
mod reading;
#[cfg(test)]
mod runner;
#[cfg(test)]
mod runs;
#[cfg(test)]
mod shown;
#[cfg(test)]
mod stops;
