//! Writes in POSIX mode: what each makes of the standing of the device.
//!
//! Definitions and laws, no code. A write stages what lies past the old length of its file, in a run that begins in the block
//! of that length or of its first byte, and is not logged; what lies below goes in place, where the calls see it and, of
//! what is published, in the file's own map too. Before it, in this order, and with the same history: holes are filled and
//! staging files get blocks (`Maps`; where the batch is committed within the change, by `JoinGoesOn` of
//! `batch_publish_laws` before), a tail is cleaned and the blocks of the run are filled (`Shown`: words that no file
//! shows). Then the device goes on with the call in its history: with all bytes below the length (`InPlaceGoesOn`), or with
//! a run more (`StagedGoesOn`, and by its parts `PartsGoOn`). Published bytes of the range lie in settled blocks, which is
//! a premise (`SettledIsSettled` says when). Wherever the power goes the promise is kept once the log lines are put back:
//! the medium shows nothing of a fill or of a tail, and each byte of a write is old or new (`Losses`). What K-Split answers
//! for bytes in place, and how pieces of a write are put together, is in `Pieces` and `PiecesLaws`.
//!
//! Stands on `batch_laws`, `batch_publish_laws` for changes of maps, and `world_write_laws`.
#![tactic(auto)]

ghost use Rattle.batch_write_laws.specs.Losses.{JoinKeepsBack, KeptBackOfOne, ShownKeepsBack, TailKeepsBack, WriteKeepsBack};
ghost use Rattle.batch_write_laws.specs.Maps.{FillGoesOn, RestageGoesOn};
ghost use Rattle.batch_write_laws.specs.Pieces.{CutIsLost, DoneIsWritten, PartsGoOn, SettledIsSettled};
ghost use Rattle.batch_write_laws.specs.Shown.{FillsGoOn, TailGoesOn, WordsGoOn};
ghost use Rattle.batch_write_laws.specs.Writes.{InPlaceGoesOn, StagedGoesOn};

/// Staging files get blocks or give them up, and holes of a file are filled: the device goes on, and no call ends.
pub fn maps_of_the_batch_change()
    ensures restaged { RestageGoesOn }
    ensures filled { FillGoesOn }
{}

/// Words that no file shows: the device goes on as it did. So where blocks of staging files are filled, and a tail is cleaned.
pub fn words_go_unseen()
    ensures words { WordsGoOn }
    ensures fills { FillsGoOn }
    ensures tail { TailGoesOn }
{}

/// A write that returned: in place, and with a run that is staged; so where that is filled first, and the rest is written then.
pub fn writes_go_on()
    ensures in_place { InPlaceGoesOn }
    ensures staged { StagedGoesOn }
    ensures parts { PartsGoOn }
{}

/// What K-Split answers where bytes are written over in place, as words of a write, whole or cut off; and which blocks
/// are settled.
pub fn bytes_are_written_over()
    ensures done { DoneIsWritten }
    ensures cut { CutIsLost }
    ensures settled { SettledIsSettled }
{}

/// The power goes while words are written: nothing that the medium shows differs, as where a tail is cleaned, or a write
/// was cut off.
pub fn the_power_goes_in_a_write()
    ensures shown { ShownKeepsBack }
    ensures joined { JoinKeepsBack }
    ensures tail { TailKeepsBack }
    ensures lost { WriteKeepsBack }
    ensures of_one { KeptBackOfOne }
{}
