//! The log of an image that shows a valid world keeps the rules of a checked image.
//!
//! Lemmas over `rules` and `promise`. The layer above may rely on this: whichever jobs landed,
//! the live entries have their staging blocks and share none, no two entries of one file have one order,
//! and what the files then hold leaves the reserve; and lines that are put back, each whole or in the
//! permitted mixtures of words, show the claims and some of the jobs. `Laws` has each as one statement.

ghost use Rattle.world_model.specs.LogRulesLaws.{KeepsLaps, KeepsLogRules, MayRecover, ShowsPictures};

/// An image that shows a valid world keeps the rules of its log, whichever jobs landed, and with free
/// blocks enough it can be recovered.
pub fn an_image_keeps_the_rules_of_its_log()
    ensures rules { KeepsLogRules }
    ensures recovery { MayRecover }
{}

/// An honest image of log lines that are put back shows the claims and some of the filled jobs, and no
/// entry of a later lap.
pub fn an_image_shows_claims_and_jobs()
    ensures pictures { ShowsPictures }
    ensures laps { KeepsLaps }
{}
