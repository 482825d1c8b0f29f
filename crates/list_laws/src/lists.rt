//! Facts of lists: members, filters and orders, over lists of anything.
//!
//! Lemmas alone. `Members` says what it is to be in a list (`In`, by recursion, so that a proof goes
//! down the list), and what is in a list that was filtered, mapped, put together or changed at a place.
//! `Filters` has equations of filters. The facts of calls, of volumes and of the World stand on them.
