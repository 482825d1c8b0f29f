//! Facts of chains, the spelling of a file's map in blocks of the image.
//!
//! Lemmas alone, over the definitions of `image_model`: block by block and as a whole a chain says the
//! same; a root and a number of extents lead to one chain and one map at most; what is written reads
//! back; and a chain that stands in an image keeps the rule of a checked image on it, and the other way
//! round. `map_chain` and the facts of volumes cite them.
