//! Where the parts of an image lie, and what its journal makes of it.
//!
//! Definitions alone: the numbers of an image (its geometry), the place of each region, line and word, and the
//! journaled view, the image that recovery of a pending journal would leave. The layers above cite them in their
//! contracts; `image_layout` computes the places, `k_journal` commits and recovers.
