//! How code shows in the pure world: what is kept in lists is seen there as functions of a worker's number, the answers of
//! polls are told where holds are counted, and the packets that are pending are counted as they come and go.
//!
//! Here stand laws alone, by which code of several workers is proved equal to the moves of `nc_world`, below. The cluster stands above.
#![tactic(auto)]

pub mod views;
