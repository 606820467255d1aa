//! The standing rule over the histories of reached worlds: each subscriber is subscribed, started, sent messages and ended in this
//! order, subscribes as it should, and nobody who was sent its one message waits for its end.
//!
//! Below are the steps of a worker that call its spools (`nc_world_ordered`) and the stages of subscribers (`nc_world_members`).
#![tactic(auto)]

pub mod standing;
