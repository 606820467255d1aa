//! Members of channels in reached worlds: the members that an owner knows are those who stand with the channel, once it took the
//! joins and parts on their way, but for those who are about to hear that it is gone; and the stages of subscribers, by the journal and by the spools.
//!
//! Below are the pure world, what is good of it, and what the calls of spools tell of members. Each law is a public function with
//! an empty body.
#![tactic(auto)]

pub mod members;
pub mod stages;
