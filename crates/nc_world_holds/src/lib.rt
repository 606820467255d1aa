//! Holds in reached worlds: what an owner granted to a worker was released, is on its way, or is kept by the worker's spools.
//!
//! Below are the pure world and what is good of it. Each law is a public function with an empty body.
#![tactic(auto)]

pub mod balance;
