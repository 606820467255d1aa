//! Holds at rest: each hold that a worker keeps is of a message that was found, so where no look is awaited nothing is held.
//!
//! Each law is a public function with an empty body whose clause is the law. Below are the holds and the places of reached worlds.
#![tactic(auto)]

pub mod rest;
