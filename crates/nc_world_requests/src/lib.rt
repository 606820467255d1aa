//! The requests that workers ask for themselves in reached worlds: what is asked waits until its answer comes, and is answered once.
//!
//! Each law is a public function with an empty body whose clause is the law. Below are the holds and the owners of reached worlds.
#![tactic(auto)]

pub mod requests;
