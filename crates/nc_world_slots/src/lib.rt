//! The slot rule over the histories of reached worlds: which slot is taken, which is freed, and how holds are granted and released.
//!
//! Each law is a public function with an empty body whose clause is the law. Below are the holds and the owners of reached worlds.
#![tactic(auto)]

pub mod rule;
