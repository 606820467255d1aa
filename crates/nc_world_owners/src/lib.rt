//! Laws of the owners of reached worlds, and of the whole histories: stages of slots, grants, channels, the stamp rule, the leaving rule, the post.
//!
//! Each law is a public function with an empty body whose clause is the law. Below are the themes of owners of `nc_world_laws`.
#![tactic(auto)]

pub mod histories;
pub mod owners;
pub mod pairs;
