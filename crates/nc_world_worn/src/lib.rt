//! Worn workers as the journal shows them: each counter of a worker stands as far behind the first number as the journal
//! shows events of its kind, so that a line which meets a worn worker is told by the journal alone.
//!
//! Each law is a public function with an empty body whose clause is the law. Below are the laws of reached worlds and of lines.
#![tactic(auto)]

pub mod worn;
