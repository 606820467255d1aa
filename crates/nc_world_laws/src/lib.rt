//! Laws of reached worlds: what holds of the workers, their packets and their owners, whatever moves led there.
//!
//! Each law is a public function with an empty body whose clause is the law. Below is the pure world of `nc_world`.
#![tactic(auto)]

pub mod reached;
