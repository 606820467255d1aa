//! Scripts made from a number: the same seed and size always give the same script.
//!
//! The rows of texts stand above. Below stands `nc_types`.
//! `specs/Generator.antt` says which numbers a seed draws, `specs/DrawnLine.antt` what each of them says, and
//! `specs/Script.antt` which lines make up a script.
#![tactic(auto)]

mod draw;
mod line;
mod script;

pub use script::make_script;
