//! The tokens of a configuration, with their places.
//!
//! The reader of directives stands above. Below are the lists of bytes of `nc_types`.
//! `specs/Spelling.antt` says how tokens are spelled, and `specs/Reading.antt` what comes next in a text;
//! `specs/Scan.antt` says what the parts of the lexer compute, and `specs/Kept.antt` what bytes a word keeps.
#![tactic(auto)]

pub mod laws;
mod lexer;
mod scan;
mod token;
mod word;

pub use lexer::Lexer;
pub use token::{LexFault, Token};
pub use word::WordText;
