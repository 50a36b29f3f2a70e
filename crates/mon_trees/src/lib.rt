//! The trees of a program's text, which the parser makes and the compiler reads.
#![tactic(auto)]

pub mod tree;

use sqlite_items::Items;

/// The text of a token, which contracts see as the list of its characters.
pub type Text = Items<char>;
