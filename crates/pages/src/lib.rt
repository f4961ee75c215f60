//! The pages of a list, `continue` tokens, and the text of a list and of a page of it.
//!
//! A token is not signed, and says nothing of the view or the kind that was listed: who sends it with another request, or makes one up, is
//! given what comes after that place in the list that it asks for. `server` answers pages by these.
#![tactic(auto)]

mod pieces;
pub(crate) mod reading;
mod texts;
mod tokens;

pub use pieces::{closing_text, opening_text, push_item};
pub use texts::page_text;
pub use tokens::Token;
