//! What a list or a watch asks for: a kind, in one namespace or in all, and selectors of labels and of fields, as their
//! texts and values say: their requirements of labels and of fields.
#![tactic(auto)]

mod cuts;
mod faults;
mod fields;
mod labels;
mod owned;
pub mod requirement_values;
mod selectors;
pub mod texts;
mod values;
mod views;

pub use faults::{PartFault, SelectorFault};
pub use fields::Fields;
pub use labels::Requirement;
pub use selectors::Selector;
pub use views::View;
