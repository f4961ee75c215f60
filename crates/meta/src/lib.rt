//! `Object` and its metadata, `StoredObject`, `Write`, and `Event`, what a write did to an object that is watched; how objects are read and stored.
//!
//! What is read as an object has the form of its kind, and no more: `defaults` fills in what its spec leaves out, and `validate` says whether its
//! fields are valid. What is stored and opened again is the same object, by its text. A `StoredObject` is its text as an item of a list, which copies
//! share, and what gives its whole text by that.
//!
//! The shortest right use, as `test_fixtures` (`objects.rt`) and `server_tests` (`stored_objects.rt`) have it:
//!
//! ```text
//! let object = Object::from_value(alloc, kind, value)?;
//! let stored = StoredObject::new(alloc, &object)?;
//! let text = stored.to_text(alloc)?;
//! let opened = stored.open(alloc)?;
//! ```
//!
//! What not to do: to open a `StoredObject` for anything but to change or compare it, as `verb_update` does, since that reads its text; to take an
//! object that was read for a valid one; to compare versions as numbers, which are texts.
#![tactic(auto)]

mod event;
pub mod finalizers;
pub(crate) mod items;
pub(crate) mod labels;
pub mod lent_members;
mod object_members;
pub mod objects;
pub mod owners;
pub mod reading;
pub mod schemas;
pub mod stored;
pub(crate) mod stored_texts;
pub(crate) mod whole_texts;
pub mod writes;

pub use event::Event;
pub use lent_members::Member;
pub use object_keys::{Fault, Key};
pub use objects::Object;
pub use owners::OwnerReference;
pub use spec_api::kinds::Kind;
pub use stored::StoredObject;
pub use writes::Write;
