//! What lines change.
use meta::Write;
use metadata_values::moments::Moment;

/// What a line changes of a session.
#[derive(Drop)]
pub enum Effect {
    /// Nothing.
    Nothing,
    /// An object is put under its key, or removed.
    Write(Write),
    /// From then on it is this moment.
    Moment(Moment),
    /// What happened up to this revision is compacted.
    Compaction(u64),
}

/// A reply that is made, and what is to change before it is sent.
#[derive(Drop)]
pub struct Prepared {
    /// The line that is replied, or nothing.
    pub reply: Vec<u8>,
    pub effect: Effect,
}

impl Prepared {
    ghost use Rattle.std.specs.Prelude.{◌≡◌};
    ghost use Rattle.line_session.specs.declared.effects.Effect.TheVariants as effects;

    /// Returns a reply after which nothing changes.
    pub(crate) fn unchanged(reply: Vec<u8>) -> Prepared
        ensures text { result.reply ≡ reply }
        ensures effect { result.effect ≡ effects.Nothing }
    {
        Prepared {
            reply,
            effect: Effect::Nothing,
        }
    }
}

impl Effect {
    ghost use Rattle.std.specs.Prelude.{◌≡◌, option_map};
    ghost use Rattle.meta.specs.Writes.{write_of};
    ghost use Rattle.line_session.specs.Effects.{effect_of};
    ghost use Rattle.line_session.specs.SessionStates.{of_write};

    /// Returns the effect of what a reply writes, if it writes anything.
    pub(crate) fn of_write(write: Option<Write>) -> Effect
        ensures { effect_of result ≡ of_write (option_map write_of write) }
    {
        match write {
            None => Effect::Nothing,
            Some(write) => Effect::Write(write),
        }
    }
}
