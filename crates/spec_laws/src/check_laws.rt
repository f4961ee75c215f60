//! Laws of defaults and checks.
ghost use Rattle.spec_laws.specs.CheckLaws.{CreatedSelectTheirTemplates, UpdatedSelectTheirTemplates, StoredPassAgain, DefaultsReadAgain};

/// The selector of a ReplicaSet or Deployment that can be created matches the labels of its template.
pub fn created_select_their_templates()
    ensures { CreatedSelectTheirTemplates }
{}

/// And so does that of one that can stand in the place of a stored one.
pub fn updated_select_their_templates()
    ensures { UpdatedSelectTheirTemplates }
{}

/// An object that can be created could be created again as it was stored, whatever was written since.
pub fn stored_pass_again()
    ensures { StoredPassAgain }
{}

/// A read object with its defaults reads as itself.
pub fn defaults_read_again()
    ensures { DefaultsReadAgain }
{}
