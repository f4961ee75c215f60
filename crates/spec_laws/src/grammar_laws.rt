//! Laws of the texts of selectors, by how they are written.
ghost use Rattle.spec_laws.specs.GrammarLaws.{WrittenTextsAreRead, ReadTextsAreWritten, TextsAreClear};

/// A text in the forms of the API, with blanks anywhere between its parts, is read as the requirements that it writes.
pub fn written_texts_are_read()
    ensures { WrittenTextsAreRead }
{}

/// No other text is read: whatever is read was written in these forms.
pub fn read_texts_are_written()
    ensures { ReadTextsAreWritten }
{}

/// No text can be read in two ways.
pub fn texts_are_clear()
    ensures { TextsAreClear }
{}
