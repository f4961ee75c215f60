//! Worked facts of selectors, which the checker computes from the definitions.
ghost use Rattle.spec_examples.specs.SelectorExamples.{AllFormsAreRead, EmptyTextSaysNothing, BlanksAreRefused, EmptyRequirementIsRefused, EmptyListIsRefused, EmptyItemsAreValues, EmptyValueIsRead, OpenParenthesisIsRefused, BlankBeforeWordIsNeeded, SplitOperatorIsRefused, BlankAfterMarkIsRead, QualifiedKeysAreRead, ValuesAreChecked, AbsentKeysAreSelected, ValuesAreSelectors, ValuesAreRefused, FieldsAreRead, FieldsAreRefused};

/// What texts of selectors say.
pub fn texts_are_read()
    // Every form of a requirement is read, with blanks around each part.
    ensures all_forms_are_read { AllFormsAreRead }
    // The empty text matches all.
    ensures empty_text_says_nothing { EmptyTextSaysNothing }
    // An empty item is the empty value.
    ensures empty_items_are_values { EmptyItemsAreValues }
    // A value may be empty.
    ensures empty_value_is_read { EmptyValueIsRead }
    // A blank stands before the word, and none is needed after it.
    ensures blank_before_word_is_needed { BlankBeforeWordIsNeeded }
    // A blank may follow the exclamation mark.
    ensures blank_after_mark_is_read { BlankAfterMarkIsRead }
    // A key is a qualified name.
    ensures qualified_keys_are_read { QualifiedKeysAreRead }
    // A value is empty or a short name.
    ensures values_are_checked { ValuesAreChecked }
{}

/// Which texts are no selectors.
pub fn texts_are_refused()
    // Blanks alone are no requirement.
    ensures blanks_are_refused { BlanksAreRefused }
    // An empty requirement is refused.
    ensures empty_requirement_is_refused { EmptyRequirementIsRefused }
    // Empty parentheses are refused.
    ensures empty_list_is_refused { EmptyListIsRefused }
    // Parentheses come in one pair.
    ensures open_parenthesis_is_refused { OpenParenthesisIsRefused }
    // An operator has no blank in it.
    ensures split_operator_is_refused { SplitOperatorIsRefused }
{}

/// Only what excludes a value matches where the key is absent.
pub fn labels_are_matched()
    ensures { AbsentKeysAreSelected }
{}

/// What values say that select by labels.
pub fn values_are_read()
    // A value says what the text says.
    ensures values_are_selectors { ValuesAreSelectors }
    // A wrong type and a wrong value are told apart.
    ensures values_are_refused { ValuesAreRefused }
{}

/// What selectors of fields say.
pub fn fields_are_compared()
    // Fields are compared with the name and the namespace.
    ensures fields_are_read { FieldsAreRead }
    // Other fields, blanks and other forms are refused.
    ensures fields_are_refused { FieldsAreRefused }
{}
