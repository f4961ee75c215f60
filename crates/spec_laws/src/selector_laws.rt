//! Laws of selectors.
ghost use Rattle.spec_laws.specs.SelectorLaws.{ExclusionsNeedNoKey, InclusionsNeedTheKey, EmptyTextMatchesAll, EachMustHold, OrderIsNoMatter, TextsAndValuesAgree, PairsAreEqualities, EachTextHasAValue, EachValueHasAText};

/// `notin` and `!=` match an object without the key.
pub fn exclusions_need_no_key()
    ensures { ExclusionsNeedNoKey }
{}

/// `in` and `=` do not match an object without the key.
pub fn inclusions_need_the_key()
    ensures { InclusionsNeedTheKey }
{}

/// The empty text matches all.
pub fn empty_text_matches_all()
    ensures { EmptyTextMatchesAll }
{}

/// Each requirement must hold: one that is added never matches more.
pub fn each_must_hold()
    ensures { EachMustHold }
{}

/// A text and a value that say the same requirements, in whatever order and however often, match the same labels.
pub fn order_is_no_matter()
    ensures { OrderIsNoMatter }
{}

/// Whatever a selector can ask for, there is a text and a value that say just that, so each form can stand for the other.
pub fn texts_and_values_agree()
    ensures { TextsAndValuesAgree }
{}

/// An equality in a text and a pair of `matchLabels` mean the same.
pub fn pairs_are_equalities()
    ensures { PairsAreEqualities }
{}

/// Whatever a text says, a value can say.
pub fn each_text_has_a_value()
    ensures { EachTextHasAValue }
{}

/// Whatever a value says, a text can say.
pub fn each_value_has_a_text()
    ensures { EachValueHasAText }
{}
