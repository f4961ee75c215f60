//! Blanks, and texts that are cut in two.
ghost use Rattle.std.specs.Prelude.{◌≡◌, ◌==◌, ◌&&◌, not, reverse, option_map};
ghost use Rattle.spec_api.specs.SelectorTexts.{is_blank, without_first_blanks, trimmed, before_last, still_inside};
ghost use Rattle.selector.specs.Cuts.{IsCut, IsFirstPart};
ghost use Rattle.selector.specs.Seen.{now};

/// Returns whether a byte is a space or a tab.
pub(crate) fn is_blank(byte: u8) -> bool
    ensures { result ≡ is_blank byte }
{
    byte == b' ' || byte == b'\t'
}

fn trim_start<'t>(text: &'t [u8]) -> &'t [u8]
    ensures { result.now ≡ without_first_blanks text.now }
{
    let mut rest = text;
    while let [first, after @ ..] = rest {
        if !is_blank(*first) {
            return rest;
        }
        rest = after;
    }
    rest
}

fn trim_end<'t>(text: &'t [u8]) -> &'t [u8]
    ensures { result.now ≡ reverse (without_first_blanks (reverse text.now)) }
{
    let mut rest = text;
    while let [before @ .., last] = rest {
        if !is_blank(*last) {
            return rest;
        }
        rest = before;
    }
    rest
}

/// Returns the text without the blanks around it.
pub(crate) fn trim<'t>(text: &'t [u8]) -> &'t [u8]
    ensures { result.now ≡ trimmed text.now }
{
    trim_end(trim_start(text))
}

/// Returns the text before the first such byte, and the text after it.
pub(crate) fn cut_at<'t>(text: &'t [u8], byte: u8) -> Option<(&'t [u8], &'t [u8])>
    ensures { IsCut (λ b. b == byte) text.now result }
{
    for (i, found) in text.iter().enumerate() {
        if *found == byte {
            let (before, after) = text.split_at(i);
            return Some((before, after.split_at(1).1));
        }
    }
    None
}

/// Returns the text before the first blank, and the text after it.
pub(crate) fn cut_at_blank<'t>(text: &'t [u8]) -> Option<(&'t [u8], &'t [u8])>
    ensures { IsCut is_blank text.now result }
{
    for (i, found) in text.iter().enumerate() {
        if is_blank(*found) {
            let (before, after) = text.split_at(i);
            return Some((before, after.split_at(1).1));
        }
    }
    None
}

/// Returns the text before the last byte, where that is as given.
pub(crate) fn before_last<'t>(text: &'t [u8], byte: u8) -> Option<&'t [u8]>
    ensures { option_map now result ≡ before_last byte text.now }
{
    match text {
        [before @ .., last] => { if *last == byte { Some(before) } else { None } }
        [] => None,
    }
}

fn ends_part(inside: bool, byte: u8) -> bool
    ensures { result ≡ ((byte == 44) && not inside) }
{
    byte == b',' && !inside
}

/// Returns whether the byte after this one stands in parentheses.
fn still_inside(inside: bool, byte: u8) -> bool
    ensures { result ≡ still_inside inside byte }
{
    byte == b'(' || (inside && !(byte == b')'))
}

/// Returns the part before the first comma outside parentheses, and the text after it.
pub(crate) fn first_part<'t>(text: &'t [u8]) -> Option<(&'t [u8], &'t [u8])>
    ensures { IsFirstPart text.now result }
{
    let mut inside = false;
    for (i, found) in text.iter().enumerate() {
        if ends_part(inside, *found) {
            let (before, after) = text.split_at(i);
            return Some((before, after.split_at(1).1));
        }
        inside = still_inside(inside, *found);
    }
    None
}
