//! The moments at which texts come due.
use crate::assertions::{assert_same, assert_text};
use keyed_queues::KeyedDelays;
use std::alloc::{AllocError, Global};

/// The moments at which texts are to come due.
const MOMENTS: [(&str, u64); 4] = [("web", 20), ("api", 20), ("db", 30), ("db", 10)];

/// Two texts that come due at 20, and one that is to come at 30 and then at 10.
fn three_texts(alloc: Global) -> Result<KeyedDelays<String>, AllocError> {
    let mut delays = KeyedDelays::new(alloc);
    for &(name, moment) in &MOMENTS {
        delays.add_after(String::from_str(alloc, name)?, moment)?;
    }
    Ok(delays)
}

/// Adds the texts that are due at a moment to another, each with a space behind it.
fn tell_due(
    text: &mut String,
    delays: &mut KeyedDelays<String>,
    moment: u64,
) -> Result<(), AllocError> {
    for key in delays.due(moment)?.iter() {
        text.push_str(key.as_str())?;
        text.push(' ')?;
    }
    text.push(';')
}

/// Returns which texts are due at 9, at 20 and at 50.
fn due(alloc: Global) -> Result<String, AllocError> {
    let mut text = String::new(alloc);
    let mut delays = three_texts(alloc)?;
    for moment in &[9, 20, 50] {
        tell_due(&mut text, &mut delays, *moment)?;
    }
    Ok(text)
}

#[test]
fn texts_come_due_in_order(rt: HostRuntime) {
    let text = due(rt.alloc());
    assert_text(&rt, &text, ";db api web ;;");
}

/// Returns how many of the three texts are due at 20, and how many at 50 once those are dropped.
fn dropped(alloc: Global) -> Result<[usize; 2], AllocError> {
    let mut delays = three_texts(alloc)?;
    let due = delays.due_keys(20)?.len();
    delays.drop_due(20);
    Ok([due, delays.due(50)?.len()])
}

#[test]
fn texts_are_dropped_when_due(rt: HostRuntime) {
    assert_same(&rt, &dropped(rt.alloc()), &Ok([3, 0]));
}
