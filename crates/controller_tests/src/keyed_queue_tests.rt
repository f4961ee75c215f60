//! A text that is added while a worker has it, and what is added together.
use crate::assertions::assert_same;
use keyed_queues::KeyedQueue;
use std::alloc::{AllocError, Global};

/// Whether this text is handed out.
fn is_handed_out(queue: &mut KeyedQueue<String>, wanted: &str) -> Result<bool, AllocError> {
    Ok(match queue.get()? {
        Some(key) => key.as_str() == wanted,
        None => false,
    })
}

/// Adds a text that is in a worker's hands, and says that it is done. Returns how many wait before and after that.
fn add_and_end(queue: &mut KeyedQueue<String>, key: &String) -> Result<[usize; 2], AllocError> {
    queue.add(key.clone()?)?;
    let meanwhile = queue.len();
    queue.done(key);
    Ok([meanwhile, queue.len()])
}

/// What is seen of a text that is added twice: whether it was handed out, how many wait before and after it is done, and whether it is handed
/// out once more.
type Seen = (bool, [usize; 2], bool);

/// Adds a text twice, where it is taken in between.
fn add_twice(queue: &mut KeyedQueue<String>, key: &String) -> Result<Seen, AllocError> {
    queue.add(key.clone()?)?;
    let first = is_handed_out(queue, key.as_str())?;
    let waiting = add_and_end(queue, key)?;
    Ok((first, waiting, is_handed_out(queue, key.as_str())?))
}

/// Returns what is seen as the text `web` is added twice.
fn added_twice(alloc: Global) -> Result<Seen, AllocError> {
    let key = String::from_str(alloc, "web")?;
    let mut queue = KeyedQueue::new(alloc);
    add_twice(&mut queue, &key)
}

#[test]
fn a_text_waits_for_its_done(rt: HostRuntime) {
    assert_same(&rt, &added_twice(rt.alloc()), &Ok((true, [0, 1], true)));
}

/// Returns these texts.
pub(crate) fn texts(alloc: Global, names: &[&str]) -> Result<Vec<String>, AllocError> {
    let mut texts = Vec::new(alloc);
    for name in names {
        texts.push(String::from_str(alloc, name)?)?;
    }
    Ok(texts)
}

/// Returns whether a text waits first.
fn is_first(queue: &KeyedQueue<String>, text: &str) -> bool {
    match queue.first() {
        Some(first) => first.as_str() == text,
        None => false,
    }
}

/// Adds `web`, `api` and `web` together, shuts the queue and adds `db`.
fn add_together(alloc: Global, queue: &mut KeyedQueue<String>) -> Result<(), AllocError> {
    let texts = texts(alloc, &["web", "api", "web"])?;
    queue.add_all(texts.as_slice())?;
    queue.shut_down();
    queue.add(String::from_str(alloc, "db")?)
}

/// Returns how many wait once those were added, and whether the first is `web`.
fn added_together(alloc: Global) -> Result<(usize, bool), AllocError> {
    let mut queue = KeyedQueue::new(alloc);
    add_together(alloc, &mut queue)?;
    Ok((queue.len(), is_first(&queue, "web")))
}

#[test]
fn texts_wait_once_in_their_order(rt: HostRuntime) {
    assert_same(&rt, &added_together(rt.alloc()), &Ok((2, true)));
}
