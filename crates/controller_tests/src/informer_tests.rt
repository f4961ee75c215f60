//! A Pod that is put and removed before it is published, and one that is published.
use crate::assertions::assert_same;
use crate::fixtures::{ELSEWHERE, POD, pod, put, remove};
use object_keys::Key;
use plain_informer::PlainInformer;
use std::alloc::{AllocError, Global};

/// Puts the Pod `p`, removes it and puts `q`.
fn append_three(alloc: Global, informer: &mut PlainInformer) -> Result<(), AllocError> {
    informer.append(put(alloc, POD)?)?;
    informer.append(remove(alloc, 6, "default", "p")?)?;
    informer.append(put(alloc, ELSEWHERE)?)?;
    Ok(())
}

/// Publishes twice. Returns the revisions before and after that, how many shifts each publish made, and how many objects there are then.
fn publish_twice(informer: &mut PlainInformer) -> Result<([u64; 2], [usize; 3]), AllocError> {
    let before = informer.look().revision();
    let first = informer.publish()?.len();
    let second = informer.publish()?.len();
    let look = informer.look();
    Ok(([before, look.revision()], [first, second, look.len()]))
}

/// What `publish_twice` returns, and whether `q` is there then.
type Seen = (([u64; 2], [usize; 3]), bool);

/// Publishes three deltas.
fn publish_three(
    alloc: Global,
    informer: &mut PlainInformer,
    key: &Key,
) -> Result<Seen, AllocError> {
    append_three(alloc, informer)?;
    let seen = publish_twice(informer)?;
    Ok((seen, informer.look().get(key).is_some()))
}

/// Returns what is seen as three deltas are published.
fn published(alloc: Global) -> Result<Seen, AllocError> {
    let key = pod(alloc, "other", "q")?;
    let mut informer = PlainInformer::new(alloc);
    publish_three(alloc, &mut informer, &key)
}

#[test]
fn deltas_are_published_together(rt: HostRuntime) {
    assert_same(
        &rt,
        &published(rt.alloc()),
        &Ok((([0, 7], [3, 0, 1]), true)),
    );
}
