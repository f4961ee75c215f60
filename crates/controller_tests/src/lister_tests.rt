//! Each call of an informer that threads look at, once, with ample memory.
use crate::assertions::assert_same;
use crate::fixtures::{pod, publish, put_at, remove};
use informer::{Informer, Lister, SharedInformer};
use plain_informer::Publishing;
use std::alloc::{AllocError, Global};
use std::sync::Wait;

/// Appends two deltas at once, which remove the Pod and put it again.
fn append_two<P: Publishing>(alloc: Global, informer: &mut P) -> Result<(), AllocError> {
    let mut deltas = Vec::new(alloc);
    deltas.push(remove(alloc, 4, "default", "p")?)?;
    deltas.push(put_at(alloc, 5)?)?;
    informer.append_all(deltas)?;
    Ok(())
}

/// Publishes one delta and then two, and returns how many shifts there were, and what is published and waits in the end.
fn publish_three<P: Publishing>(
    alloc: Global,
    informer: &mut P,
) -> Result<(usize, u64, usize), AllocError> {
    informer.append(put_at(alloc, 3)?)?;
    let one = informer.publish()?.len();
    append_two(alloc, informer)?;
    let two = informer.publish()?.len();
    let none = informer.publish()?.len();
    let shifts = one.saturating_add(two).saturating_add(none);
    append_two(alloc, informer)?;
    Ok((shifts, informer.published().revision(), informer.waiting()))
}

/// Returns the revision that a lister looks at, and whether the Pod is there.
fn looked(alloc: Global, lister: Lister) -> Result<(u64, bool), AllocError> {
    let key = pod(alloc, "default", "p")?;
    match lister.look() {
        Ok(look) => {
            let seen = (
                look.indexed().revision(),
                look.indexed().get(&key).is_some(),
            );
            let _lister = look.leave();
            Ok(seen)
        }
        Err(_) => Ok((0, false)),
    }
}

/// Returns what a new lister looks at.
fn looked_anew(alloc: Global, informer: &mut Informer) -> Result<(u64, bool), AllocError> {
    let lister = informer.lister()?;
    looked(alloc, lister)
}

/// Returns what a new lister looks at, and whether a lister may look once the informer is closed.
fn looked_and_closed<R: Wait>(
    rt: &R,
    alloc: Global,
    mut informer: Informer,
) -> Result<((u64, bool), bool), AllocError> {
    let second = informer.lister();
    let seen = looked_anew(alloc, &mut informer);
    informer.close(rt);
    Ok((seen?, second?.look().is_ok()))
}

/// Returns what `publish_three` does, how many deltas wait then, and what `looked_and_closed` does.
fn called<R: Wait>(
    rt: &R,
    alloc: Global,
) -> Result<((usize, u64, usize), usize, ((u64, bool), bool)), AllocError> {
    let informer = Informer::open(alloc, 2)?;
    let mut shared = SharedInformer::new(rt, informer);
    let published = publish_three(alloc, &mut shared);
    let waiting = shared.informer().waiting();
    let looked = looked_and_closed(rt, alloc, shared.into_informer());
    Ok((published?, waiting, looked?))
}

#[test]
fn each_call_once(rt: HostRuntime) {
    assert_same(
        &rt,
        &called(&rt, rt.alloc()),
        &Ok(((3, 5, 2), 2, ((5, true), false))),
    );
}

/// Returns what a lister of a shared informer looks at, and whether a lister may look once the informer is dropped.
fn looked_and_dropped<R: Wait>(rt: &R, alloc: Global) -> Result<((u64, bool), bool), AllocError> {
    let mut shared = SharedInformer::new(rt, Informer::open(alloc, 2)?);
    let seen = looked(alloc, shared.lister()?)?;
    let second = shared.lister()?;
    drop(shared);
    Ok((seen, second.look().is_ok()))
}

#[test]
fn a_shared_informer_closes_as_it_is_dropped(rt: HostRuntime) {
    assert_same(
        &rt,
        &looked_and_dropped(&rt, rt.alloc()),
        &Ok(((0, false), false)),
    );
}

/// Publishes one delta, and returns how many shifts there were and the revision that is published then.
fn publish_one<R: Wait>(
    rt: &R,
    alloc: Global,
    informer: &mut Informer,
) -> Result<(usize, u64), AllocError> {
    let shifts = publish(rt, informer, put_at(alloc, 7)?)?;
    Ok((shifts, informer.published().revision()))
}

/// Publishes one delta of an informer of its own.
fn published<R: Wait>(rt: &R, alloc: Global) -> Result<(usize, u64), AllocError> {
    let mut informer = Informer::open(alloc, 1)?;
    let published = publish_one(rt, alloc, &mut informer);
    informer.close(rt);
    published
}

#[test]
fn a_publish_shifts_what_it_publishes(rt: HostRuntime) {
    assert_same(&rt, &published(&rt, rt.alloc()), &Ok((1, 7)));
}
