//! Threads that create ConfigMaps at one desk.
ghost use Rattle.std.specs.Prelude.{All, IfOk, IfSome};
ghost use Rattle.desk.specs.Desks.{IsNewAt, IsPassAt};

use crate::creating::create_all;
use desk::{Anything, Desk, StorePass};
use object_keys::Fault;
use request_parts::list_options::ListOptions;
use selector::View;
use serde_json::Value;
use spec_api::kinds::Kind;
use spec_api::versions::At;
use std::alloc::{AllocError, Global};
use std::sync::Wait;
use std::sync::atomic::{AtomicU64, Ordering};
use std::thread;
use std::thread::Threads;

/// Creates in a thread for each pass, and counts what all find.
fn create_in_threads<R: Threads + Wait + Sync>(
    rt: &R,
    alloc: Global,
    desk: &Desk<Anything>,
    passes: Vec<StorePass>,
    found: &AtomicU64,
) -> Result<Vec<StorePass>, AllocError>
    requires { All (IsNewAt desk.now) passes.items }
    ensures { IfOk result (λ v. All (IsPassAt desk.now) v.items) }
{
    let threads = AtomicU64::new(0);
    thread::map_vec(
        rt,
        passes,
        &|pass: StorePass| -> StorePass
            requires { IsNewAt desk.now pass }
            ensures { IsPassAt desk.entry.now result }
        {
            let number = threads.fetch_add(1, Ordering::SeqCst);
            create_all(rt, alloc, desk, pass, number, found)
        },
    )
}

/// Lets the pass of each thread meet the next one, and returns the last one. It answers nothing where there is no thread.
fn meet_in_turn(desk: &Desk<Anything>, mut passes: Vec<StorePass>) -> Option<StorePass>
    requires { All (IsPassAt desk.now) passes.items }
    ensures { IfSome result (IsPassAt desk.now) }
{
    let mut last = passes.pop()?;
    while let Some(mut next) = passes.pop() {
        desk.meet(&mut last, &mut next);
        last = next;
    }
    Some(last)
}

/// How a list at revision 201 ends.
const END: &[u8] = br#""metadata":{"resourceVersion":"201"}}"#;

/// Returns whether a text is a list of 200 objects at revision 201.
fn has_all(alloc: Global, text: &str) -> bool {
    let Ok(list) = Value::from_str(alloc, text) else {
        return false;
    };
    let (last, beyond) = (list.pointer("/items/199"), list.pointer("/items/200"));
    last.is_some() && beyond.is_none() && text.as_bytes().ends_with(END)
}

/// Returns whether 200 ConfigMaps are listed, at revision 201, and whether the desk lets go of all changes up to there.
fn is_full<R: Wait>(
    rt: &R,
    alloc: Global,
    desk: &Desk<Anything>,
    mut pass: StorePass,
) -> Result<(bool, bool), Fault>
    requires { IsPassAt desk.now pass }
{
    let view = View::unfiltered(alloc, Kind::ConfigMap, None);
    let options = ListOptions {
        at: At::Present,
        limit: 0,
        after: None,
    };
    let list = desk.list(rt, alloc, &mut pass, &view, &options)?;
    let is_compacted = desk.compact(rt, &mut pass, 201).is_ok();
    Ok((has_all(alloc, list.text.as_str()), is_compacted))
}

/// Has four threads create. It returns how many found what they created, and what `is_full` does then.
fn created<R: Threads + Wait + Sync>(rt: &R, alloc: Global) -> Result<(u64, (bool, bool)), Fault> {
    let found = AtomicU64::new(0);
    let (desk, passes) = Desk::<Anything>::open(alloc, 1024, 4)?;
    let passes = create_in_threads(rt, alloc, &desk, passes, &found)?;
    let seen = match meet_in_turn(&desk, passes) {
        Some(last) => is_full(rt, alloc, &desk, last)?,
        None => (false, false),
    };
    Ok((found.load(Ordering::SeqCst), seen))
}

#[test]
fn four_threads_find_what_they_create(rt: HostRuntime) -> Result<(), Fault> {
    let seen = created(&rt, rt.alloc())?;
    assert_eq!(rt; seen, (200, (true, true)));
    Ok(())
}
