//! Objects that are created at a desk, and found at once.
ghost use Rattle.std.specs.Prelude.{true};
ghost use Rattle.desk.specs.Desks.{IsPassAt};

use desk::{Anything, Desk, StorePass};
use metadata_values::moments::Moment;
use object_keys::{Fault, Key};
use reply::Reply;
use request_parts::Request;
use serde_json::Value;
use spec_api::kinds::Kind;
use std::alloc::{AllocError, Global};
use std::sync::Wait;
use std::sync::atomic::{AtomicU64, Ordering};

/// How many ConfigMaps a thread creates.
const TURNS: u64 = 50;

/// A create of the ConfigMap with this name.
fn create(alloc: Global, name: &str) -> Result<Request, Fault> {
    let text = format!(in alloc; "{{\"metadata\":{{\"name\":\"{}\"}}}}", name)?;
    let Ok(body) = Value::from_str(alloc, text.as_str()) else {
        return Err(Fault::NoMemory);
    };
    let namespace = String::from_str(alloc, "default")?;
    Ok(Request::Create(Kind::ConfigMap, namespace, body))
}

/// A get of it.
fn get(alloc: Global, name: &str) -> Result<Request, AllocError> {
    Ok(Request::Get(Key {
        kind: Kind::ConfigMap,
        namespace: String::from_str(alloc, "default")?,
        name: String::from_str(alloc, name)?,
    }))
}

/// Returns whether a get found what a create had made.
fn is_as_created(created: &Reply, found: &Reply) -> bool {
    created.code == 201 && found.code == 200 && created.text.as_bytes() == found.text.as_bytes()
}

/// Creates the ConfigMap of a thread's turn, and gets it back at once. Returns whether it was found as it was created.
fn is_found<R: Wait>(
    rt: &R,
    alloc: Global,
    desk: &Desk<Anything>,
    pass: &mut StorePass,
    thread: u64,
    turn: u64,
) -> Result<bool, Fault>
    requires { IsPassAt desk.now pass.old }
    ensures { IsPassAt desk.now pass.new }
{
    let name = format!(in alloc; "a-{}-{}", thread, turn)?;
    let request = create(alloc, name.as_str())?;
    let created = desk.call(rt, alloc, pass, request, Moment::start())?;
    let request = get(alloc, name.as_str())?;
    let found = desk.call(rt, alloc, pass, request, Moment::start())?;
    Ok(is_as_created(&created, &found))
}

/// Creates the ConfigMaps of a thread, gets each back at once, and counts those that are found as they were created. It gives the pass back.
pub(crate) fn create_all<R: Wait>(
    rt: &R,
    alloc: Global,
    desk: &Desk<Anything>,
    mut pass: StorePass,
    thread: u64,
    found: &AtomicU64,
) -> StorePass
    requires { IsPassAt desk.now pass }
    ensures { IsPassAt desk.now result }
{
    for turn in 0..TURNS {
        if let Ok(true) = is_found(rt, alloc, desk, &mut pass, thread, turn) {
            found.fetch_add(1, Ordering::SeqCst);
        }
    }
    pass
}
