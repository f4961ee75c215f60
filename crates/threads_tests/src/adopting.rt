//! A scenario in which an object that is to be deleted gets an owner.
use crate::clients::Client;
use crate::halting::Halting;
use crate::polling::wait_until;
use crate::scenarios::Scenario;
use serde_json::Value;
use spec_api::kinds::Kind;
use std::sync::Wait;
use std::time::Clock;

/// The name of the ConfigMap.
pub const ITEM: &str = "item";

/// A client gives a ConfigMap other owners once a turn is planned that deletes it, before the delete is made. Then it waits until the
/// ConfigMap has but one owner.
#[derive(Drop)]
pub struct Adopting<'a, 'g, R> {
    pub client: Client<'a, R>,
    pub gate: &'g Halting<'a, R>,
    /// The owners, as a merge patch.
    pub owners: String,
    /// The uid of the one that is left.
    pub left: String,
}

/// Returns whether an object has one owner, which has this uid.
fn is_owned_by(object: &Value, uid: &str) -> bool {
    let owners = object
        .pointer("/metadata/ownerReferences")
        .and_then(|it| it.as_array())
        .map_or(0, |it| it.len());
    let first = object
        .pointer("/metadata/ownerReferences/0/uid")
        .and_then(|it| it.as_str());
    owners == 1 && first == Some(uid)
}

impl<R: Wait + Clock> Adopting<'_, '_, R> {
    /// Gives the ConfigMap the owners once its delete is planned, and returns whether it did.
    fn adopt(&mut self) -> bool {
        if !self.gate.await_plan() {
            return false;
        }
        let owners = self.owners.as_str();
        let is_owned = self.client.patch(Kind::ConfigMap, ITEM, owners);
        self.gate.release();
        is_owned
    }

    /// Waits until the ConfigMap has but one owner, the one that is left, and returns whether it does.
    fn await_owner(&mut self) -> bool {
        let rt = self.client.rt;
        wait_until(rt, || {
            match self.client.get(Kind::ConfigMap, ITEM) {
                Some(object) => is_owned_by(&object, self.left.as_str()),
                None => false,
            }
        })
    }
}

impl<R: Wait + Clock> Scenario for Adopting<'_, '_, R> {
    fn run(&mut self) -> bool {
        self.adopt() && self.await_owner()
    }
}
