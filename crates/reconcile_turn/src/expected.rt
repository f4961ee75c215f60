//! What is expected of pods.
use work_board::Owner;

/// What the commands of a turn make of a ReplicaSet's pods: how many they create, and the uids of those that they delete.
#[derive(Drop)]
pub struct Expected {
    pub owner: Owner,
    pub creations: u32,
    pub deletions: Vec<String>,
}
