//! What readers and the writer know. No value is ever made of it: it is what the proofs speak of.
use reflector::Delta;
use std::collections::LinkedList;

/// What a reader, or the writer, has seen or was told of: lists of batches, the deltas of each of which were published at once.
pub struct MapView {
    pub known: LinkedList<LinkedList<LinkedList<Delta>>>,
}
