//! What selectors of labels and of fields are made of.

/// What a requirement says of the label under its key (Kubernetes, Labels and Selectors, Set-based requirement).
#[derive(Clone, Copy)]
pub enum Operator {
    /// The label is there, and its value is among those of the requirement.
    In,
    /// The label is not there, or its value is not among them.
    NotIn,
    /// The label is there.
    Exists,
    /// It is not.
    DoesNotExist,
}

/// A field of the metadata that a field selector can name (Kubernetes, Field Selectors).
#[derive(Clone, Copy)]
pub enum SelectableField {
    /// `metadata.name`
    Name,
    /// `metadata.namespace`
    Namespace,
}
