//! Objects, as they are declared.
use std::alloc::{AllocError, Global};

/// Returns the text of an object with pods: so many, all of which have one label.
pub fn with_pods(alloc: Global, name: &str, replicas: u64) -> Result<String, AllocError> {
    format!(in alloc;
        "{{\"metadata\":{{\"name\":\"{}\"}},\"spec\":{{\"replicas\":{},\"selector\":{{\"matchLabels\":{{\"app\":\"{}\"}}}},\"template\":{{\"metadata\":{{\"labels\":{{\"app\":\"{}\"}}}},\"spec\":{{}}}}}}}}",
        name, replicas, name, name
    )
}

/// Returns the text of a reference to an owner, a ConfigMap.
pub fn owner(alloc: Global, name: &str, uid: &str) -> Result<String, AllocError> {
    format!(in alloc;
        "{{\"apiVersion\":\"v1\",\"kind\":\"ConfigMap\",\"name\":\"{}\",\"uid\":\"{}\"}}",
        name, uid
    )
}

/// Returns the text of a ConfigMap with references to owners, which a comma stands between.
pub fn owned(alloc: Global, name: &str, owners: &str) -> Result<String, AllocError> {
    format!(in alloc;
        "{{\"metadata\":{{\"name\":\"{}\",\"ownerReferences\":[{}]}}}}",
        name, owners
    )
}

/// Returns the text of a pod with references to owners, which a comma stands between.
pub fn owned_pod(alloc: Global, name: &str, owners: &str) -> Result<String, AllocError> {
    format!(in alloc;
        "{{\"metadata\":{{\"name\":\"{}\",\"ownerReferences\":[{}]}},\"spec\":{{}}}}",
        name, owners
    )
}
