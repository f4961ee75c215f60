//! Uids of other clusters than the first, whose only one lines show.
use metadata_values::uids::uid_text;
use std::alloc::{AllocError, Global};

/// Returns whether a uid has the digits of its cluster and of its revision.
fn is_written(alloc: Global) -> Result<bool, AllocError> {
    let wide = uid_text(alloc, 0x0123_4567_89ab, 0x0cde_f012_3456_789a)?;
    Ok(wide.as_str() == "01234567-89ab-8000-8cde-f0123456789a")
}

#[test]
fn uids_have_cluster_and_revision(rt: HostRuntime) {
    assert_eq!(rt; is_written(rt.alloc()), Ok(true));
}
