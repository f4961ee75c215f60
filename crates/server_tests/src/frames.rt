//! Frames as deep and as long as they may be, and one more, and the frame of an error.
use framing::decoder::Decoder;
use framing::texts::error_text;
use object_keys::Fault;
use spec_client_go::frame_fault::FrameFault;
use std::alloc::{AllocError, Global};

/// Returns a frame whose lists and objects stand one in another this deep, and its newline.
fn nested(alloc: Global, depth: usize) -> Result<Vec<u8>, AllocError> {
    let lists = depth.saturating_sub(2);
    let mut bytes = Vec::new(alloc);
    bytes.extend_from_slice(b"{\"type\":\"ADDED\",\"object\":{\"n\":")?;
    bytes.resize(bytes.len().saturating_add(lists), b'[')?;
    bytes.resize(bytes.len().saturating_add(lists), b']')?;
    bytes.extend_from_slice(b"}}\n")?;
    Ok(bytes)
}

/// Returns a frame of this many bytes, its newline counted.
fn filled(alloc: Global, len: usize) -> Result<Vec<u8>, AllocError> {
    let mut bytes = Vec::new(alloc);
    bytes.extend_from_slice(b"{\"type\":\"ADDED\",\"object\":{\"n\":\"")?;
    bytes.resize(len.saturating_sub(4), b'x')?;
    bytes.extend_from_slice(b"\"}}\n")?;
    Ok(bytes)
}

/// Returns whether bytes are a frame, where there is no fault, and else none for this fault.
fn is_decoded(alloc: Global, bytes: &[u8], fault: Option<FrameFault>) -> bool {
    let mut decoder = Decoder::new(alloc);
    match &decoder.feed(alloc, bytes) {
        Ok(found) => found.frames.len() == usize::from(fault.is_none()) && found.fault == fault,
        Err(_) => false,
    }
}

/// Returns whether a frame nests 127 deep and no deeper.
fn nests_so_deep(alloc: Global) -> Result<bool, AllocError> {
    let deepest = nested(alloc, 127)?;
    let deeper = nested(alloc, 128)?;
    Ok(is_decoded(alloc, &deepest, None) && is_decoded(alloc, &deeper, Some(FrameFault::NotAFrame)))
}

#[test]
fn a_frame_nests_127_deep(rt: HostRuntime) {
    assert_eq!(rt; nests_so_deep(rt.alloc()), Ok(true));
}

/// Returns whether a frame has 2,097,152 bytes and no more, the newline counted.
fn is_so_long(alloc: Global) -> Result<bool, AllocError> {
    let longest = filled(alloc, 2_097_152)?;
    let longer = filled(alloc, 2_097_153)?;
    Ok(is_decoded(alloc, &longest, None) && is_decoded(alloc, &longer, Some(FrameFault::TooLong)))
}

#[test]
fn a_frame_has_two_mebibytes(rt: HostRuntime) {
    assert_eq!(rt; is_so_long(rt.alloc()), Ok(true));
}

/// The frame of a watch that begins too far on, at which no server opens one.
const TOO_NEW: &str =
    "{\"object\":{\"apiVersion\":\"v1\",\"code\":504,\"kind\":\"Status\",\"message\":\"Timeout: Too large resource version: 9, current: 5\",\"metadata\":{},\"reason\":\"Timeout\",\"status\":\"Failure\"},\"type\":\"ERROR\"}\n";

/// Returns whether the frame of a fault is this text.
fn is_text(alloc: Global, fault: &Fault, text: &str) -> Result<bool, AllocError> {
    Ok(error_text(alloc, fault)?.as_str() == text)
}

/// Returns whether the frame is written so.
fn is_written(alloc: Global) -> Result<bool, AllocError> {
    let fault = Fault::TooNew {
        asked: 9,
        present: 5,
    };
    is_text(alloc, &fault, TOO_NEW)
}

#[test]
fn errors_are_written(rt: HostRuntime) {
    assert_eq!(rt; is_written(rt.alloc()), Ok(true));
}
