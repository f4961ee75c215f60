//! What is always the same, and takes no memory.
ghost use Rattle.std.specs.Prelude.{◌≡◌};
ghost use Rattle.chunked.specs.Bodies.{last_chunk};
ghost use Rattle.spec_http.specs.Replies.{watch_head, reply_text};
ghost use Rattle.spec_api.specs.Replies.{outcome};
ghost use Rattle.spec_api.specs.Refusals.{no_memory};
ghost use Rattle.spec_api.specs.Verbs.{refused};

/// Returns the bytes of the head of a watch. It takes no memory.
pub fn watch_head() -> &'static [u8]
    ensures { result.now ≡ watch_head }
{
    b"HTTP/1.1 200 OK\r\nContent-Type: application/json\r\nTransfer-Encoding: chunked\r\nConnection: close\r\n\r\n"
}

/// Returns the bytes that end a watch. It takes no memory.
pub fn last_chunk() -> &'static [u8]
    ensures { result.now ≡ last_chunk }
{
    b"0\r\n\r\n"
}

/// Returns the bytes of the reply to a request for which there is no memory. It takes none.
pub fn out_of_memory() -> &'static [u8]
    ensures { result.now ≡ reply_text (outcome (refused no_memory)) }
{
    b"HTTP/1.1 503 Service Unavailable\r\nContent-Type: application/json\r\nContent-Length: 131\r\nConnection: close\r\n\r\n{\"apiVersion\":\"v1\",\"code\":503,\"kind\":\"Status\",\"message\":\"no memory\",\"metadata\":{},\"reason\":\"ServiceUnavailable\",\"status\":\"Failure\"}"
}
