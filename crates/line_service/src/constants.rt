//! What is always the same, and takes no memory.
ghost use Rattle.std.specs.Prelude.{◌≡◌};
ghost use Rattle.line_service.specs.Shown.{no_memory_line};

/// Returns the line that tells that there was no memory for a request. It takes none.
pub fn no_memory_line() -> &'static [u8]
    ensures { result.now ≡ no_memory_line }
{
    b"503 {\"apiVersion\":\"v1\",\"code\":503,\"kind\":\"Status\",\"message\":\"no memory\",\"metadata\":{},\"reason\":\"ServiceUnavailable\",\"status\":\"Failure\"}\n"
}
