//! What connects to a server.
ghost use Rattle.std.specs.Prelude.{IfOk, OnErr, Option, None, Some, ⊤};

use std::io;
use std::io::{Read, Write};

/// What connects to a server, again for each request.
pub trait Connect {
    /// What is read of a connection; it is read byte by byte where heads are, so let it be buffered.
    type Reader: Read + Drop;
    /// What is written to a connection.
    type Writer: Write + Drop;

    /// What connects is after it tried to make a connection for a request and its reply, and both ends of that, if it came about: any relation, and none
    /// where an implementer gives none.
    ghost connects: { Self → Option (Self.Reader × Self.Writer) → Self → Type 0 } = { λ before ends after. ⊤ };

    /// The same of a connection for a watch.
    ghost connects_to_watch: { Self → Option (Self.Reader × Self.Writer) → Self → Type 0 } = { λ before ends after. ⊤ };

    /// Returns both ends of a new connection, for a request and its reply.
    fn connect(&mut self) -> io::Result<(Self::Reader, Self::Writer)>
        ensures made { IfOk result (λ ends. connects self.old (Some ends) self.new) }
        ensures none { OnErr result (connects self.old None self.new) };

    /// Returns both ends of a new connection for a watch, which may last longer than a reply takes.
    fn connect_to_watch(&mut self) -> io::Result<(Self::Reader, Self::Writer)>
        ensures made { IfOk result (λ ends. connects_to_watch self.old (Some ends) self.new) }
        ensures none { OnErr result (connects_to_watch self.old None self.new) };
}
