//! Laws of bodies in chunks.
ghost use Rattle.chunked.specs.Laws.{WrittenIsABody, BodiesAreOne, BodiesAreRead, NothingIsInvented, WrittenIsRead};

/// What a writer writes of chunks and at the end is a body of these chunks, whatever follows it.
pub fn written_is_a_body()
    ensures { WrittenIsABody }
{}

/// An input begins with at most one body: its chunks and what follows it are settled.
pub fn bodies_are_one()
    ensures { BodiesAreOne }
{}

/// A body is read as what it is, in any pieces, if the lines before its chunks are not too long.
pub fn bodies_are_read()
    ensures { BodiesAreRead }
{}

/// Whatever the input is, a body or not: what is read of it is a beginning of each body that begins with what was read, and
/// there is one. So of `1g` nothing is read.
pub fn nothing_is_invented()
    ensures { NothingIsInvented }
{}

/// What a writer writes is read back, in any pieces.
pub fn written_is_read()
    ensures { WrittenIsRead }
{}
