//! What is asked, apart from running out of memory.
ghost use Rattle.std.specs.Prelude.{◌≡◌, IfOk};
ghost use Rattle.object_keys.specs.declared.fault.Fault.TheVariants.{NoMemory};
ghost use Rattle.http_request_reader.specs.declared.received.Received.TheVariants as received;
ghost use Rattle.http_request_reader.specs.Answered.{Answers, Refuses};

use crate::received::Received;
use http_request_head::ReadFault;
use object_keys::Fault;
use request_decoding::Asked;

/// Returns what is asked, or why it is refused; out of memory is no refusal of the request.
pub(crate) fn answered(asked: Result<Asked, Fault>) -> Result<Received, ReadFault>
    ensures answers { Answers asked result }
    ensures memory { IfOk result (λ r. r ≡ received.Refused NoMemory → ⊥) }
{
    match asked {
        Ok(asked) => Ok(Received::Asked(asked)),
        Err(fault) => refused(fault),
    }
}

/// Returns why a request is refused; out of memory is no refusal of the request.
pub(crate) fn refused(fault: Fault) -> Result<Received, ReadFault>
    ensures refuses { Refuses fault result }
    ensures memory { IfOk result (λ r. r ≡ received.Refused NoMemory → ⊥) }
{
    match fault {
        Fault::NoMemory => Err(ReadFault::Want),
        fault => Ok(Received::Refused(fault)),
    }
}
