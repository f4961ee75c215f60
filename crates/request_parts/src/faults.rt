//! Why a query is not read.
ghost use Rattle.std.specs.Prelude.{◌≡◌};
ghost use Rattle.request_parts.specs.Faults.{fault_of, query_fault};
ghost use Rattle.request_parts.specs.declared.faults.MemberFault.TheVariants as member;
ghost use Rattle.request_parts.specs.declared.faults.QueryFault.TheVariants as query;

use object_keys::Fault;
use spec_api::refusals::Part;
use std::alloc::AllocError;
use thiserror::Error;

/// Why a query is not read.
#[derive(Debug, Clone, Copy, Error)]
pub enum QueryFault {
    /// It is not understood, or not served so far.
    #[error("the query is not understood")]
    BadQuery,
    /// All else is understood, but its page token is none.
    #[error("the page token is none")]
    BadToken,
    /// Memory was wanted and refused.
    #[error("out of memory")]
    NoMemory,
}

/// Why a member of a query, which is no page token, is not read.
#[derive(Debug, Clone, Copy, Error)]
pub enum MemberFault {
    /// It is not understood.
    #[error("the query is not understood")]
    BadQuery,
    /// Memory was wanted and refused.
    #[error("out of memory")]
    NoMemory,
}

impl From<AllocError> for QueryFault {
    ghost from_gives = { λ _ e. e ≡ query.NoMemory };

    fn from(_: AllocError) -> QueryFault {
        QueryFault::NoMemory
    }
}

impl From<AllocError> for MemberFault {
    ghost from_gives = { λ _ e. e ≡ member.NoMemory };

    fn from(_: AllocError) -> MemberFault {
        MemberFault::NoMemory
    }
}

impl From<MemberFault> for QueryFault {
    ghost from_gives = { λ fault e. e ≡ fault_of fault };

    fn from(fault: MemberFault) -> QueryFault {
        match fault {
            MemberFault::BadQuery => QueryFault::BadQuery,
            MemberFault::NoMemory => QueryFault::NoMemory,
        }
    }
}

impl From<QueryFault> for Fault {
    ghost from_gives = { λ q f. f ≡ query_fault q };

    fn from(fault: QueryFault) -> Fault {
        match fault {
            QueryFault::BadQuery => Fault::BadRequest(Part::Query),
            QueryFault::BadToken => Fault::BadRequest(Part::Token),
            QueryFault::NoMemory => Fault::NoMemory,
        }
    }
}
