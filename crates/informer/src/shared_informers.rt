//! Informers, one of each kind, and the listers of one thread more.
ghost use Rattle.std.specs.Prelude.{◌<◌, ◌^◌, IfOk};
ghost use Rattle.informer.specs.SharedInformers.{AreNew, AreSame, AreTold};

use crate::kind_listers::Listers;
use crate::shared::SharedInformer;
use object_keys::PerKind;
use std::alloc::{AllocError, Global};
use std::sync::Wait;

/// Returns an informer of each kind, which has published nothing yet, with room for so many listers. The error is running out of memory.
pub fn open_informers<R: Wait>(
    runtime: &R,
    alloc: Global,
    listers: usize,
) -> Result<PerKind<SharedInformer<'_, R>>, AllocError>
    requires { (0 < listers) × (listers < 2 ^ 32) }
    ensures { IfOk result AreNew }
{
    PerKind::try_made(|_| SharedInformer::open(runtime, alloc, listers))
}

/// Returns a lister of each kind, for one thread, that was told of all that the informer of its kind has published. The error is that there is no
/// room for one more, or running out of memory.
pub fn listers_of<R: Wait>(
    informers: &mut PerKind<SharedInformer<'_, R>>,
) -> Result<Listers, AllocError>
    ensures same { AreSame informers.old informers.new }
    ensures told { IfOk result (λ made. AreTold informers.old made.listers) }
{
    let listers = informers.try_map_mut(|informer| informer.lister())?;
    Ok(Listers { listers })
}
