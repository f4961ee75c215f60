//! Compactions: the floor of each kind, raised to a revision.
use crate::servers::Server;
use object_keys::Fault;

impl Server {
    ghost use Rattle.std.specs.Prelude.{◌≡◌, Ok, Err, OnOk, OnErr, IfErr};
    ghost use Rattle.spec_server.specs.Servers.{compact_by};
    ghost use Rattle.object_keys.specs.Faults.{refusal_of};

    /// Raises the floor of each kind to a revision, if it is lower. The error is a revision above the present one, and changes
    /// nothing. It takes no memory.
    pub fn compact(&mut self, revision: u64) -> Result<(), Fault>
        ensures ok { OnOk result (compact_by self.old revision ≡ Ok self.new) }
        ensures refused { IfErr result (λ e. compact_by self.old revision ≡ Err (refusal_of e)) }
        ensures err { OnErr result (self.new ≡ self.old) }
    {
        let present = self.revision();
        if present < revision {
            return Err(Fault::TooNew {
                asked: revision,
                present,
            });
        }
        self.caches.compact(revision);
        Ok(())
    }
}
