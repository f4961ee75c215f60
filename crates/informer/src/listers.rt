//! Listers, and what they look at.
ghost use Rattle.std.specs.Prelude.{◌≡◌, IfOk, IfSome};
ghost use Rattle.informer.specs.Looked.{map_known, KnowsMore};

use crate::copies::MapReader;
use crate::published::Published;
use crate::rules::{BatchRule, Sees};
use crate::views::MapView;
use core::mem::replace_with;
use indexer::Indexed;
use left_right::reader::Reading;
use std::alloc::AllocError;

/// Returns the lister, and a copy of what is published. None where the informer is closed. The error is running out of memory.
fn copy_of_published(lister: Lister) -> (Lister, Result<Option<Indexed>, AllocError>)
    ensures found { IfOk result.1 (λ found. IfSome found (λ map. map ≡ map_known result.0)) }
    ensures knows { KnowsMore lister result.0 }
{
    match lister.look() {
        Ok(look) => {
            let copy = look.indexed().try_copy();
            (look.leave(), copy.map(Some))
        }
        Err(lister) => (lister, Ok(None)),
    }
}

/// The right to look at what an informer has published, one look at a time.
#[derive(Drop)]
pub struct Lister {
    pub(crate) reader: MapReader,
}

impl Lister {
    ghost use Rattle.std.specs.Prelude.{◌≡◌, IfOk, IfErr, IfSome};
    ghost use Rattle.spec_client_go.specs.Informers.{nothing, all_applied};
    ghost use Rattle.reflector.specs.Deltas.{deltas_of};
    ghost use Rattle.informer.specs.Knowing.{StartsWithAll};
    ghost use Rattle.informer.specs.Listers.{known, seen, shown};
    ghost use Rattle.informer.specs.Looked.{map_known, KnowsMore};
    ghost use Rattle.informer.specs.Published.{all_of};

    /// Returns a look at the map that is published. It waits for nobody and takes no memory. The error is that the informer is
    /// closed, and gives the lister back.
    pub fn look(self) -> Result<Look, Lister>
        ensures shown { IfOk result (λ l. shown l ≡ all_applied nothing (deltas_of (all_of (seen l)))) }
        ensures later { IfOk result (λ l. StartsWithAll (seen l) (known self)) }
        ensures err { IfErr result (λ l. known l ≡ known self) }
    {
        match self.reader.enter_as::<Sees>() {
            Ok(reading) => Ok(Look { reading }),
            Err(reader) => Err(Lister { reader }),
        }
    }

    /// Returns a copy of what is published, which shares the objects, and lets the informer publish meanwhile. It waits for nobody. None where
    /// the informer is closed. The error is running out of memory.
    pub fn copy(&mut self) -> Result<Option<Indexed>, AllocError>
        ensures found { IfOk result (λ found. IfSome found (λ map. map ≡ map_known self.new)) }
        ensures knows { KnowsMore self.old self.new }
    {
        replace_with(self, (), |lister, ()| copy_of_published(lister))
    }
}

/// A look at a map that was published. While it lasts, the map stays as it is. The next publish but one waits for its end.
pub struct Look {
    pub(crate) reading: Reading<Published, MapView, BatchRule>,
}

impl Look {
    ghost use Rattle.std.specs.Prelude.{◌≡◌, ◌∷◌, []};
    ghost use Rattle.informer.specs.Listers.{known, known_then, shown};

    /// Returns the map. It takes no memory.
    pub fn indexed(&self) -> &Indexed
        ensures { result.now ≡ shown self.now }
    {
        &self.reading.get().indexed
    }

    /// Ends the look, and returns the lister, which knows what was seen. It waits for nobody and takes no memory.
    pub fn leave(self) -> Lister
        ensures { known result ≡ known_then self }
    {
        let Look { reading } = self;
        Lister {
            reader: reading.leave(),
        }
    }
}

impl Drop for Look {
    fn drop(self) {
        let Look { reading } = self;
        drop(reading.leave());
    }
}
