// Images that are at hand.
ghost use Rattle.std.specs.Prelude.{◌≡◌};

use call_table::{Bytes, Names};
use outside::{Calls, Images, LoadFault, MemImages};
use std::alloc::Global;
use std::marker::Model;

/// Images in memory that never fail. Contracts see them as the list of the files.
#[derive(Debug, Drop)]
pub struct KeptImages {
    images: MemImages,
}

impl Model for KeptImages {
    ghost use Rattle.std.specs.Prelude.{◌≡◌, [], List};
    ghost use Rattle.outside.specs.Outside.{NamedFile};

    ghost Value = { List NamedFile };

    ghost view = { λ s. s.images.files };

    ghost invariant = { λ s. s.images.plan.fails ≡ [] };
}

impl KeptImages {
    /// These files.
    pub fn new(alloc: Global, files: Names) -> KeptImages
        ensures { result ≡ files }
    {
        KeptImages {
            images: MemImages::new(files, Calls::new(alloc)),
        }
    }
}

impl Images for KeptImages {
    ghost use Rattle.std.specs.Prelude.{Some};

    ghost files = { λ s. Some s };

    ghost faults = { λ s. 0 };

    /// The bytes of the first file of that name. It never fails.
    #[tactic(auto, using(crate::proofs::Keeping::never_failed, crate::proofs::Keeping::still_none))]
    fn load(&mut self, alloc: Global, name: &str) -> Result<Bytes, LoadFault> {
        match self.images.load(alloc, name) {
            Ok(bytes) => Ok(bytes),
            Err(fault) => Err(fault),
        }
    }
}
