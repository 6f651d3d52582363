// The file of the demonstration.
ghost use Rattle.std.specs.Prelude.{◌≡◌, IfOk};
ghost use Rattle.std.specs.FinMap.{empty, insert};
ghost use Rattle.meaning_words.specs.Demonstration.{orders_file, orders_name};

use crate::orders::{orders_file, orders_name};
use cell_core::NoMemory;
use outside_io::{Fetch, Files, Got, MemFiles};
use std::alloc::Global;
use std::marker::Model;

/// The file of the demonstration, in memory. No call of it fails.
#[derive(Drop)]
pub struct DemoFiles {
    files: MemFiles,
}

impl Model for DemoFiles {
    ghost use Rattle.std.specs.Prelude.{◌≡◌, []};
    ghost use Rattle.outside_io.specs.Memory.{FilesInMemory, files_code};

    ghost Value = { FilesInMemory };

    ghost coded = { files_code };

    ghost view = { λ s. s.files };

    ghost invariant = { λ s. (s.files.faults ≡ 0) × (s.files.failing ≡ []) };
}

impl DemoFiles {
    /// The file of so many orders.
    pub fn with_orders(alloc: Global, orders: u32) -> Result<DemoFiles, NoMemory>
        ensures { IfOk result (λ files. files.contents ≡ insert empty orders_name (orders_file orders)) }
    {
        let file = orders_file(alloc, orders)?;
        let mut files = MemFiles::new(alloc);
        files.hold(orders_name(), file.as_bytes())?;
        Ok(DemoFiles { files })
    }
}

impl Files for DemoFiles {
    ghost use Rattle.std.specs.Prelude.{Some};

    ghost seen = { λ s. record {
      contents = Some s.contents;
      rest = Some s.rest;
      faults = 0;
      absences = s.absences;
      fetches = s.fetches;
      taken = s.taken;
    } };

    ghost tells = { λ _ told. Prim.cc };

    fn fetch(&mut self, path: &str) -> Fetch {
        self.files.fetch(path)
    }

    fn read(&mut self, piece: &mut [u8]) -> Got {
        self.files.read(piece)
    }
}
