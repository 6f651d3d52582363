// The names of a command line, each with the path that it stands for.
ghost use Rattle.std.specs.Prelude.{◌≡◌, [], ◌∷◌, ◌++◌, length, option_map, OnOk, OnErr};
ghost use Rattle.meaning_laws.specs.script.Reading.{path_of_name};
ghost use Rattle.script_state.specs.Reads.{paths_of};

use cell_core::{NoMemory, Words};
use std::alloc::Global;
use std::marker::Model;

/// A name of the command line and the path that it stands for.
#[derive(Drop)]
pub struct FileName {
    /// The name.
    pub name: Words,
    /// The path.
    pub path: Words,
}

/// The names of the command line with their paths, in the order in which they were given.
#[derive(Drop)]
pub struct FileNames {
    items: Vec<FileName>,
}

impl Model for FileNames {
    ghost use Rattle.std.specs.Prelude.{List};
    ghost use Rattle.script_state.specs.declared.file_names.FileName.{FileName as Pair};

    ghost Value = { List Pair };

    ghost view = { λ f. f.items.items };
}

impl FileNames {
    /// No names. Takes no memory.
    pub fn new(alloc: Global) -> FileNames
        ensures { result ≡ [] }
    {
        FileNames {
            items: Vec::new(alloc),
        }
    }

    /// How many names there are.
    pub fn len(&self) -> usize
        ensures { result ≡ length self.now }
    {
        self.items.len()
    }

    /// The path that a name stands for, if it stands for one. Takes no memory.
    pub fn path(&self, name: &str) -> Option<&str>
        ensures { option_map (λ path. path.now) result ≡ path_of_name (paths_of self.now) name.now }
    {
        path_in(&self.items, name)
    }

    /// Puts a name with its path after the others. `NoMemory` leaves the names as they were.
    pub fn push(&mut self, name: Words, path: Words) -> Result<(), NoMemory>
        ensures ok { OnOk result (self.new ≡ self.old ++ record { name = name; path = path } ∷ []) }
        ensures err { OnErr result (self.new ≡ self.old) }
    {
        self.items.push(FileName { name, path })?;
        Ok(())
    }
}

// The path of the first pair with the name.
fn path_in<'a>(pairs: &'a [FileName], name: &str) -> Option<&'a str>
    ensures { option_map (λ path. path.now) result ≡ path_of_name (paths_of pairs.now) name.now }
{
    let mut rest = pairs;
    while let [first, after @ ..] = rest {
        if first.name.as_str() == name {
            return Some(first.path.as_str());
        }
        rest = after;
    }
    None
}
