// Files that don't tell what they hold.
use crate::harness::{BOTH_AMPLE, Left, leaves};
use outside_io::{Fetch, Files, Got};
use script_run::Status;

const SCRIPT: &[u8] =
    b"print(len(pd.read_csv('t')))\nprint(len(pd.read_csv('t')))\nprint(len(pd.read_csv('t')))\n";

// Files that change: the fetches find the script, a file of one row, one of two rows, and then none.
#[derive(Drop)]
struct ChangingFiles {
    left: &'static [u8],
    absences: u64,
    fetches: u64,
    taken: u64,
}

impl Files for ChangingFiles {
    ghost use Rattle.std.specs.Prelude.{None};

    ghost seen = { λ files. record {
      contents = None;
      rest = None;
      faults = 0;
      absences = files.absences;
      fetches = files.fetches;
      taken = files.taken;
    } };

    ghost tells = { λ _ told. Prim.cc };

    fn fetch(&mut self, _path: &str) -> Fetch {
        self.taken = 0;
        self.fetches = self.fetches.saturating_add(1);
        self.left = match self.fetches {
            1 => SCRIPT,
            2 => b"a\n5\n",
            3 => b"a\n5\n6\n",
            _ => b"",
        };
        if self.left.is_empty() {
            self.absences = self.absences.saturating_add(1);
            return Fetch::Absent;
        }
        Fetch::Fetched
    }

    fn read(&mut self, piece: &mut [u8]) -> Got {
        let count = self.left.len().min(piece.len());
        if count == 0 {
            return Got::End;
        }
        piece[..count].copy_from_slice(&self.left[..count]);
        self.left = &self.left[count..];
        self.taken = self.taken.saturating_add(count as u64);
        Got::Bytes(count)
    }
}

#[test]
fn a_file_that_changes_is_read_anew(rt: HostRuntime) {
    let mut files = ChangingFiles {
        left: b"",
        absences: 0,
        fetches: 0,
        taken: 0,
    };
    let words = ["pdscript", "s", "t=t"];
    let left = Left {
        status: Status::Fault,
        output: b"1\n2\n",
        errors: b"line 3: FileNotFoundError: t\n",
    };
    assert!(rt; leaves(rt.alloc(), &words, &mut files, BOTH_AMPLE, left) == Ok(true));
}
