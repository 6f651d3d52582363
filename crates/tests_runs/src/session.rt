// Statements that are handed to a session one by one.
use outside_io::MemFiles;
use script_session::{FileNames, Session};
use script_syntax::{Statement, parse};
use std::alloc::Global;

const SCRIPT: &[u8] =
    b"a = pd.Series([1, 2])\nb = a\nc = a.copy()\nb.iloc[1] = -9\nprint(a.iloc[1], end='|')\nprint(c.iloc[1])\nprint('a\\tb')\n";

fn prints(
    session: &mut Session,
    files: &mut MemFiles,
    names: &FileNames,
    statement: &Statement,
    wanted: &str,
) -> bool {
    match session.step(files, names, statement) {
        Ok(outcome) => outcome.printed.as_str() == wanted,
        Err(_) => false,
    }
}

// Whether the statements of the script print these.
fn script_prints(alloc: Global, session: &mut Session, wanted: &[&str]) -> bool {
    let Ok(script) = parse(alloc, SCRIPT) else {
        return false;
    };
    if script.len() != wanted.len() {
        return false;
    }
    let mut files = MemFiles::new(alloc);
    let names = FileNames::new(alloc);
    for i in 0..script.len() {
        if !prints(session, &mut files, &names, script.statement(i), wanted[i]) {
            return false;
        }
    }
    true
}

#[test]
fn statements_are_done_one_by_one(rt: HostRuntime) {
    let mut session = Session::new(rt.alloc());
    let printed = ["", "", "", "", "-9|", "2\n", "a\tb\n"];
    assert!(rt; script_prints(rt.alloc(), &mut session, &printed));
    assert!(rt; session.texts().len() == 1);
    assert!(rt; session.forget("a"));
    assert!(rt; !session.forget("a"));
}
