// A law of the definitions that the clauses of `run` rest on. The function does nothing.
ghost use Rattle.std.specs.Prelude.{map, string_bytes};
ghost use Rattle.script_session.specs.cells.Text.{Contents};
ghost use Rattle.script_run.specs.OneResult.{HasOneResult};

/// Any words have a result in any contents of files, and no two that give the same peak: the number P of `--stats` is left
/// open, between the rows of the tables that names stand for and the charge. So the result of which [`run`](crate::run)
/// writes all or a front is at most one for each P.
pub fn one_result(words: &Vec<String>)
    ensures { (held : Contents) → HasOneResult (map string_bytes words.now.items) held }
{
    let _words = words;
}
