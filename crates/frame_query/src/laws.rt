// A law of the definitions that the clause of `parse_query` rests on. The function does nothing.
ghost use Rattle.meaning_query.specs.QueryLaw.{ReadsQuery};

/// What is read of a text is a mask that it stands for as a query, and each such mask is read. So a text stands for
/// one mask at most, and nothing is read exactly where it is no query.
pub fn reads_query(text: &str)
    ensures { ReadsQuery text.now }
{
    let _text = text;
}
