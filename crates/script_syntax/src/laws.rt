// Laws of the definitions that other clauses rest on. The functions do nothing.
ghost use Rattle.script_syntax.specs.Cut.{IsCut};
ghost use Rattle.script_syntax.specs.OneReading.{HasOneReading};

/// The pieces that a text is cut into, joined, are the text. None is empty, and each ends with its first line feed
/// at which no more brackets were opened than closed, or is the last and ends with the text. A bracket in a text or
/// in a comment doesn't count, and a line feed ends both.
pub fn cut_law(bytes: &[u8])
    ensures { IsCut bytes.now }
{
    let _bytes = bytes;
}

/// Any bytes, of any number, are a script in one way and have no syntax line, or they are no script and have one
/// syntax line.
pub fn one_reading(bytes: &[u8])
    ensures { HasOneReading bytes.now }
{
    let _bytes = bytes;
}
