// What a reader finds in CSV text.
ghost use Rattle.std.specs.Prelude.{Bool};
ghost use Rattle.meaning_format.specs.tables.Table.{Table};
ghost use Rattle.frame_format.specs.ReadBack.{ReadsBack};

/// What a reader of RFC 4180 finds in the CSV text of a table, with the labels of its rows or without,
/// for every table. It does nothing.
///
/// The records of the text are the header and a record for each row, in order, and their fields are
/// those that were written, whatever commas, quotes and line ends they hold. A record without a field,
/// as of a frame without columns, reads as one empty field.
pub fn reads_back()
    ensures { (index : Bool) (t : Table) → ReadsBack index t }
{}
