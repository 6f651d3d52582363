// What is read back of JSON text.
ghost use Rattle.std.specs.Prelude.{◌≤◌, length};
ghost use Rattle.meaning_json.specs.tables.Table.{Table};
ghost use Rattle.meaning_json.specs.JsonWrite.{column_labels};
ghost use Rattle.json_frames.specs.ReadBack.{IsPlain, AreAscending, SplitReadsBack, RecordsReadBack};

/// What the JSON text of labels and rows reads as, for every frame of one level in which each column of truth values or
/// texts has a cell that isn't missing: that frame, without the names of its level and of its columns. It does nothing.
pub fn split_reads_back()
    ensures { (t : Table) → IsPlain t → SplitReadsBack t }
{}

/// What the JSON text of records reads as, for every such frame that has a row and whose columns' labels are different
/// texts in ascending order: that frame on the default axis, without the name of its columns. It does nothing.
pub fn records_read_back()
    ensures { (t : Table) → IsPlain t → 1 ≤ length t.labels → AreAscending (column_labels t) → RecordsReadBack t }
{}
