//! What a whole table is: definitions alone, in `specs/`, which the contracts of the store and of all forms cite.
//!
//! A table is a Series or a frame. It has a name or none for each of its one to four levels, a
//! tuple of labels for each row, and its columns, each with a kind and a cell for each row.
//!
//! ```text
//! TableOf L C        a table of labels L and cells C
//! Table              the same of texts themselves: TableOf LabelValue CellValue
//! table_value        a table whose texts are numbers of a dictionary, as a Table
//! IsValid            its parts fit one another, and it is within the limits of rows, columns and cells
//! cut_columns with_column without_column with_labels with_values    what a call makes of a table
//! ```
#![tactic(auto)]
