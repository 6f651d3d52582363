//! What the functions of `pd` make of their arguments and of files: `pd.Series`, `pd.DataFrame` and `pd.read_csv`.
//!
//! [`made_series`] and [`made_frame`] bind the arguments to the function's signature (the crate `frame_signatures`) and make
//! a table. [`reads_file`] says whether a function reads a file. [`file_name`] asks a call for the name of its file,
//! before the file is read; it refuses what all calls refuse. [`read_frame`] makes the table of the file's bytes. The
//! contracts say that the answer is the one that is meant, or its first fault; the definitions are
//! `specs/Functions.antt` of the crate `meaning_call`, `specs/Make.antt` of `meaning_form`, `specs/Readers.antt` of
//! `meaning_method` and `specs/CsvRead.antt` of `meaning_csv`.
//!
//! A column is made of the scalars of a list (`scalars`). The labels of the rows are the scalars or the
//! tuples of the index (`index`), or they are 0, 1 and so on (`axes`). A Series is one column, cast where a kind is given
//! (`series`). A frame is made of a dict: each key by the place of its last value, then the columns of
//! the values (`pairs`), and then the number of rows that all have (`frames`).
//!
//! The name of a file is an argument (`names`). The dict of `dtype` is read as kinds that are named for labels
//! (`kinds`), the file as columns (the crate `csv_frames`), and the columns are moved into a frame (`file_frames`), all
//! in their order (`reading`). [`headings_of`] and [`blocks_of`] make the parts of such a frame for other readers.
//!
//! ```text
//! // `pd.Series([7, None])`: `args` has one argument, a list of two scalars
//! let table = made_series(alloc, &store, &mut dict, &args)?;
//! // `pd.read_csv("sales")`: `args` has one argument, a text
//! let name = file_name(&store, &dict, Function::ReadCsv, &args)?;
//! let bytes = b"id,name\n1,ann\n2,\n";
//! let table = read_frame(alloc, &store, &mut dict, args.as_slice(), bytes)?;
//! ```
#![tactic(auto)]

mod axes;
mod file_frames;
mod frames;
mod given;
mod index;
mod kinds;
mod names;
mod pairs;
mod reading;
mod scalars;
mod series;

pub use file_frames::{blocks_of, headings_of};
pub use given::{made_frame, made_series};
pub use names::{file_name, reads_file};
pub use reading::read_frame;
