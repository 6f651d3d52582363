//! Definitions of calls: the signatures of methods and functions, and how arguments are bound to them.
//!
//! The enums here are the words of the one table of signatures (`specs/Signature.antt`), which the code has again in the
//! crate `frame_signatures`. How arguments are bound, and what all calls refuse, stands in `specs/Binding.antt`. Forms that are no
//! calls, operators, selections and settings, don't rest on this crate, so a new method proves none of them anew.
//!
//! ```text
//! // the one parameter of `head(n=5)`
//! Parameter {
//!     name: ParameterName::N,
//!     accepted: Accepted::Whole,
//!     omitted: Omitted::Number(5),
//!     listed: Choices::Any,
//! }
//! ```
#![tactic(auto)]

/// A method of a Series or a frame, by what it makes. Where the two have a method of one name with
/// different arguments, it is two methods here.
///
/// What is said of each is the rule of the pandas user guide, "Essential basic functionality" and "Working
/// with missing data", or of the section that stands with it.
#[derive(Clone, Copy, PartialEq, Eq)]
pub enum Method {
    /// Of each column by itself: another of as many cells.
    Columns(ColumnMethod),
    /// One cell of each column.
    Summary(SummaryMethod),
    /// Some rows, all in an order, or marks of them.
    Rows(RowMethod),
    /// Other levels of the rows' labels, or other names of levels.
    Levels(LevelMethod),
    /// The rows or the columns that labels name.
    Labels(LabelMethod),
    /// Of the whole table: a copy, its ends, other headings, fewer columns, or text.
    Table(TableMethod),
    /// Of the same cells in another shape.
    Reshape(ReshapeMethod),
    /// Of groups, of windows, or of two frames.
    Other(OtherMethod),
}

/// A method that makes of each column another, of as many cells.
#[derive(Clone, Copy, PartialEq, Eq)]
pub enum ColumnMethod {
    /// `isna`: whether each cell is missing.
    Isna,
    /// `notna`: whether each cell is present.
    Notna,
    /// `fillna`: a scalar in place of each missing cell.
    Fillna,
    /// `isin`: whether each cell is in a list.
    Isin,
    /// `astype`: the cells as cells of a kind.
    Astype,
    /// `shift`: the cells moved by a number of rows.
    Shift,
    /// `cumsum`: at each row the sum of the present cells up to it, and NA where its own cell is missing.
    Cumsum,
    /// `cummin`: at each row the least of the present cells up to it, and NA where its own cell is missing.
    Cummin,
    /// `cummax`: at each row the greatest of the present cells up to it, and NA where its own cell is missing.
    Cummax,
}

/// A method that makes one cell of each column.
#[derive(Clone, Copy, PartialEq, Eq)]
pub enum SummaryMethod {
    /// `sum`: the sum of the present cells.
    Sum,
    /// `min`: the least of the present cells.
    Min,
    /// `max`: the greatest of the present cells.
    Max,
    /// `any`: whether one of the present cells is true.
    Any,
    /// `all`: whether all present cells are true.
    All,
    /// `count`: how many cells are present.
    Count,
    /// `nunique`: how many different cells are present.
    Nunique,
}

/// A method that takes some rows, puts all in an order, or marks those that stand twice.
#[derive(Clone, Copy, PartialEq, Eq)]
pub enum RowMethod {
    /// `dropna`: the rows without a missing cell.
    Dropna,
    /// `duplicated` of a Series: whether an equal cell stands in an earlier row.
    DuplicatedSeries,
    /// `duplicated` of a frame: whether an earlier row has equal cells.
    DuplicatedFrame,
    /// `sort_values` of a Series: the rows in the order of their cells.
    SortValuesSeries,
    /// `sort_values` of a frame: the rows in the order of the cells of columns.
    SortValuesFrame,
    /// `sort_index`: the rows in the order of their labels.
    SortIndex,
}

/// A method that makes other levels of the labels of the rows, or other names of levels.
#[derive(Clone, Copy, PartialEq, Eq)]
pub enum LevelMethod {
    /// `rename_axis`: other names of the levels of the rows' labels.
    RenameAxis,
    /// `set_index` of a frame: columns as the labels of its rows.
    SetIndex,
    /// `reset_index`: 0, 1 and so on as the labels of the rows; the old labels become columns or are dropped.
    ResetIndex,
    /// `droplevel`: the rows' labels without a level.
    Droplevel,
    /// `swaplevel`: two levels of the rows' labels, each in the place of the other.
    Swaplevel,
}

/// A method that takes the rows, or the columns, that labels name.
#[derive(Clone, Copy, PartialEq, Eq)]
pub enum LabelMethod {
    /// `reindex` of a Series: the rows of given labels, missing where there is none.
    ReindexSeries,
    /// `reindex` of a frame: the rows and the columns of given labels, missing where there is none.
    ReindexFrame,
    /// `xs`: the rows that have a label on a level.
    Xs,
}

/// A method that makes of a whole table a copy, its first or last rows, other headings, fewer columns,
/// or text.
#[derive(Clone, Copy, PartialEq, Eq)]
pub enum TableMethod {
    /// `copy`: the table again, as an object of its own.
    Copy,
    /// `head`: the first `n` rows.
    Head,
    /// `tail`: the last `n` rows.
    Tail,
    /// `rename` of a Series: another name, or none.
    RenameSeries,
    /// `rename` of a frame: other labels of its columns.
    RenameFrame,
    /// `drop` of a frame: the frame without some columns.
    DropColumns,
    /// `to_frame` of a Series: the frame of the one column.
    ToFrame,
    /// `to_csv`: the table as CSV text.
    ToCsv,
}

/// A method that makes of labels of columns labels of rows, or the other way round ("Reshaping and pivot
/// tables").
#[derive(Clone, Copy, PartialEq, Eq)]
pub enum ReshapeMethod {
    /// `stack` of a frame: its columns as a level of the rows' labels.
    Stack,
    /// `unstack` of a Series: a level of its rows' labels as columns.
    Unstack,
    /// `pivot` of a frame: the cells of a column as labels of columns.
    Pivot,
    /// `pivot_table` of a frame: a pivot whose cells are aggregated.
    PivotTable,
    /// `melt` of a frame: its columns as rows.
    Melt,
}

/// A method of groups, of windows or of two frames.
#[derive(Clone, Copy, PartialEq, Eq)]
pub enum OtherMethod {
    /// `groupby` of a frame: groups of rows ("Group by: split-apply-combine").
    Groupby,
    /// `rolling`: at each row a window of so many rows ("Windowing operations").
    Rolling,
    /// `expanding`: at each row the window of all rows up to it ("Windowing operations").
    Expanding,
    /// `merge` of a frame: its rows with those of another frame by equal keys
    /// ("Merge, join, concatenate and compare").
    Merge,
}

/// A method of the texts of a Series, which stands behind `str` ("Working with text data"). A text is its list of code
/// points, and NA stays NA.
#[derive(Clone, Copy, PartialEq, Eq)]
pub enum StrMethod {
    /// `len`: how many code points each text has.
    Len,
    /// `strip`: each text without the white space at its ends.
    Strip,
    /// `startswith`: whether each text begins with another.
    Startswith,
    /// `endswith`: whether each text ends with another.
    Endswith,
    /// `contains`: whether another text stands at some place of each.
    Contains,
    /// `slice`: Python's slice of each text.
    Slice,
    /// `zfill`: zeros in front of each text, after a first sign, up to a width.
    Zfill,
}

/// A function of `pd`.
#[derive(Clone, Copy, PartialEq, Eq)]
pub enum Function {
    /// `pd.Series`: a Series of scalars.
    Series,
    /// `pd.DataFrame`: a frame of the lists in a dict.
    DataFrame,
    /// `pd.read_csv`: the frame of a file of comma-separated values.
    ReadCsv,
    /// `pd.concat`: Series and frames put together ("Merge, join, concatenate and compare").
    Concat,
}

/// The name of a parameter.
#[derive(Clone, Copy, PartialEq, Eq)]
pub enum ParameterName {
    /// `aggfunc`: how the cells of a pivot table are aggregated.
    Aggfunc,
    /// `as_index`: whether the keys of groups are the labels of the rows.
    AsIndex,
    /// `ascending`: whether the least comes first.
    Ascending,
    /// `axis`: 0 for rows below rows, 1 for columns beside columns.
    Axis,
    /// `by`: the columns by whose cells rows are sorted or grouped.
    By,
    /// `columns`: columns, or their labels.
    Columns,
    /// `deep`: a truth value that `copy` takes; the copy is the same for both.
    Deep,
    /// `drop`: whether `reset_index` drops the labels.
    DropLabels,
    /// `dropna`: whether `groupby` leaves out the rows with a missing key.
    Dropna,
    /// `dtype`: the name of a kind, or one for each label of a dict.
    Dtype,
    /// `dtype_backend`: by which of pandas' arrays columns are kept.
    DtypeBackend,
    /// `how`: of which sides `merge` keeps the rows without an equal key.
    How,
    /// `i`: the one level that `swaplevel` moves.
    I,
    /// `id_vars`: the columns that `melt` leaves as they are.
    IdVars,
    /// `ignore_index`: whether the labels along the axis of `concat` are 0, 1 and so on.
    IgnoreIndex,
    /// `index`: the labels of the rows, or the columns that they are made of; of `to_csv`, whether they are written.
    Index,
    /// `j`: the other level that `swaplevel` moves.
    J,
    /// `join`: whether `concat` keeps all labels of the other axis, or those that each object has.
    Join,
    /// `key`: the label that `xs` selects.
    Key,
    /// `keys`: the columns of `set_index`, or a label for each object of `concat`.
    Keys,
    /// `level`: a level, by its number or its name.
    Level,
    /// `min_periods`: how many present cells a window must have.
    MinPeriods,
    /// `n`: how many rows `head` and `tail` take.
    N,
    /// `name`: the name of a Series, or of a file.
    Name,
    /// `names`: the names of the levels.
    Names,
    /// `objects`: the Series and frames of `concat`.
    Objects,
    /// `on`: the columns that have the keys of `merge`.
    On,
    /// `pat`: the text that a method of texts looks for.
    Pat,
    /// `periods`: the number of rows by which `shift` moves the cells.
    Periods,
    /// `regex`: whether `contains` reads its text as a pattern of regular expressions.
    Regex,
    /// `right`: the other frame of `merge`.
    Right,
    /// `sort`: whether groups stand in the order of their keys.
    Sort,
    /// `start`: the place of a text's slice at which it begins.
    Start,
    /// `step`: by how many places a text's slice goes on.
    Step,
    /// `stop`: the place of a text's slice before which it ends.
    Stop,
    /// `subset`: the columns that `duplicated` compares.
    Subset,
    /// `validate`: on which sides of `merge` no key may stand twice.
    Validate,
    /// `value`: the scalar of `fillna`.
    Value,
    /// `value_vars`: the columns that `melt` makes rows of.
    ValueVars,
    /// `values`: the scalars of a Series or of `isin`, or the column whose cells a pivot has.
    Values,
    /// `width`: how many code points `zfill` fills a text up to.
    Width,
    /// `window`: how many rows a window has.
    Window,
}

/// What a parameter takes.
#[derive(Clone, Copy, PartialEq, Eq)]
pub enum Accepted {
    /// A truth value.
    Truth,
    /// A whole number.
    Whole,
    /// A present text.
    Text,
    /// Any scalar, also as a label.
    Scalar,
    /// A scalar, or `None`.
    ScalarOrNone,
    /// A list of scalars.
    Scalars,
    /// A label or a list of labels.
    Labels,
    /// A label or a list of one label or more.
    SomeLabels,
    /// A list of scalars and of tuples of scalars.
    Keys,
    /// A list of scalars, or of tuples of two scalars or more, all of one length.
    RowLabels,
    /// A label, `None`, or a list of labels.
    Names,
    /// A whole number or a text.
    Level,
    /// A dict.
    Dict,
    /// A dict whose values are texts.
    TextDict,
    /// A frame.
    Frame,
    /// A list of Series and frames.
    Objects,
}

/// What stands where an argument isn't given. Where this is `None`, a `None` that is given counts as
/// not given.
#[derive(Clone, Copy, PartialEq, Eq)]
pub enum Omitted {
    /// It must be given.
    Required,
    /// `None`: nothing is given.
    None,
    /// This whole number.
    Number(i64),
    /// This truth value.
    Truth(bool),
    /// This text.
    Text(DefaultText),
}

/// A text that stands where an argument isn't given.
#[derive(Clone, Copy, PartialEq, Eq)]
pub enum DefaultText {
    /// `inner`.
    Inner,
    /// `outer`.
    Outer,
    /// `numpy_nullable`.
    NumpyNullable,
}

/// The values that a parameter has, where these are listed.
#[derive(Clone, Copy, PartialEq, Eq)]
pub enum Choices {
    /// Whatever has the form.
    Any,
    /// `Int64`, `boolean` and `string`.
    KindNames,
    /// `Int64`, `boolean` and `string`, for each value of a dict.
    KindNameDict,
    /// `numpy_nullable`.
    Backends,
    /// `inner`, `left`, `right` and `outer`.
    Hows,
    /// `inner` and `outer`.
    Joins,
    /// `one_to_one`, `1:1` and so on.
    Validations,
    /// `sum`, `min`, `max`, `count`, `first` and `last`.
    Aggregations,
    /// 0 and 1.
    Axes,
    /// `False`: a text is looked for as it stands.
    NoRegex,
}

/// One parameter of a signature.
#[derive(Clone, Copy, PartialEq, Eq)]
pub struct Parameter {
    /// Its name.
    pub name: ParameterName,
    /// What it takes.
    pub accepted: Accepted,
    /// What stands where it isn't given.
    pub omitted: Omitted,
    /// The values that it may have.
    pub listed: Choices,
}
