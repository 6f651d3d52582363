// The table of signatures.
ghost use Rattle.std.specs.Prelude.{◌≡◌, find, map};
ghost use Rattle.std.specs.Option.{option_copied};
ghost use Rattle.frame_store.specs.cells.Text.{same_text};
ghost use Rattle.meaning_call.specs.form.Make as make;
ghost use Rattle.meaning_call.specs.Signature as signature;
ghost use Rattle.frame_signatures.specs.Names.{meant};

use cell_core::{Kind, Shape};
use meaning_call::Method::{Columns, Labels, Levels, Other, Reshape, Rows, Summary, Table};
use meaning_call::{
    Accepted, Choices, ColumnMethod, DefaultText, Function, LabelMethod, LevelMethod, Method,
    Omitted, OtherMethod, Parameter, ParameterName, ReshapeMethod, RowMethod, StrMethod,
    SummaryMethod, TableMethod,
};

// A parameter that must be given: its name and form, and its listed values.
macro_rules! needed {
    ($name:ident: $accepted:ident) => {
        needed!($name: $accepted in Any)
    };
    ($name:ident: $accepted:ident in $listed:ident) => {
        optional!($name: $accepted in $listed = Omitted::Required)
    };
}

// A parameter that may be left out, with what then stands there.
macro_rules! optional {
    ($name:ident: $accepted:ident = $omitted:expr) => {
        optional!($name: $accepted in Any = $omitted)
    };
    ($name:ident: $accepted:ident in $listed:ident = $omitted:expr) => {
        Parameter {
            name: ParameterName::$name,
            accepted: Accepted::$accepted,
            omitted: $omitted,
            listed: Choices::$listed,
        }
    };
}

const SORT: &[Parameter] = &[optional!(Ascending: Truth = Omitted::Truth(true))];

const SORT_FRAME: &[Parameter] = &[
    needed!(By: Labels),
    optional!(Ascending: Truth = Omitted::Truth(true)),
];

const REINDEX_FRAME: &[Parameter] = &[
    optional!(Index: Keys = Omitted::None),
    optional!(Columns: Scalars = Omitted::None),
];

const SWAPLEVEL: &[Parameter] = &[
    optional!(I: Level = Omitted::Number(-2)),
    optional!(J: Level = Omitted::Number(-1)),
];

const XS: &[Parameter] = &[
    needed!(Key: Scalar),
    optional!(Level: Level = Omitted::Number(0)),
];

const GROUPBY: &[Parameter] = &[
    needed!(By: SomeLabels),
    optional!(Sort: Truth = Omitted::Truth(true)),
    optional!(Dropna: Truth = Omitted::Truth(true)),
    optional!(AsIndex: Truth = Omitted::Truth(true)),
];

const ROLLING: &[Parameter] = &[
    needed!(Window: Whole),
    optional!(MinPeriods: Whole = Omitted::None),
];

const MERGE: &[Parameter] = &[
    needed!(Right: Frame),
    optional!(How: Text in Hows = Omitted::Text(DefaultText::Inner)),
    optional!(On: SomeLabels = Omitted::None),
    optional!(Validate: Text in Validations = Omitted::None),
];

const PIVOT: &[Parameter] = &[
    needed!(Columns: Scalar),
    needed!(Index: SomeLabels),
    needed!(Values: Scalar),
];

const PIVOT_TABLE: &[Parameter] = &[
    needed!(Values: Scalar),
    needed!(Index: SomeLabels),
    needed!(Columns: Scalar),
    needed!(Aggfunc: Text in Aggregations),
];

const MELT: &[Parameter] = &[
    optional!(IdVars: Labels = Omitted::None),
    optional!(ValueVars: Labels = Omitted::None),
];

/// The parameters of a method, in their order; most have none. Takes no memory.
pub fn parameters(method: Method) -> &'static [Parameter]
    ensures { result.now ≡ signature.parameters_of method }
{
    match method {
        Table(TableMethod::Copy) => &[optional!(Deep: Truth = Omitted::Truth(true))],
        Table(TableMethod::Head) | Table(TableMethod::Tail) => &[
            optional!(N: Whole = Omitted::Number(5)),
        ],
        Columns(ColumnMethod::Fillna) => &[needed!(Value: Scalar)],
        Columns(ColumnMethod::Isin) => &[needed!(Values: Scalars)],
        Columns(ColumnMethod::Astype) => &[needed!(Dtype: Text in KindNames)],
        Rows(RowMethod::DuplicatedFrame) => &[optional!(Subset: Labels = Omitted::None)],
        Columns(ColumnMethod::Shift) => &[optional!(Periods: Whole = Omitted::Number(1))],
        Rows(RowMethod::SortValuesSeries) | Rows(RowMethod::SortIndex) => SORT,
        Rows(RowMethod::SortValuesFrame) => SORT_FRAME,
        Labels(LabelMethod::ReindexSeries) => &[needed!(Index: Keys)],
        Labels(LabelMethod::ReindexFrame) => REINDEX_FRAME,
        Table(TableMethod::RenameSeries) => &[needed!(Name: ScalarOrNone)],
        Table(TableMethod::RenameFrame) => &[needed!(Columns: Dict)],
        Levels(LevelMethod::RenameAxis) => &[needed!(Names: Names)],
        Levels(LevelMethod::SetIndex) => &[needed!(Keys: SomeLabels)],
        Levels(LevelMethod::ResetIndex) => &[optional!(DropLabels: Truth = Omitted::Truth(false))],
        Table(TableMethod::DropColumns) => &[needed!(Columns: Labels)],
        Levels(LevelMethod::Droplevel) => &[needed!(Level: Level)],
        Levels(LevelMethod::Swaplevel) => SWAPLEVEL,
        Labels(LabelMethod::Xs) => XS,
        Table(TableMethod::ToCsv) => &[optional!(Index: Truth = Omitted::Truth(true))],
        Other(OtherMethod::Groupby) => GROUPBY,
        Other(OtherMethod::Rolling) => ROLLING,
        Other(OtherMethod::Expanding) => &[optional!(MinPeriods: Whole = Omitted::Number(1))],
        Other(OtherMethod::Merge) => MERGE,
        Reshape(ReshapeMethod::Unstack) => &[optional!(Level: Level = Omitted::Number(-1))],
        Reshape(ReshapeMethod::Pivot) => PIVOT,
        Reshape(ReshapeMethod::PivotTable) => PIVOT_TABLE,
        Reshape(ReshapeMethod::Melt) => MELT,
        _ => &[],
    }
}

/// The parameters of a method of texts, in their order. Takes no memory.
pub fn str_parameters(method: StrMethod) -> &'static [Parameter]
    ensures { result.now ≡ signature.str_parameters method }
{
    match method {
        StrMethod::Len | StrMethod::Strip => &[],
        StrMethod::Startswith | StrMethod::Endswith => &[needed!(Pat: Text)],
        StrMethod::Contains => &[needed!(Pat: Text), needed!(Regex: Truth in NoRegex)],
        StrMethod::Slice => &[
            optional!(Start: Whole = Omitted::None),
            optional!(Stop: Whole = Omitted::None),
            optional!(Step: Whole = Omitted::None),
        ],
        StrMethod::Zfill => &[needed!(Width: Whole)],
    }
}

/// The parameters of a function of `pd`, in their order. Takes no memory.
pub fn function_parameters(function: Function) -> &'static [Parameter]
    ensures { result.now ≡ signature.function_parameters function }
{
    match function {
        Function::Series => &[
            needed!(Values: Scalars),
            optional!(Index: RowLabels = Omitted::None),
            optional!(Name: Scalar = Omitted::None),
            optional!(Dtype: Text in KindNames = Omitted::None),
        ],
        Function::DataFrame => &[
            needed!(Columns: Dict),
            optional!(Index: RowLabels = Omitted::None),
        ],
        Function::ReadCsv => &[
            needed!(Name: Text),
            optional!(DtypeBackend: Text in Backends = Omitted::Text(DefaultText::NumpyNullable)),
            optional!(Dtype: TextDict in KindNameDict = Omitted::None),
        ],
        Function::Concat => &[
            needed!(Objects: Objects),
            optional!(Axis: Whole in Axes = Omitted::Number(0)),
            optional!(Join: Text in Joins = Omitted::Text(DefaultText::Outer)),
            optional!(IgnoreIndex: Truth = Omitted::Truth(false)),
            optional!(Keys: Scalars = Omitted::None),
        ],
    }
}

/// How the name of a parameter is written. Takes no memory.
pub fn spelled(name: ParameterName) -> &'static str
    ensures { result.now ≡ signature.spelled name }
{
    match name {
        ParameterName::Aggfunc => "aggfunc",
        ParameterName::AsIndex => "as_index",
        ParameterName::Ascending => "ascending",
        ParameterName::Axis => "axis",
        ParameterName::By => "by",
        ParameterName::Columns => "columns",
        ParameterName::Deep => "deep",
        ParameterName::DropLabels => "drop",
        ParameterName::Dropna => "dropna",
        ParameterName::Dtype => "dtype",
        ParameterName::DtypeBackend => "dtype_backend",
        ParameterName::How => "how",
        ParameterName::I => "i",
        ParameterName::IdVars => "id_vars",
        ParameterName::IgnoreIndex => "ignore_index",
        ParameterName::Index => "index",
        ParameterName::J => "j",
        ParameterName::Join => "join",
        ParameterName::Key => "key",
        ParameterName::Keys => "keys",
        ParameterName::Level => "level",
        ParameterName::MinPeriods => "min_periods",
        ParameterName::N => "n",
        ParameterName::Name => "name",
        ParameterName::Names => "names",
        ParameterName::Objects => "objects",
        ParameterName::On => "on",
        ParameterName::Pat => "pat",
        ParameterName::Periods => "periods",
        ParameterName::Regex => "regex",
        ParameterName::Right => "right",
        ParameterName::Sort => "sort",
        ParameterName::Start => "start",
        ParameterName::Step => "step",
        ParameterName::Stop => "stop",
        ParameterName::Subset => "subset",
        ParameterName::Validate => "validate",
        ParameterName::Value => "value",
        ParameterName::ValueVars => "value_vars",
        ParameterName::Values => "values",
        ParameterName::Width => "width",
        ParameterName::Window => "window",
    }
}

/// The text that stands where a text isn't given. Takes no memory.
pub fn default_text(text: DefaultText) -> &'static str
    ensures { result.now ≡ signature.default_text text }
{
    match text {
        DefaultText::Inner => "inner",
        DefaultText::Outer => "outer",
        DefaultText::NumpyNullable => "numpy_nullable",
    }
}

// A name, with the method that it means on a Series and the one that it means on a frame.
struct MethodName {
    name: &'static str,
    series: Option<Method>,
    frame: Option<Method>,
}

macro_rules! either {
    ($name:literal: $series:expr, $frame:expr) => {
        MethodName {
            name: $name,
            series: Some($series),
            frame: Some($frame),
        }
    };
}

macro_rules! both {
    ($name:literal: $method:expr) => {
        either!($name: $method, $method)
    };
}

macro_rules! series_alone {
    ($name:literal: $method:expr) => {
        MethodName {
            name: $name,
            series: Some($method),
            frame: None,
        }
    };
}

macro_rules! frame_alone {
    ($name:literal: $method:expr) => {
        MethodName {
            name: $name,
            series: None,
            frame: Some($method),
        }
    };
}

const METHOD_NAMES: &[MethodName] = &[
    both!("copy": Table(TableMethod::Copy)),
    both!("head": Table(TableMethod::Head)),
    both!("tail": Table(TableMethod::Tail)),
    both!("isna": Columns(ColumnMethod::Isna)),
    both!("notna": Columns(ColumnMethod::Notna)),
    both!("fillna": Columns(ColumnMethod::Fillna)),
    both!("dropna": Rows(RowMethod::Dropna)),
    both!("isin": Columns(ColumnMethod::Isin)),
    both!("astype": Columns(ColumnMethod::Astype)),
    either!(
        "duplicated": Rows(RowMethod::DuplicatedSeries),
        Rows(RowMethod::DuplicatedFrame)
    ),
    both!("shift": Columns(ColumnMethod::Shift)),
    both!("cumsum": Columns(ColumnMethod::Cumsum)),
    both!("cummin": Columns(ColumnMethod::Cummin)),
    both!("cummax": Columns(ColumnMethod::Cummax)),
    both!("sum": Summary(SummaryMethod::Sum)),
    both!("min": Summary(SummaryMethod::Min)),
    both!("max": Summary(SummaryMethod::Max)),
    both!("any": Summary(SummaryMethod::Any)),
    both!("all": Summary(SummaryMethod::All)),
    both!("count": Summary(SummaryMethod::Count)),
    both!("nunique": Summary(SummaryMethod::Nunique)),
    either!(
        "sort_values": Rows(RowMethod::SortValuesSeries),
        Rows(RowMethod::SortValuesFrame)
    ),
    both!("sort_index": Rows(RowMethod::SortIndex)),
    either!(
        "reindex": Labels(LabelMethod::ReindexSeries),
        Labels(LabelMethod::ReindexFrame)
    ),
    either!(
        "rename": Table(TableMethod::RenameSeries),
        Table(TableMethod::RenameFrame)
    ),
    both!("rename_axis": Levels(LevelMethod::RenameAxis)),
    frame_alone!("set_index": Levels(LevelMethod::SetIndex)),
    both!("reset_index": Levels(LevelMethod::ResetIndex)),
    frame_alone!("drop": Table(TableMethod::DropColumns)),
    both!("droplevel": Levels(LevelMethod::Droplevel)),
    both!("swaplevel": Levels(LevelMethod::Swaplevel)),
    both!("xs": Labels(LabelMethod::Xs)),
    series_alone!("to_frame": Table(TableMethod::ToFrame)),
    both!("to_csv": Table(TableMethod::ToCsv)),
    frame_alone!("groupby": Other(OtherMethod::Groupby)),
    both!("rolling": Other(OtherMethod::Rolling)),
    both!("expanding": Other(OtherMethod::Expanding)),
    frame_alone!("merge": Other(OtherMethod::Merge)),
    frame_alone!("stack": Reshape(ReshapeMethod::Stack)),
    series_alone!("unstack": Reshape(ReshapeMethod::Unstack)),
    frame_alone!("pivot": Reshape(ReshapeMethod::Pivot)),
    frame_alone!("pivot_table": Reshape(ReshapeMethod::PivotTable)),
    frame_alone!("melt": Reshape(ReshapeMethod::Melt)),
];

fn method_names() -> &'static [MethodName]
    ensures { map meant result.now ≡ signature.method_names }
{
    METHOD_NAMES
}

// The first row of a name.
fn row_of<'a>(rows: &'a [MethodName], name: &str) -> Option<&'a MethodName>
    ensures { option_copied result ≡ find (λ row. same_text row.name.now name.now) rows.now }
{
    rows.iter().find(|row| row.name == name)
}

/// The method that a name means on a Series or a frame; `None` where it has none of that name, which
/// is an `AttributeError`. Takes no memory.
pub fn method_named(shape: Shape, name: &str) -> Option<Method>
    ensures { result ≡ signature.method_named shape name.now }
{
    let row = row_of(method_names(), name)?;
    match shape {
        Shape::Series => row.series,
        Shape::Frame => row.frame,
    }
}

/// The method of texts that a name means behind `str`; `None` where there is none. Takes no memory.
pub fn str_named(name: &str) -> Option<StrMethod>
    ensures { result ≡ signature.str_named name.now }
{
    match name {
        "len" => Some(StrMethod::Len),
        "strip" => Some(StrMethod::Strip),
        "startswith" => Some(StrMethod::Startswith),
        "endswith" => Some(StrMethod::Endswith),
        "contains" => Some(StrMethod::Contains),
        "slice" => Some(StrMethod::Slice),
        "zfill" => Some(StrMethod::Zfill),
        _ => None,
    }
}

/// The function of `pd` that a name means; `None` where there is none. Takes no memory.
pub fn function_named(name: &str) -> Option<Function>
    ensures { result ≡ signature.function_named name.now }
{
    match name {
        "Series" => Some(Function::Series),
        "DataFrame" => Some(Function::DataFrame),
        "read_csv" => Some(Function::ReadCsv),
        "concat" => Some(Function::Concat),
        _ => None,
    }
}

/// The kind of a name, as `bind` takes it for `dtype`. Any other text counts as `Int64`, the first of the
/// listed names; such a one stands only where a later value of a dict replaces it. Takes no memory.
pub fn kind_named(name: &str) -> Kind
    ensures { result ≡ make.kind_named name.now }
{
    match name {
        "boolean" => Kind::Boolean,
        "string" => Kind::Text,
        _ => Kind::Int64,
    }
}
