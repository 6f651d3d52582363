//! At which place of its signature an argument stands: a constant for each argument of a method or a function that is
//! read, by the names of both. The readers of [`Bound`](crate::Bound) take them. Columns that the first argument names
//! are read by one function for all methods, in `frame_labels`.

/// `n` of `head` and `tail`.
pub const HEAD_N: usize = 0;

/// `value` of `fillna`.
pub const FILLNA_VALUE: usize = 0;

/// `values` of `isin`.
pub const ISIN_VALUES: usize = 0;

/// `dtype` of `astype`.
pub const ASTYPE_DTYPE: usize = 0;

/// `periods` of `shift`.
pub const SHIFT_PERIODS: usize = 0;

/// `ascending` of `sort_values` of a Series, and of `sort_index`.
pub const SORT_ASCENDING: usize = 0;

/// `ascending` of `sort_values` of a frame.
pub const SORT_FRAME_ASCENDING: usize = 1;

/// `index` of `reindex` of a Series.
pub const REINDEX_SERIES_INDEX: usize = 0;

/// `index` of `reindex` of a frame.
pub const REINDEX_FRAME_INDEX: usize = 0;

/// `columns` of `reindex` of a frame.
pub const REINDEX_FRAME_COLUMNS: usize = 1;

/// `name` of `rename` of a Series.
pub const RENAME_SERIES_NAME: usize = 0;

/// `columns` of `rename` of a frame.
pub const RENAME_FRAME_COLUMNS: usize = 0;

/// `names` of `rename_axis`.
pub const RENAME_AXIS_NAMES: usize = 0;

/// `drop` of `reset_index`.
pub const RESET_INDEX_DROP: usize = 0;

/// `level` of `droplevel`.
pub const DROPLEVEL_LEVEL: usize = 0;

/// `i` of `swaplevel`.
pub const SWAPLEVEL_I: usize = 0;

/// `j` of `swaplevel`.
pub const SWAPLEVEL_J: usize = 1;

/// `key` of `xs`.
pub const XS_KEY: usize = 0;

/// `level` of `xs`.
pub const XS_LEVEL: usize = 1;

/// `index` of `to_csv`.
pub const TO_CSV_INDEX: usize = 0;

/// `sort` of `groupby`.
pub const GROUPBY_SORT: usize = 1;

/// `dropna` of `groupby`.
pub const GROUPBY_DROPNA: usize = 2;

/// `as_index` of `groupby`.
pub const GROUPBY_AS_INDEX: usize = 3;

/// `window` of `rolling`.
pub const ROLLING_WINDOW: usize = 0;

/// `min_periods` of `rolling`.
pub const ROLLING_MIN_PERIODS: usize = 1;

/// `min_periods` of `expanding`.
pub const EXPANDING_MIN_PERIODS: usize = 0;

/// `right` of `merge`.
pub const MERGE_RIGHT: usize = 0;

/// `how` of `merge`.
pub const MERGE_HOW: usize = 1;

/// `on` of `merge`.
pub const MERGE_ON: usize = 2;

/// `validate` of `merge`.
pub const MERGE_VALIDATE: usize = 3;

/// `level` of `unstack`.
pub const UNSTACK_LEVEL: usize = 0;

/// `columns` of `pivot`.
pub const PIVOT_COLUMNS: usize = 0;

/// `index` of `pivot`.
pub const PIVOT_INDEX: usize = 1;

/// `values` of `pivot`.
pub const PIVOT_VALUES: usize = 2;

/// `values` of `pivot_table`.
pub const PIVOT_TABLE_VALUES: usize = 0;

/// `index` of `pivot_table`.
pub const PIVOT_TABLE_INDEX: usize = 1;

/// `columns` of `pivot_table`.
pub const PIVOT_TABLE_COLUMNS: usize = 2;

/// `aggfunc` of `pivot_table`.
pub const PIVOT_TABLE_AGGFUNC: usize = 3;

/// `id_vars` of `melt`.
pub const MELT_ID_VARS: usize = 0;

/// `value_vars` of `melt`.
pub const MELT_VALUE_VARS: usize = 1;

/// `values` of `pd.Series`.
pub const SERIES_VALUES: usize = 0;

/// `index` of `pd.Series`.
pub const SERIES_INDEX: usize = 1;

/// `name` of `pd.Series`.
pub const SERIES_NAME: usize = 2;

/// `dtype` of `pd.Series`.
pub const SERIES_DTYPE: usize = 3;

/// `columns` of `pd.DataFrame`.
pub const DATA_FRAME_COLUMNS: usize = 0;

/// `index` of `pd.DataFrame`.
pub const DATA_FRAME_INDEX: usize = 1;

/// `pat` of `startswith`, `endswith` and `contains`.
pub const STR_PAT: usize = 0;

/// `start` of `slice`.
pub const STR_SLICE_START: usize = 0;

/// `stop` of `slice`.
pub const STR_SLICE_STOP: usize = 1;

/// `step` of `slice`.
pub const STR_SLICE_STEP: usize = 2;

/// `width` of `zfill`.
pub const STR_ZFILL_WIDTH: usize = 0;

/// `name` of `pd.read_csv`.
pub const READ_CSV_NAME: usize = 0;

/// `dtype` of `pd.read_csv`.
pub const READ_CSV_DTYPE: usize = 2;

/// `objects` of `pd.concat`.
pub const CONCAT_OBJECTS: usize = 0;

/// `axis` of `pd.concat`.
pub const CONCAT_AXIS: usize = 1;

/// `join` of `pd.concat`.
pub const CONCAT_JOIN: usize = 2;

/// `ignore_index` of `pd.concat`.
pub const CONCAT_IGNORE_INDEX: usize = 3;

/// `keys` of `pd.concat`.
pub const CONCAT_KEYS: usize = 4;
