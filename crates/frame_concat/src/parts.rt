// The tables that are put together.
ghost use Rattle.std.specs.Prelude.{◌≡◌, ◌<◌, [], length, IfOk, IfSome};
ghost use Rattle.std.specs.Option.{option_map};
ghost use Rattle.std.specs.List.{list_any};
ghost use Rattle.frame_store.specs.Parts.{table_column};
ghost use Rattle.frame_select.specs.Headings.{shared_heading, HaveFirstPlaces};
ghost use Rattle.frame_concat.specs.Parts.{column_sought, name_at, same_heading};

use cell_core::{Grid, Label, NoMemory};
use column_core::ColRef;
use frame_store::ObjRef;
use indexmap::IndexMap;
use std::alloc::Global;
use std::marker::Model;

// Which column of a part is sought: the one at a place, or the first one under a heading.
#[derive(Clone, Copy)]
pub(crate) enum Sought {
    At(usize),
    Under(Option<Label>),
}

// Which name of a part is sought: that of its columns together, of a level, or of a Series.
#[derive(Clone, Copy)]
pub(crate) enum Naming {
    Columns,
    Level(usize),
    Series,
}

// The first column of each heading, found by a hash, and the first heading that stands again.
#[derive(Drop)]
struct HeadingPlaces {
    first: IndexMap<Option<Label>, usize>,
    repeated: Option<Label>,
}

// A table that is put together with others.
#[derive(Drop)]
pub(crate) struct Part<'a> {
    table: ObjRef<'a>,
    headings: Vec<Option<Label>>,
    places: HeadingPlaces,
}

impl<'a> Model for Part<'a> {
    ghost use Rattle.std.specs.Prelude.{◌≡◌, [], length};
    ghost use Rattle.frame_store.specs.tables.Table.{NumberedTable};
    ghost use Rattle.frame_select.specs.Headings.{shared_heading, HaveFirstPlaces};

    ghost Value = { NumberedTable };

    ghost view = { λ p. p.table };

    ghost invariant = { λ p. (p.headings.items ≡ p.table.headings)
        × HaveFirstPlaces p.places.first.entries 0 p.table.headings
        × (p.places.repeated ≡ shared_heading p.table.headings [])
        × (length p.table.headings ≡ length p.table.columns) };
}

// The headings of a table.
fn headings_of(alloc: Global, on: &ObjRef<'_>) -> Result<Vec<Option<Label>>, NoMemory>
    requires headed { length on.now.headings ≡ length on.now.columns }
    ensures { IfOk result (λ made. made.items ≡ on.now.headings) }
{
    let mut headings = Vec::new(alloc);
    for place in 0..on.columns() {
        headings.push(on.heading(place))?;
    }
    Ok(headings)
}

// Where each of these headings stands first, and the first of them that stands again.
fn heading_places(alloc: Global, headings: &[Option<Label>]) -> Result<HeadingPlaces, NoMemory>
    ensures first { IfOk result (λ places. HaveFirstPlaces places.first.entries 0 headings.now) }
    ensures repeated { IfOk result (λ places. places.repeated ≡ shared_heading headings.now []) }
{
    let mut first = IndexMap::new(alloc);
    let mut repeated = None;
    for place in (0..headings.len()).rev() {
        if first.insert(headings[place], place)?.is_some() {
            repeated = headings[place];
        }
    }
    Ok(HeadingPlaces { first, repeated })
}

impl<'a> Part<'a> {
    // The table as a part. `NoMemory` is the only refusal.
    pub(crate) fn new(alloc: Global, table: ObjRef<'a>) -> Result<Part<'a>, NoMemory>
        requires headed { length table.headings ≡ length table.columns }
        ensures { IfOk result (λ part. part ≡ table.entry) }
    {
        let headings = headings_of(alloc, &table)?;
        let places = heading_places(alloc, &headings)?;
        Ok(Part {
            table,
            headings,
            places,
        })
    }

    // The table itself.
    pub(crate) fn table(&self) -> &ObjRef<'a>
        ensures { result.now ≡ self.now }
    {
        &self.table
    }

    // The headings of the table. Takes no memory.
    pub(crate) fn headings(&self) -> &[Option<Label>]
        ensures { result.now ≡ self.now.headings }
    {
        &self.headings
    }

    // The first heading that stands again at a later place. Takes no memory.
    pub(crate) fn repeated(&self) -> Option<Label>
        ensures { result ≡ shared_heading self.now.headings [] }
    {
        self.places.repeated
    }

    // Whether the part has a column under a heading. Takes no memory.
    pub(crate) fn has(&self, heading: Option<Label>) -> bool
        ensures { result ≡ list_any (same_heading heading) self.now.headings }
    {
        self.places.first.contains_key(&heading)
    }

    // The column that is sought, if the part has it. Takes no memory.
    pub(crate) fn column(&self, sought: Sought) -> Option<ColRef<'_>>
        ensures column { option_map table_column result ≡ column_sought sought self.now }
        ensures rows { IfSome result (λ c. length c.cells ≡ length self.now.labels) }
    {
        match sought {
            Sought::At(place) => {
                if place < self.table.columns() {
                    Some(self.table.column(place))
                } else {
                    None
                }
            }
            Sought::Under(heading) => match self.places.first.get(&heading) {
                Some(place) => Some(self.table.column(*place)),
                None => None,
            },
        }
    }

    // The name that is sought, if the part has it. Takes no memory.
    pub(crate) fn name(&self, which: Naming) -> Option<Label>
        ensures { result ≡ name_at which self.now }
    {
        match which {
            Naming::Columns => self.table.columns_name(),
            Naming::Level(level) => {
                if level < self.table.levels() {
                    self.table.level_name(level)
                } else {
                    None
                }
            }
            Naming::Series => {
                if self.table.columns() == 0 {
                    return None;
                }
                self.table.heading(0)
            }
        }
    }
}
