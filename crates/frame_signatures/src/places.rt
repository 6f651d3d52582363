// What stands at a place of a signature: the argument that goes there, or what its parameter has for one.
ghost use Rattle.std.specs.Prelude.{◌≡◌, List, slice_get, is_some, Some, IfSome};
ghost use Rattle.std.specs.Option.{option_map};
ghost use Rattle.frame_store.specs.cells.Text.{Text};
ghost use Rattle.frame_store.specs.cells.Cell.{datum, IsGiven, text_of as numbered};
ghost use Rattle.cell_core.specs.declared.cell.Cell.TheVariants.{Text as TextCell};
ghost use Rattle.frame_store.specs.tables.Settled.{IsSettled};
ghost use Rattle.frame_store.specs.tables.Value.{scalar_in, object_in, list_in, dict_in};
ghost use Rattle.meaning_call.specs.Binding as plain;
ghost use Rattle.meaning_call.specs.form.Make.{kind_given};
ghost use Rattle.meaning_call.specs.declared.Accepted.TheVariants as accepted;
ghost use Rattle.frame_store.specs.Objects.{Tables};
ghost use Rattle.frame_store.specs.Arguments.{argument_of, items_of, entries_of, arguments_of, object_value, AreLiveItems, AreLivePairs, AreLive, IsLiveObject};
ghost use Rattle.frame_store.specs.Readers.{Agrees, AgreesSeen, IsLiveWith, lent_argument, IsLiveLent, AreLiveLentItems, AreLiveLentPairs};
ghost use Rattle.frame_signatures.specs.Found.{found_value, IsFoundLive, StandsNoText};
ghost use Rattle.frame_signatures.specs.Bound.{Tells, stands_at, accepted_at};

use crate::binding::given_after;
use crate::bound::Bound;
use crate::table::{default_text, kind_named};
use cell_core::{Cell, Kind, Label, TextDict, TextId};
use frame_store::{Argument, Item, Named, ObjId};
use meaning_call::{Omitted, Parameter};

// The argument at a place, or what stands there where none is given.
#[derive(Clone, Copy)]
enum Found<'a> {
    Given(&'a Argument),
    StandIn(Omitted),
}

// The argument that goes to a place of the signature, if one is given.
fn given_at<'a>(parameters: &[Parameter], args: &'a [Named], place: usize) -> Option<&'a Argument>
    ensures value { AgreesSeen (λ gs. plain.given_at parameters.now 0 gs place)
        arguments_of args.now lent_argument result }
    ensures live { IsLiveWith AreLive args.now IsLiveLent result }
{
    given_after(parameters, 0, args, place)
}

fn found_at<'a>(parameters: &[Parameter], args: &'a [Named], place: usize) -> Found<'a>
    ensures value { (live : Tables) (texts : List Text)
        → found_value live texts result
        ≡ plain.argument_at parameters.now (arguments_of live texts args.now) place }
    ensures live { (live : Tables) → AreLive live args.now → IsFoundLive live result }
    ensures no_text { plain.HasNoText (slice_get parameters.now place) → StandsNoText result }
{
    match given_at(parameters, args, place) {
        Some(argument) => Found::Given(argument),
        None => match parameters.get(place) {
            Some(parameter) => Found::StandIn(parameter.omitted),
            None => Found::StandIn(Omitted::None),
        },
    }
}

fn whole_of(cell: Option<Cell>) -> Option<i64>
    ensures { (texts : List Text) → result ≡ plain.whole_of (option_map (datum texts) cell) }
{
    match cell {
        Some(Cell::Int(number)) => Some(number),
        Some(Cell::Bool(_)) => None,
        Some(Cell::Text(_)) => None,
        Some(Cell::Na) => None,
        None => None,
    }
}

fn truth_of(cell: Option<Cell>) -> Option<bool>
    ensures { (texts : List Text) → result ≡ plain.truth_of (option_map (datum texts) cell) }
{
    match cell {
        Some(Cell::Bool(truth)) => Some(truth),
        Some(Cell::Int(_)) => None,
        Some(Cell::Text(_)) => None,
        Some(Cell::Na) => None,
        None => None,
    }
}

fn text_of(dict: &TextDict, cell: Option<Cell>) -> Option<&str>
    ensures value { option_map (λ t. t.now) result
        ≡ plain.text_of (option_map (datum dict.now) cell) }
    ensures there { (texts : List Text)
        → is_some result ≡ is_some (plain.text_of (option_map (datum texts) cell)) }
{
    match cell {
        Some(Cell::Text(id)) => Some(dict.text(id)),
        Some(Cell::Int(_)) => None,
        Some(Cell::Bool(_)) => None,
        Some(Cell::Na) => None,
        None => None,
    }
}

fn cell_for(omitted: Omitted) -> Option<Cell>
    requires { plain.IsNoText omitted }
    ensures { (texts : List Text)
        → option_map (datum texts) result ≡ scalar_in (plain.stands_for omitted) }
{
    match omitted {
        Omitted::Number(number) => Some(Cell::Int(number)),
        Omitted::Truth(truth) => Some(Cell::Bool(truth)),
        Omitted::Text(_) => unreachable!(),
        Omitted::Required => None,
        Omitted::None => None,
    }
}

fn whole_for(omitted: Omitted) -> Option<i64>
    ensures { result ≡ plain.whole_in (plain.stands_for omitted) }
{
    match omitted {
        Omitted::Number(number) => Some(number),
        Omitted::Truth(_) => None,
        Omitted::Text(_) => None,
        Omitted::Required => None,
        Omitted::None => None,
    }
}

fn truth_for(omitted: Omitted) -> Option<bool>
    ensures { result ≡ plain.truth_in (plain.stands_for omitted) }
{
    match omitted {
        Omitted::Truth(truth) => Some(truth),
        Omitted::Number(_) => None,
        Omitted::Text(_) => None,
        Omitted::Required => None,
        Omitted::None => None,
    }
}

fn is_nothing(argument: &Argument) -> bool
    ensures { Agrees plain.is_nothing argument_of argument.now result }
{
    match argument {
        Argument::Nothing => true,
        Argument::One(_) => false,
        Argument::Row(_) => false,
        Argument::Many(_) => false,
        Argument::Table(_) => false,
    }
}

fn nothing_for(omitted: Omitted) -> bool
    ensures { result ≡ plain.is_nothing (plain.stands_for omitted) }
{
    match omitted {
        Omitted::Required => true,
        Omitted::None => true,
        Omitted::Number(_) => false,
        Omitted::Truth(_) => false,
        Omitted::Text(_) => false,
    }
}

fn text_for(omitted: Omitted) -> Option<&'static str>
    ensures { option_map (λ t. t.now) result ≡ plain.text_in (plain.stands_for omitted) }
{
    match omitted {
        Omitted::Text(text) => Some(default_text(text)),
        Omitted::Number(_) => None,
        Omitted::Truth(_) => None,
        Omitted::Required => None,
        Omitted::None => None,
    }
}

impl<'a> Bound<'a> {
    /// Whether `None` stands at a place, as where an argument that may be left out isn't given. Takes no
    /// memory.
    pub fn is_none(&self, place: usize) -> bool
        ensures { (live : Tables) (texts : List Text)
            → result ≡ plain.is_nothing (stands_at live texts self.now place) }
    {
        match found_at(self.parameters, self.args, place) {
            Found::Given(argument) => is_nothing(argument),
            Found::StandIn(omitted) => nothing_for(omitted),
        }
    }

    /// The scalar that stands at a place, counted from 0; `None` where something else stands there. The
    /// default of the parameter is no text. Takes no memory.
    pub fn scalar_or_none(&self, place: usize) -> Option<Cell>
        requires { plain.HasNoText (slice_get self.now.parameters.now place) }
        ensures { Tells self.now place scalar_in (λ _ texts. option_map (datum texts) result) }
    {
        match found_at(self.parameters, self.args, place) {
            Found::Given(argument) => argument.scalar(),
            Found::StandIn(omitted) => cell_for(omitted),
        }
    }

    /// The scalar that stands at a place, where the parameter always has one. Its default is no text; a
    /// text that it holds was given. Takes no memory.
    pub fn scalar(&self, place: usize) -> Cell
        requires sure { accepted_at self.now place ≡ Some accepted.Scalar }
        requires no_text { plain.HasNoText (slice_get self.now.parameters.now place) }
        ensures told { Tells self.now place scalar_in (λ _ texts. Some (datum texts result)) }
        ensures given { (live : Tables) (texts : List Text)
            → IsSettled (arguments_of live) texts self.now.args.now → IsGiven texts result }
    {
        self.scalar_or_none(place).unwrap()
    }

    /// The whole number that stands at a place; `None` where something else stands there. Takes no memory.
    pub fn whole_or_none(&self, place: usize) -> Option<i64>
        ensures { Tells self.now place plain.whole_in (λ _ _. result) }
    {
        match found_at(self.parameters, self.args, place) {
            Found::Given(argument) => whole_of(argument.scalar()),
            Found::StandIn(omitted) => whole_for(omitted),
        }
    }

    /// The whole number that stands at a place, where the parameter always has one. Takes no memory.
    pub fn whole(&self, place: usize) -> i64
        requires { accepted_at self.now place ≡ Some accepted.Whole }
        ensures { Tells self.now place plain.whole_in (λ _ _. Some result) }
    {
        self.whole_or_none(place).unwrap()
    }

    fn truth_or_none(&self, place: usize) -> Option<bool>
        ensures { Tells self.now place plain.truth_in (λ _ _. result) }
    {
        match found_at(self.parameters, self.args, place) {
            Found::Given(argument) => truth_of(argument.scalar()),
            Found::StandIn(omitted) => truth_for(omitted),
        }
    }

    /// The truth value that stands at a place, where the parameter always has one. Takes no memory.
    pub fn truth(&self, place: usize) -> bool
        requires { accepted_at self.now place ≡ Some accepted.Truth }
        ensures { Tells self.now place plain.truth_in (λ _ _. Some result) }
    {
        self.truth_or_none(place).unwrap()
    }

    /// The number of the text that stands at a place; `None` where something else than a text stands there. The
    /// default of the parameter is no text; a text that stands there was given. Takes no memory.
    pub fn text_id_or_none(&self, place: usize) -> Option<TextId>
        requires { plain.HasNoText (slice_get self.now.parameters.now place) }
        ensures told { Tells self.now place plain.text_in
            (λ _ texts. option_map (numbered texts) result) }
        ensures given { (live : Tables) (texts : List Text)
            → IsSettled (arguments_of live) texts self.now.args.now
            → IfSome result (λ id. IsGiven texts (TextCell id)) }
    {
        match self.scalar_or_none(place) {
            Some(Cell::Text(id)) => Some(id),
            Some(Cell::Int(_)) => None,
            Some(Cell::Bool(_)) => None,
            Some(Cell::Na) => None,
            None => None,
        }
    }

    /// The text that stands at a place; `None` where something else than a text stands there. Takes no
    /// memory.
    pub fn text_or_none<'d>(&self, dict: &'d TextDict, place: usize) -> Option<&'d str>
        ensures value { (live : Tables) → option_map (λ t. t.now) result
            ≡ plain.text_in (stands_at live dict.now self.now place) }
        ensures there { (live : Tables) (texts : List Text)
            → is_some result ≡ is_some (plain.text_in (stands_at live texts self.now place)) }
    {
        match found_at(self.parameters, self.args, place) {
            Found::Given(argument) => text_of(dict, argument.scalar()),
            Found::StandIn(omitted) => text_for(omitted),
        }
    }

    /// The text that stands at a place, where the parameter always has one. Takes no memory.
    pub fn text<'d>(&self, dict: &'d TextDict, place: usize) -> &'d str
        requires { accepted_at self.now place ≡ Some accepted.Text }
        ensures { (live : Tables)
            → Some result.now ≡ plain.text_in (stands_at live dict.now self.now place) }
    {
        self.text_or_none(dict, place).unwrap()
    }

    /// The kind whose name stands at a place; `None` where something else than a text stands there.
    /// Takes no memory.
    pub fn kind_or_none(&self, dict: &TextDict, place: usize) -> Option<Kind>
        ensures { (live : Tables)
            → result ≡ kind_given (scalar_in (stands_at live dict.now self.now place)) }
    {
        match self.text_or_none(dict, place) {
            Some(name) => Some(kind_named(name)),
            None => None,
        }
    }

    /// The kind whose name stands at a place, where the parameter always has one. Takes no memory.
    pub fn kind(&self, dict: &TextDict, place: usize) -> Kind
        requires { accepted_at self.now place ≡ Some accepted.Text }
        ensures { (live : Tables)
            → Some result ≡ kind_given (scalar_in (stands_at live dict.now self.now place)) }
    {
        kind_named(self.text_or_none(dict, place).unwrap())
    }

    /// The parts of the list that stands at a place; `None` where something else stands there. Takes no
    /// memory.
    pub fn list_or_none(&self, place: usize) -> Option<&'a [Item]>
        ensures value { Tells self.now place list_in
            (λ live texts. option_map (λ parts. items_of live texts parts.now) result) }
        ensures live { IsLiveWith AreLive self.now.args.now AreLiveLentItems result }
    {
        match found_at(self.parameters, self.args, place) {
            Found::Given(argument) => argument.list(),
            Found::StandIn(_) => None,
        }
    }

    /// The parts of the list of scalars that stands at a place, where the parameter always has one. Takes
    /// no memory.
    pub fn list(&self, place: usize) -> &'a [Item]
        requires { accepted_at self.now place ≡ Some accepted.Scalars }
        ensures value { Tells self.now place list_in
            (λ live texts. Some (items_of live texts result.now)) }
        ensures live { (live : Tables) → AreLive live self.now.args.now
            → AreLiveItems live result.now }
    {
        self.list_or_none(place).unwrap()
    }

    /// The parts of the list of Series and frames that stands at a place, where the parameter always has one.
    /// Takes no memory.
    pub fn objects(&self, place: usize) -> &'a [Item]
        requires { accepted_at self.now place ≡ Some accepted.Objects }
        ensures value { Tells self.now place list_in
            (λ live texts. Some (items_of live texts result.now)) }
        ensures live { (live : Tables) → AreLive live self.now.args.now
            → AreLiveItems live result.now }
    {
        self.list_or_none(place).unwrap()
    }

    fn object_or_none(&self, place: usize) -> Option<ObjId>
        ensures table { Tells self.now place object_in
            (λ live texts. option_map (object_value live texts) result) }
        ensures live { IsLiveWith AreLive self.now.args.now IsLiveObject result }
    {
        match found_at(self.parameters, self.args, place) {
            Found::Given(argument) => argument.object(),
            Found::StandIn(_) => None,
        }
    }

    /// The frame that stands at a place, where the parameter always has one. Takes no memory.
    pub fn frame(&self, place: usize) -> ObjId
        requires { accepted_at self.now place ≡ Some accepted.Frame }
        ensures table { Tells self.now place object_in
            (λ live texts. Some (object_value live texts result)) }
        ensures live { (live : Tables) → AreLive live self.now.args.now
            → IsLiveObject live result }
    {
        self.object_or_none(place).unwrap()
    }

    /// The pairs of the dict that stands at a place, in their order, also where a key stands twice; `None`
    /// where something else stands there. Takes no memory.
    pub fn dict_or_none(&self, place: usize) -> Option<&'a [(Label, Argument)]>
        ensures value { Tells self.now place dict_in
            (λ live texts. option_map (λ pairs. entries_of live texts pairs.now) result) }
        ensures live { IsLiveWith AreLive self.now.args.now AreLiveLentPairs result }
    {
        match found_at(self.parameters, self.args, place) {
            Found::Given(argument) => argument.dict(),
            Found::StandIn(_) => None,
        }
    }

    /// The pairs of the dict that stands at a place, in their order, also where a key stands twice, where
    /// the parameter always has one. Takes no memory.
    pub fn dict(&self, place: usize) -> &'a [(Label, Argument)]
        requires { accepted_at self.now place ≡ Some accepted.Dict }
        ensures value { Tells self.now place dict_in
            (λ live texts. Some (entries_of live texts result.now)) }
        ensures live { (live : Tables) → AreLive live self.now.args.now
            → AreLivePairs live result.now }
    {
        self.dict_or_none(place).unwrap()
    }
}
