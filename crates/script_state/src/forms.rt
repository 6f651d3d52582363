// Forms on values. What they make is noted.
ghost use Rattle.std.specs.Prelude.{◌≡◌, ◌<◌, List, Some, None, IfOk, IfErr, OnOk, IfSome, true, false, is_some, option_map, vec_len, vec_capacity};
ghost use Rattle.meaning_laws.specs.cells.Text.{Text as OneText};
ghost use Rattle.meaning_laws.specs.cells.Cell.{label_datum};
ghost use Rattle.meaning_laws.specs.cells.Operator.{cell_label};
ghost use Rattle.meaning_laws.specs.tables.Cost.{free};
ghost use Rattle.meaning_laws.specs.tables.Value.{cell};
ghost use Rattle.meaning_laws.specs.tables.Settled.{IsSettled};
ghost use Rattle.meaning_laws.specs.call.Signature.{function_named};
ghost use Rattle.meaning_laws.specs.form.Infix.{infix_result, sign_result};
ghost use Rattle.meaning_laws.specs.form.Select.{length_result};
ghost use Rattle.meaning_laws.specs.select.Select.{select_result};
ghost use Rattle.meaning_laws.specs.select.Set.{assign_result, removal_result};
ghost use Rattle.std.specs.Prelude.{codes};
ghost use Rattle.meaning_laws.specs.method.Calls.{call_result, has_method, has_attribute, plain, on_texts};
ghost use Rattle.meaning_laws.specs.method.StrCalls.{has_str_method};
ghost use Rattle.meaning_laws.specs.script.query.Method.{is_query};
ghost use Rattle.meaning_laws.specs.method.Functions.{made_by};
ghost use Rattle.meaning_laws.specs.charge.Charge.{answer_charge, select_charge, setting_charge};
ghost use Rattle.meaning_laws.specs.method.Charges.{call_charge};
ghost use Rattle.frame_store.specs.Arguments.{entry_of, argument_of, IsLive};
ghost use Rattle.frame_calls.specs.Calls.{method_in, chain_of, IsKnownBetween};
ghost use Rattle.frame_select.specs.Selected.{way_of};
ghost use Rattle.frame_set.specs.Assigned.{new_value, moved_object, IsLiveNew, IsOther};
ghost use Rattle.column_operators.specs.Tasks.{operator_of};
ghost use Rattle.script_tokens.specs.View.{binary_of};
ghost use Rattle.script_tree.specs.View.{literal_of, unary_of};
ghost use Rattle.meaning_laws.specs.script.Expression.{cell_of, is_minus};
ghost use Rattle.frame_store.specs.World.{entry_in, argument_in, arguments_in, subscript_in, Keeps, IsKnownValue, IsKnownArgument, AreKnownArguments, IsKnownSubscript, SetsFor};
ghost use Rattle.script_state.specs.Bindings.{value_at, noted, is_spare};
ghost use Rattle.script_state.specs.Faults.{IsNoName, IsNoAttribute};

use crate::charges::{
    answer_cells, charged, columns_of, is_free_selection, method_cells, rows_of, selection_cells,
    setting_cells,
};
use crate::fault::EvalFault;
use crate::literal::cell_of;
use crate::names::find;
use crate::work::Work;
use cell_core::{Cell, Code, Grid, Label, Words};
use column_operators::Operator;
use frame_calls::{
    Between, function_called, function_named, is_query, method_behind, method_called, method_of,
};
use frame_late::{has_texts, text_exists};
use frame_set::NewValue;
use frame_store::{Argument, NamedList, ObjId, OpFault, Selector, Subscript, Value};
use meaning_call::{Function, Method};
use script_tokens::Binary;
use script_tree::{Literal, Unary};
use std::alloc::Global;

impl Work {
    ghost use Rattle.frame_store.specs.Objects.{KeepBlocks};
    ghost use Rattle.script_state.specs.Evaluates.{IsValue};
    ghost use Rattle.script_state.specs.Work.{names_in, tab_of, tables_in, world_of, IsUnnamedValue, FormsIn, SetsFrom, SetsIn};

    /// The value of a name. A name without a value is a `NameError` that gives it; to say which may take
    /// memory, and want of it is the other refusal.
    pub fn named(&self, name: &Words) -> Result<Value, EvalFault>
        ensures found { IfOk result (IsValue (Some name.now) self.now) }
        ensures fault { IfErr result
            (λ f. IsNoName f name.now (value_at (names_in self.now) name.now)) }
    {
        match find(&self.names.values, name.as_str()) {
            Some(value) => Ok(value),
            None => {
                let name = Words::from_text(self.alloc, name.as_str())?;
                Err(EvalFault::Refused(Code::NoName(name)))
            }
        }
    }

    /// A value that is written out; a text gets its number. The one refusal is want of memory.
    pub fn literal(&mut self, literal: &Literal) -> Result<Value, EvalFault>
        ensures names { names_in self.new ≡ names_in self.old }
        ensures kept { Keeps (world_of self.old) (world_of self.new) }
        ensures blocks { KeepBlocks None self.old.store self.new.store }
        ensures tab { tab_of self.new ≡ tab_of self.old }
        ensures value { IfOk result (λ v. entry_in (world_of self.new) v
            ≡ cell (cell_of (literal_of literal.now))) }
        ensures found { IfOk result (IsValue None self.new) }
        ensures memory { IfErr result (λ f. f ≡ EvalFault.NoMemory) }
    {
        let cell = cell_of(&mut self.dict, literal)?;
        Ok(Value::Scalar(cell))
    }

    /// A key of a dict that is written out, as a label. The one refusal is want of memory.
    pub fn key(&mut self, literal: &Literal) -> Result<Label, EvalFault>
        ensures names { names_in self.new ≡ names_in self.old }
        ensures kept { Keeps (world_of self.old) (world_of self.new) }
        ensures blocks { KeepBlocks None self.old.store self.new.store }
        ensures tab { tab_of self.new ≡ tab_of self.old }
        ensures label { IfOk result (λ l. label_datum (world_of self.new).texts l
            ≡ cell_label (cell_of (literal_of literal.now))) }
        ensures given { IfOk result (λ l. IsSettled label_datum (world_of self.new).texts l) }
        ensures memory { IfErr result (λ f. f ≡ EvalFault.NoMemory) }
    {
        let cell = cell_of(&mut self.dict, literal)?;
        Ok(Label::from(cell))
    }

    /// An operator between two values: a new object, or a scalar. The refusals are those of
    /// [`frame_ops::infix`], in its order.
    pub fn infix(&mut self, op: Binary, a: Value, b: Value) -> Result<Value, OpFault>
        requires left { IsKnownValue (world_of self.old) a }
        requires right { IsKnownValue (world_of self.old) b }
        ensures { FormsIn result answer_charge
            (infix_result (binary_of op)
            (entry_in (world_of self.old) a) (entry_in (world_of self.old) b))
            self.old self.new }
    {
        self.temps.reserve(1)?;
        let operator = operator_of(op);
        let made = frame_ops::infix(self.alloc, &mut self.store, &mut self.dict, operator, a, b)?;
        note(&mut self.temps, made);
        self.charge = charged(self.charge, answer_cells(&self.store, made));
        Ok(made)
    }

    /// A sign before a value: a new object, or a scalar. The refusals are those of
    /// [`frame_ops::invert_or_negate`], in its order.
    pub fn sign(&mut self, op: Unary, a: Value) -> Result<Value, OpFault>
        requires { IsKnownValue (world_of self.old) a }
        ensures { FormsIn result answer_charge
            (sign_result (is_minus (unary_of op)) (entry_in (world_of self.old) a))
            self.old self.new }
    {
        self.temps.reserve(1)?;
        let negate = is_minus(op);
        let made = frame_ops::invert_or_negate(
            self.alloc,
            &mut self.store,
            &mut self.dict,
            negate,
            a,
        )?;
        note(&mut self.temps, made);
        self.charge = charged(self.charge, answer_cells(&self.store, made));
        Ok(made)
    }

    // What a function of `pd` gives, with the bytes of the file that it reads.
    pub(crate) fn make(
        &mut self,
        function: Function,
        args: &NamedList,
        file: Option<&[u8]>,
    ) -> Result<Value, OpFault>
        requires { AreKnownArguments (world_of self.old) args.now }
        ensures { FormsIn result answer_charge (made_by function (option_map (λ bytes. bytes.now) file.entry)
            (arguments_in (world_of self.old) args.now))
            self.old self.new }
    {
        self.temps.reserve(1)?;
        let made = function_called(
            self.alloc,
            &mut self.store,
            &mut self.dict,
            function,
            args,
            file,
        )?;
        note(&mut self.temps, made);
        self.charge = charged(self.charge, answer_cells(&self.store, made));
        Ok(made)
    }

    /// Whether the name is that of a query of the value: `query` of a frame. Takes no memory.
    pub fn is_query(&self, on: Value, name: &str) -> bool
        requires { IsLive (tables_in self.now) on }
        ensures { (texts : List OneText)
            → result ≡ is_query (entry_of (tables_in self.now) texts on) name.now }
    {
        is_query(&self.store, on, name)
    }

    /// The method that the value has under this name, and else an `AttributeError` that gives the name, or want of
    /// memory.
    pub fn expect_method(&self, on: Value, name: &str) -> Result<Method, EvalFault>
        requires { IsLive (tables_in self.now) on }
        ensures named { (texts : List OneText) → IfOk result
            (λ m. method_in (entry_of (tables_in self.now) texts on) name.now ≡ Some m) }
        ensures known { (texts : List OneText) →
            OnOk result (has_method (entry_of (tables_in self.now) texts on) name.now ≡ true) }
        ensures fault { (texts : List OneText) →
            IfErr result (λ f. IsNoAttribute f name.now
            (has_method (entry_of (tables_in self.now) texts on) name.now)) }
    {
        match method_of(&self.store, on, name) {
            Some(method) => Ok(method),
            None => Err(no_attribute(self.alloc, name)),
        }
    }

    /// What a method gives that [`Work::expect_method`] told of the value and the name: a new object, or a scalar.
    /// The refusals are those of the method, in its order.
    pub fn method(
        &mut self,
        on: Value,
        method: Method,
        name: &str,
        args: &NamedList,
    ) -> Result<Value, OpFault>
        requires on { IsKnownValue (world_of self.old) on }
        requires named { method_in (entry_in (world_of self.old) on) name.now ≡ Some method }
        requires arguments { AreKnownArguments (world_of self.old) args.now }
        ensures { let w = world_of self.old in
            let given = arguments_in w args.now in
            FormsIn result (call_charge (entry_in w on) (plain name.now) given)
            (call_result (entry_in w on) (plain name.now) given) self.old self.new }
    {
        self.temps.reserve(1)?;
        let rows = rows_of(&self.store, on);
        let columns = columns_of(&self.store, on);
        let made = method_called(
            self.alloc,
            &mut self.store,
            &mut self.dict,
            on,
            method,
            name,
            args,
        )?;
        note(&mut self.temps, made);
        let cells = method_cells(&self.store, method, rows, columns, made);
        self.charge = charged(self.charge, cells);
        Ok(made)
    }

    /// That the value has texts behind `str`, and else an `AttributeError` of `str`, or want of memory.
    pub fn expect_texts(&self, on: Value) -> Result<(), EvalFault>
        requires { IsLive (tables_in self.now) on }
        ensures known { (texts : List OneText) → OnOk result
            (has_attribute (entry_of (tables_in self.now) texts on) (codes "str") ≡ true) }
        ensures fault { (texts : List OneText) → IfErr result (λ f. IsNoAttribute f (codes "str")
            (has_attribute (entry_of (tables_in self.now) texts on) (codes "str"))) }
    {
        if has_texts(&self.store, on) {
            return Ok(());
        }
        Err(no_attribute(self.alloc, "str"))
    }

    /// What a method of texts gives behind `str`: a new object. The refusals are those of [`frame_late::method`], in
    /// its order.
    pub fn on_texts(&mut self, on: Value, name: &str, args: &NamedList) -> Result<Value, OpFault>
        requires on { IsKnownValue (world_of self.old) on }
        requires arguments { AreKnownArguments (world_of self.old) args.now }
        ensures { let w = world_of self.old in
            let given = arguments_in w args.now in
            FormsIn result (call_charge (entry_in w on) (on_texts name.now) given)
            (call_result (entry_in w on) (on_texts name.now) given) self.old self.new }
    {
        self.temps.reserve(1)?;
        let made = frame_late::method(
            self.alloc,
            &mut self.store,
            &mut self.dict,
            on,
            name,
            args.as_slice(),
        )?;
        note(&mut self.temps, made);
        self.charge = charged(self.charge, answer_cells(&self.store, made));
        Ok(made)
    }

    /// What a method gives behind `groupby`, `rolling` or `expanding`: a new object, or a scalar.
    /// The refusals are those of the method, in its order.
    pub fn chained(
        &mut self,
        on: Value,
        between: Between<'_>,
        name: &str,
        args: &NamedList,
    ) -> Result<Value, OpFault>
        requires on { IsKnownValue (world_of self.old) on }
        requires before { IsKnownBetween (world_of self.old) between }
        requires arguments { AreKnownArguments (world_of self.old) args.now }
        ensures { let w = world_of self.old in
            let chain = chain_of w between.entry name.now in
            let given = arguments_in w args.now in
            FormsIn result (call_charge (entry_in w on) chain given)
            (call_result (entry_in w on) chain given) self.old self.new }
    {
        self.temps.reserve(1)?;
        let made = method_behind(
            self.alloc,
            &mut self.store,
            &mut self.dict,
            on,
            between,
            name,
            args,
        )?;
        note(&mut self.temps, made);
        self.charge = charged(self.charge, answer_cells(&self.store, made));
        Ok(made)
    }

    /// What brackets or an accessor give: a new object, or a scalar. The refusals are those of
    /// [`frame_select::select`], in its order.
    pub fn select(
        &mut self,
        on: Value,
        by: Selector,
        first: &Subscript,
        second: &Option<Subscript>,
    ) -> Result<Value, OpFault>
        requires on { IsKnownValue (world_of self.old) on }
        requires first { IsKnownSubscript (world_of self.old) first.now }
        requires second { IfSome second.now (IsKnownSubscript (world_of self.old)) }
        ensures { let w = world_of self.old in
            FormsIn result
            (select_charge (entry_in w on) (way_of by) (subscript_in w first.now))
            (select_result (entry_in w on) (way_of by) (subscript_in w first.now)
            (option_map (subscript_in w) second.now))
            self.old self.new }
    {
        self.temps.reserve(1)?;
        let free = is_free_selection(&self.store, on, by, first);
        let second = second.as_ref();
        let made = frame_select::select(
            self.alloc,
            &mut self.store,
            &mut self.dict,
            on,
            by,
            first,
            second,
        )?;
        note(&mut self.temps, made);
        let cells = selection_cells(&self.store, free, made);
        self.charge = charged(self.charge, cells);
        Ok(made)
    }

    /// What brackets or an accessor name is set: of named objects the one that is set changes, and no
    /// other. Where no name stands for the value's object, it may end. The refusals are those of
    /// [`frame_set::assign`], in its order; each leaves all objects as they were.
    pub fn assign(
        &mut self,
        on: Value,
        by: Selector,
        first: &Subscript,
        second: &Option<Subscript>,
        value: &Argument,
    ) -> Result<(), OpFault>
        requires on { IsKnownValue (world_of self.old) on }
        requires first { IsKnownSubscript (world_of self.old) first.now }
        requires second { IfSome second.now (IsKnownSubscript (world_of self.old)) }
        requires value { IsKnownArgument (world_of self.old) value.now }
        ensures { let w = world_of self.old in
            let second = option_map (subscript_in w) second.now in
            SetsFrom value.now result on
            (setting_charge (entry_in w on) (way_of by) (subscript_in w first.now) second)
            (assign_result (entry_in w on) (way_of by) (subscript_in w first.now) second
            (argument_in w value.now))
            self.old self.new }
    {
        let rows = rows_of(&self.store, on);
        let keys = second.as_ref();
        let touched = frame_set::touched(self.alloc, &self.store, &self.dict, on, by, first, keys)?;
        self.set(on, by, first, second, value)?;
        let cells = setting_cells(&self.store, rows, touched, on);
        self.charge = charged(self.charge, cells);
        Ok(())
    }

    // The setting without its charge.
    fn set(
        &mut self,
        on: Value,
        by: Selector,
        first: &Subscript,
        second: &Option<Subscript>,
        value: &Argument,
    ) -> Result<(), OpFault>
        requires on { IsKnownValue (world_of self.old) on }
        requires first { IsKnownSubscript (world_of self.old) first.now }
        requires second { IfSome second.now (IsKnownSubscript (world_of self.old)) }
        requires value { IsKnownArgument (world_of self.old) value.now }
        ensures sets { let w = world_of self.old in
            let second = option_map (subscript_in w) second.now in
            SetsIn value.now result on
            (setting_charge (entry_in w on) (way_of by) (subscript_in w first.now) second)
            (assign_result (entry_in w on) (way_of by) (subscript_in w first.now) second
            (argument_in w value.now))
            self.old self.new }
        ensures charge { self.new.charge ≡ self.old.charge }
    {
        // A column can hold the scalar: whole numbers of the code have 64 bits.
        let _ = value.scalar();
        let second = second.as_ref();
        let value = self.new_value(on, value);
        frame_set::assign(
            self.alloc,
            &mut self.store,
            &mut self.dict,
            on,
            by,
            first,
            second,
            value,
        )
    }

    // What a place is set to. An object that no name stands for isn't needed after the setting, if
    // the one that is set has a name and so is another.
    fn new_value<'a>(&self, on: Value, value: &'a Argument) -> NewValue<'a>
        requires { IsKnownArgument (world_of self.now) value.now }
        ensures meant { (texts : List OneText) → new_value (tables_in self.now) texts result
            ≡ argument_of (tables_in self.now) texts value.now }
        ensures live { IsLiveNew (tables_in self.now) result }
        ensures other { IfSome (moved_object result) (IsOther on) }
        ensures spare { IfSome (moved_object result)
            (IsUnnamedValue (names_in self.now) value.now) }
    {
        if let Some(id) = value.object() {
            if self.is_spare(on, id) {
                return NewValue::Moved(id);
            }
        }
        NewValue::Copied(value)
    }

    // Whether a name stands for the value, and none for the object.
    fn is_spare(&self, on: Value, id: ObjId) -> bool
        ensures { result ≡ is_spare (names_in self.now) on id }
    {
        match on {
            Value::Object(on) => self.names.has(on) && !self.names.has(id),
            Value::Scalar(_) => false,
        }
    }

    /// A column is taken out of a frame. A label that no column has is a `KeyError`, and what is no frame a
    /// `TypeError`; each leaves all objects as they were.
    pub fn remove(&mut self, on: Value, label: Value) -> Result<(), OpFault>
        requires on { IsKnownValue (world_of self.old) on }
        requires label { IsKnownValue (world_of self.old) label }
        ensures names { names_in self.new ≡ names_in self.old }
        ensures sets { SetsFor free result on (removal_result
            (entry_in (world_of self.old) on) (entry_in (world_of self.old) label))
            (world_of self.old) (world_of self.new) }
        ensures charge { self.new.charge ≡ self.old.charge }
    {
        frame_set::remove(self.alloc, &mut self.store, &self.dict, on, label)
    }

    /// The number of rows. A scalar, which has none, is a `TypeError`.
    pub fn length(&self, on: Value) -> Result<Value, OpFault>
        requires { IsKnownValue (world_of self.now) on }
        ensures { FormsIn result (λ _. 0)
            (length_result (entry_in (world_of self.now) on)) self.now self.now }
    {
        match on {
            Value::Object(id) => {
                let rows = self.store.read(id).rows() as u64;
                Ok(Value::Scalar(Cell::Int(rows.cast_signed())))
            }
            Value::Scalar(_) => Err(OpFault::Refused(Code::WrongKind)),
        }
    }
}

// An object that was made is noted.
fn note(temps: &mut Vec<ObjId>, made: Value)
    requires { vec_len temps.old < vec_capacity temps.old }
    ensures { temps.new.items ≡ noted temps.old.items made }
{
    if let Value::Object(id) = made {
        temps.push_reserved(id);
    }
}

// The operator of a column's kernel.
fn operator_of(op: Binary) -> Operator
    ensures { operator_of result ≡ binary_of op }
{
    match op {
        Binary::Add => Operator::Add,
        Binary::Sub => Operator::Sub,
        Binary::Mul => Operator::Mul,
        Binary::FloorDiv => Operator::FloorDiv,
        Binary::Mod => Operator::Mod,
        Binary::Eq => Operator::Eq,
        Binary::Ne => Operator::Ne,
        Binary::Lt => Operator::Lt,
        Binary::Le => Operator::Le,
        Binary::Gt => Operator::Gt,
        Binary::Ge => Operator::Ge,
        Binary::And => Operator::And,
        Binary::Or => Operator::Or,
        Binary::Xor => Operator::Xor,
    }
}

fn is_minus(op: Unary) -> bool
    ensures { result ≡ is_minus (unary_of op) }
{
    match op {
        Unary::Minus => true,
        Unary::Invert => false,
    }
}

/// The function of `pd` that has this name, and else an `AttributeError` that gives the name, or want of memory.
pub fn expect_function(alloc: Global, name: &str) -> Result<Function, EvalFault>
    ensures known { IfOk result (λ f. function_named name.now ≡ Some f) }
    ensures fault { IfErr result
        (λ f. IsNoAttribute f name.now (is_some (function_named name.now))) }
{
    match function_named(name) {
        Some(function) => Ok(function),
        None => Err(no_attribute(alloc, name)),
    }
}

/// That there is a method of texts of this name, and else an `AttributeError` that gives the name, or want of memory.
pub fn expect_str_method(alloc: Global, name: &str) -> Result<(), EvalFault>
    ensures known { OnOk result (has_str_method name.now ≡ true) }
    ensures fault { IfErr result (λ f. IsNoAttribute f name.now (has_str_method name.now)) }
{
    if text_exists(name) {
        return Ok(());
    }
    Err(no_attribute(alloc, name))
}

/// The fault of an attribute that isn't there, an `AttributeError` that gives the name; or want of memory.
pub fn no_attribute(alloc: Global, name: &str) -> EvalFault
    ensures { IsNoAttribute result name.now false }
{
    match Words::from_text(alloc, name) {
        Ok(name) => EvalFault::Refused(Code::NoAttribute(name)),
        Err(_) => EvalFault::NoMemory,
    }
}
