//! What is known of one group.

ghost use Rattle.std.specs.Prelude.{◌≡◌, length, map, slice_index_or, IfOk};
ghost use Rattle.pg_value.specs.declared.value.Value.TheVariants.{Null};
ghost use Rattle.group_values.specs.Groups.{shown_value, line};
ghost use Rattle.group_values.specs.work.Steps.{begun, blank, can_rise, first_of, has_room, have_room, joined, risen, with_args, with_one};

use crate::lists::Values;
use crate::orders::directed_order;
use crate::shape::{Call, Shown};
use pg_base::Memory;
use pg_value::Value;
use std::alloc::Global;
use std::marker::Model;
use std::mem;

/// The values of the GROUP BY columns of a group, and what each call gives so far. Contracts see a `Summary`.
pub struct Kept {
    keys: Values,
    called: Vec<Value>,
}

impl Drop for Kept {
    fn drop(self) {
        let Kept { keys: _, called: _ } = self;
    }
}

impl Model for Kept {
    ghost use Rattle.group_values.specs.Shapes.{Summary};

    ghost Value = { Summary };

    ghost view = { λ k. record { keys = k.keys; called = k.called.items } };
}

impl Kept {
    /// A group without tuples yet.
    pub fn new(alloc: Global, calls: &[Call], keys: Values) -> Result<Kept, Memory>
        ensures { IfOk result (λ k. k ≡ record { keys = keys; called = map blank calls.now }) }
    {
        let called = blanks(alloc, calls)?;
        Ok(Kept { keys, called })
    }

    /// A group of one tuple. The error means out of memory.
    pub fn begin(alloc: Global, calls: &[Call], keys: Values, args: Values) -> Result<Kept, Memory>
        requires { length args ≡ length calls.now }
        ensures { IfOk result (λ k. k ≡ begun calls.now keys args) }
    {
        let mut group = Kept::new(alloc, calls, keys)?;
        group.join(calls, args);
        Ok(group)
    }

    /// The values of the GROUP BY columns.
    pub fn keys(&self) -> &[Value]
        ensures { result.now ≡ self.now.keys }
    {
        self.keys.items()
    }

    /// Whether the number of tuples that each call gives can rise.
    pub fn has_room(&self, calls: &[Call]) -> bool
        requires { length self.now.called ≡ length calls.now }
        ensures { result ≡ have_room calls.now self.now.called }
    {
        have_room(calls, &self.called)
    }

    /// Takes in the values that one more tuple has for the calls.
    pub fn join(&mut self, calls: &[Call], mut args: Values)
        requires called { length self.old.called ≡ length calls.now }
        requires args { length args ≡ length calls.now }
        ensures { self.new ≡ joined calls.now args self.old }
    {
        join_each(calls, &mut self.called, &mut args.values);
    }

    /// The line that shows these items of the group. The error means out of memory.
    pub fn line(&self, alloc: Global, items: &[Shown]) -> Result<Values, Memory>
        ensures { IfOk result (λ l. l ≡ line items.now self.now) }
    {
        let mut values = Vec::new(alloc);
        for item in items {
            let value = self.cell(alloc, *item)?;
            values.push(value)?;
        }
        Ok(Values { values })
    }

    /// The value that an item shows, NULL past the columns or the calls. The error means out of memory.
    fn cell(&self, alloc: Global, item: Shown) -> Result<Value, Memory>
        ensures { IfOk result (λ v. v ≡ shown_value self.now item) }
    {
        match item {
            Shown::Key(place) => copy_at(alloc, self.keys.items(), place as usize),
            Shown::Called(place) => copy_at(alloc, &self.called, place as usize),
        }
    }
}

/// The value at a place of a list, NULL past its end. The error means out of memory.
fn copy_at(alloc: Global, values: &[Value], place: usize) -> Result<Value, Memory>
    ensures { IfOk result (λ v. v ≡ slice_index_or values.now place Null) }
{
    match values.get(place) {
        Some(value) => value.copy(alloc),
        None => Ok(Value::Null),
    }
}

/// What calls give of no tuple.
fn blanks(alloc: Global, calls: &[Call]) -> Result<Vec<Value>, Memory>
    ensures { IfOk result (λ v. v.items ≡ map blank calls.now) }
{
    calls.iter().map(|call| blank(*call)).collect(alloc)
}

/// What a call gives of no tuple.
fn blank(call: Call) -> Value
    ensures { result ≡ blank call }
{
    match call {
        Call::CountAll | Call::Count => Value::Int(0),
        Call::Min | Call::Max => Value::Null,
    }
}

/// Whether the number of tuples that each call gives can rise.
fn have_room(calls: &[Call], called: &[Value]) -> bool
    requires { length called.now ≡ length calls.now }
    ensures { result ≡ have_room calls.now called.now }
{
    for n in 0..calls.len() {
        if !has_room(calls[n], &called[n]) {
            return false;
        }
    }
    true
}

/// Whether the number of tuples that a call gives can rise.
fn has_room(call: Call, value: &Value) -> bool
    ensures { result ≡ has_room call value.now }
{
    match call {
        Call::CountAll | Call::Count => can_rise(value),
        Call::Min | Call::Max => true,
    }
}

/// Whether a count can rise within int8.
fn can_rise(value: &Value) -> bool
    ensures { result ≡ can_rise value.now }
{
    match value {
        Value::Int(n) => *n < i64::MAX,
        _ => true,
    }
}

/// Takes in the value of each call's column at one more tuple.
fn join_each(calls: &[Call], called: &mut [Value], args: &mut [Value])
    requires called { length called.old ≡ length calls.now }
    requires args { length args.old ≡ length calls.now }
    ensures { called.new ≡ with_args calls.now called.old args.old }
{
    for n in 0..calls.len() {
        join_one(calls[n], &mut called[n], &mut args[n]);
    }
}

/// Takes in the value of one call's column.
fn join_one(call: Call, value: &mut Value, arg: &mut Value)
    ensures { value.new ≡ with_one call value.old arg.old }
{
    match call {
        Call::CountAll => rise(value),
        Call::Count => {
            if !matches!(arg, Value::Null) {
                rise(value);
            }
        }
        Call::Min => keep_first(false, value, arg),
        Call::Max => keep_first(true, value, arg),
    }
}

/// One more, where a count can rise.
fn rise(value: &mut Value)
    ensures { value.new ≡ risen value.old }
{
    if let Value::Int(n) = value {
        if *n < i64::MAX {
            *n += 1;
        }
    }
}

/// Keeps the one of two values that stands first, the former where they tie.
fn keep_first(descending: bool, value: &mut Value, arg: &mut Value)
    ensures { value.new ≡ first_of descending value.old arg.old }
{
    if directed_order(descending, false, value, arg).is_gt() {
        mem::swap(value, arg);
    }
}
