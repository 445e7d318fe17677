//! The shapes of a store under test: whether a record that is to be made has its kind's.
ghost use Rattle.std.specs.Prelude.{◌≡◌, ◌≢◌, ◌≤◌, true, length};
ghost use Rattle.py_data.specs.declared.record.TheConstants.{LENGTH_LIMIT};
ghost use Rattle.py_base.specs.declared.kind.Kind.TheVariants.{Function, Class, Instance, Method, Iter, Thread};
ghost use Rattle.py_data.specs.declared.value.Value.TheVariants.{Ref, Unset};
ghost use Rattle.py_data.specs.Every.{Every};
ghost use Rattle.py_data.specs.Made.{rec_of};
ghost use Rattle.py_data.specs.Shape.{RefTo, HasShape, IsShaped, OnlyStrings, HoldsNoUnset};
ghost use Rattle.seg_store.specs.Meaning.{sees};

use super::Bench;
use crate::insists::Insists;
use crate::kinds::{has_bytes, same_kind};
use py_data::{Addr, Kind, LENGTH_LIMIT, Record, Value};
use seg_store::SegStore;

impl<S: SegStore> Bench<S> {
    /// A record of that kind is there.
    fn is_record(&self, rt: &impl Insists, k: u8, a: Addr, kind: Kind) -> bool
        ensures { result ≡ true → RefTo (sees (S.meaning self.now.store) k) kind (Ref a) }
    {
        if !self.there(k, a) {
            return false;
        }
        same_kind(self.kind(rt, k, a), kind)
    }

    /// The address of a record of that kind, as the segment sees it.
    pub fn refers(&self, rt: &impl Insists, k: u8, v: Value, kind: Kind) -> bool
        ensures { result ≡ true → RefTo (sees (S.meaning self.now.store) k) kind v }
    {
        match v {
            Value::Unset => false,
            Value::None => false,
            Value::Bool(_) => false,
            Value::Int(_) => false,
            Value::Ref(a) => self.is_record(rt, k, a, kind),
            Value::Builtin(_) => false,
        }
    }

    /// The values of a Function.
    fn is_function(&self, rt: &impl Insists, k: u8, vs: &[Value]) -> bool
        ensures { result ≡ true → HasShape (sees (S.meaning self.now.store) k) Function vs.now }
    {
        match vs {
            [name, Value::Int(4), defaults] => {
                self.refers(rt, k, *name, Kind::Str) && self.refers(rt, k, *defaults, Kind::Tuple)
            }
            _ => false,
        }
    }

    /// The values of a Class that has no base.
    fn is_first_class(&self, rt: &impl Insists, k: u8, vs: &[Value]) -> bool
        ensures { result ≡ true → HasShape (sees (S.meaning self.now.store) k) Class vs.now }
    {
        match vs {
            [name, Value::None, attributes] => {
                self.refers(rt, k, *name, Kind::Str) && self.refers(rt, k, *attributes, Kind::Dict)
            }
            _ => false,
        }
    }

    /// The values of an Instance.
    fn is_instance(&self, rt: &impl Insists, k: u8, vs: &[Value]) -> bool
        ensures { result ≡ true → HasShape (sees (S.meaning self.now.store) k) Instance vs.now }
    {
        match vs {
            [class, attributes] => {
                self.refers(rt, k, *class, Kind::Class)
                    && self.refers(rt, k, *attributes, Kind::Dict)
            }
            _ => false,
        }
    }

    /// The values of a Method of a builtin.
    fn is_method(&self, k: u8, vs: &[Value]) -> bool
        ensures { result ≡ true → HasShape (sees (S.meaning self.now.store) k) Method vs.now }
    {
        let _segment = k;
        match vs {
            [Value::Builtin(_), _] => true,
            _ => false,
        }
    }

    /// The values of an Iter that goes over a List, and is at its third item.
    fn is_iter(&self, rt: &impl Insists, k: u8, vs: &[Value]) -> bool
        ensures { result ≡ true → HasShape (sees (S.meaning self.now.store) k) Iter vs.now }
    {
        match vs {
            [over, Value::Int(3), Value::Int(9)] => self.refers(rt, k, *over, Kind::List),
            _ => false,
        }
    }

    /// The values of a Thread.
    fn is_thread(&self, rt: &impl Insists, k: u8, vs: &[Value]) -> bool
        ensures { result ≡ true → HasShape (sees (S.meaning self.now.store) k) Thread vs.now }
    {
        match vs {
            [_, args, Value::None, Value::Bool(_)] => self.refers(rt, k, *args, Kind::Tuple),
            [_, args, Value::Int(5), Value::Bool(_)] => self.refers(rt, k, *args, Kind::Tuple),
            _ => false,
        }
    }

    /// The values have the shape of a kind. A Dict has no pairs here.
    fn has_shape(&self, rt: &impl Insists, k: u8, kind: Kind, vs: &[Value]) -> bool
        ensures { result ≡ true → HasShape (sees (S.meaning self.now.store) k) kind vs.now }
    {
        match kind {
            Kind::Str => vs.is_empty(),
            Kind::Tuple => true,
            Kind::List => true,
            Kind::Dict => vs.is_empty(),
            Kind::Cell => matches!(vs, [_]),
            Kind::Function => self.is_function(rt, k, vs),
            Kind::Class => self.is_first_class(rt, k, vs),
            Kind::Instance => self.is_instance(rt, k, vs),
            Kind::Method => self.is_method(k, vs),
            Kind::Iter => self.is_iter(rt, k, vs),
            Kind::Range => matches!(vs, [Value::Int(1), Value::Int(9), Value::Int(1)]),
            Kind::Lock => matches!(vs, [Value::Bool(_)]),
            Kind::Thread => self.is_thread(rt, k, vs),
        }
    }

    /// The record has its kind's shape, and is within the limit. A Dict has no pairs.
    pub fn is_shaped(&self, rt: &impl Insists, k: u8, r: &Record) -> bool
        ensures shape { result ≡ true → IsShaped (sees (S.meaning self.now.store) k) (rec_of r.now) }
        ensures values { result ≡ true → length r.now.values ≤ LENGTH_LIMIT }
        ensures bytes { result ≡ true → length r.now.bytes ≤ LENGTH_LIMIT }
    {
        let vs = r.values.as_slice();
        if vs.len() > LENGTH_LIMIT || r.bytes.len() > LENGTH_LIMIT {
            return false;
        }
        if !only_strings(r.kind, r.bytes.as_slice()) || !holds_no_unset(r.kind, vs) {
            return false;
        }
        self.has_shape(rt, k, r.kind, vs)
    }
}

/// Bytes that a record of a kind may have.
fn only_strings(kind: Kind, bytes: &[u8]) -> bool
    ensures { result ≡ true → OnlyStrings kind bytes.now }
{
    has_bytes(kind) || bytes.is_empty()
}

/// Values that are set.
fn are_set(vs: &[Value]) -> bool
    ensures { result ≡ true → Every (λ v. v ≢ Unset) vs.now }
{
    'values: for v in vs {
        if *v == Value::Unset {
            return false;
        }
    }
    true
}

/// Unset stands in cells alone.
fn holds_no_unset(kind: Kind, vs: &[Value]) -> bool
    ensures { result ≡ true → HoldsNoUnset kind vs.now }
{
    match kind {
        Kind::Str => are_set(vs),
        Kind::Tuple => are_set(vs),
        Kind::List => are_set(vs),
        Kind::Dict => are_set(vs),
        Kind::Cell => true,
        Kind::Function => are_set(vs),
        Kind::Class => are_set(vs),
        Kind::Instance => are_set(vs),
        Kind::Method => are_set(vs),
        Kind::Iter => are_set(vs),
        Kind::Range => are_set(vs),
        Kind::Lock => are_set(vs),
        Kind::Thread => are_set(vs),
    }
}
