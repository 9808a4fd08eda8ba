//! Objects, and the rows of objects of threads. The index in a row gives the serial, so a lookup is two index steps.
ghost use Rattle.std.specs.Prelude.{◌≡◌, ◌+◌, ◌-◌, ◌<◌, ◌++◌, ◌∷◌, [], IfOk, OnErr, length, slice_get, slice_set};
ghost use Rattle.std.specs.Option.{option_copied};
ghost use Rattle.lxr_graph.specs.State.{object_at, refs_of, shape_of, values_of, with_reference, with_reference_at, with_value, with_value_at};
ghost use Rattle.lxr_graph.specs.State as serial;
ghost use Rattle.lxr_graph.specs.Step.{fresh};

use lxr_layout::{Name, Shape};
use std::alloc::{AllocError, Global};
use std::marker::Model;

/// An object: its references and its data.
#[derive(Drop)]
pub(crate) struct Body {
    refs: Vec<Option<Name>>,
    values: Vec<u64>,
}

impl Model for Body {
    ghost use Rattle.lxr_graph.specs.State.{Object};

    ghost Value = { Object };

    ghost view = { λ a. record { refs = a.refs.items; values = a.values.items } };

    ghost use Rattle.std.specs.Prelude.{◌^◌, ◌<◌, length};

    ghost invariant = { λ a. (length a.refs.items < 2 ^ 16) × (length a.values.items < 2 ^ 16) };
}

/// The objects of one thread, oldest first.
#[derive(Drop)]
pub(crate) struct Row {
    bodies: Vec<Body>,
}

impl Model for Row {
    ghost use Rattle.std.specs.Prelude.{List};
    ghost use Rattle.lxr_graph.specs.State.{Object};

    ghost Value = { List Object };

    ghost view = { λ a. a.bodies.items };
}

impl Body {
    pub(crate) fn new(alloc: Global, shape: Shape) -> Result<Body, AllocError>
        ensures { IfOk result (λ body. body ≡ fresh shape) }
    {
        Ok(Body {
            refs: vec![in alloc; None; usize::from(shape.refs)]?,
            values: vec![in alloc; 0; usize::from(shape.values)]?,
        })
    }

    pub(crate) fn references(&self) -> &[Option<Name>]
        ensures { result.now ≡ self.now.refs }
    {
        &self.refs
    }

    pub(crate) fn values(&self) -> &[u64]
        ensures { result.now ≡ self.now.values }
    {
        &self.values
    }

    pub(crate) fn shape(&self) -> Shape
        ensures { result ≡ shape_of self.now }
    {
        Shape {
            refs: self.refs.len() as u16,
            values: self.values.len() as u16,
        }
    }

    pub(crate) fn reference(&self, index: u16) -> Option<Option<Name>>
        ensures { result ≡ slice_get self.now.refs index }
    {
        self.refs.get(usize::from(index)).copied()
    }

    pub(crate) fn value(&self, index: u16) -> Option<u64>
        ensures { result ≡ slice_get self.now.values index }
    {
        self.values.get(usize::from(index)).copied()
    }

    pub(crate) fn set_reference(&mut self, index: u16, reference: Option<Name>)
        requires { index < length self.old.refs }
        ensures { self.new ≡ record self.old { refs = slice_set self.old.refs index reference } }
    {
        self.refs[usize::from(index)] = reference;
    }

    pub(crate) fn set_value(&mut self, index: u16, value: u64)
        requires { index < length self.old.values }
        ensures { self.new ≡ record self.old { values = slice_set self.old.values index value } }
    {
        self.values[usize::from(index)] = value;
    }
}

impl Row {
    pub(crate) fn new(alloc: Global) -> Row
        ensures { result ≡ [] }
    {
        Row {
            bodies: Vec::new(alloc),
        }
    }

    pub(crate) fn len(&self) -> usize
        ensures { result ≡ length self.now }
    {
        self.bodies.len()
    }

    pub(crate) fn push(&mut self, body: Body) -> Result<(), AllocError>
        ensures ok { IfOk result (λ _. self.new ≡ self.old ++ body ∷ []) }
        ensures err { OnErr result (self.new ≡ self.old) }
    {
        self.bodies.push(body)?;
        Ok(())
    }

    pub(crate) fn body(&self, at: usize) -> Option<&Body>
        ensures { option_copied result ≡ slice_get self.now at }
    {
        self.bodies.get(at)
    }

    pub(crate) fn set_reference(&mut self, at: usize, index: u16, reference: Option<Name>)
        requires { index < length (refs_of (slice_get self.old at)) }
        ensures { self.new ≡ with_reference_at self.old at index reference (slice_get self.old at) }
    {
        let body = &mut self.bodies[at];
        body.set_reference(index, reference);
    }

    pub(crate) fn set_value(&mut self, at: usize, index: u16, value: u64)
        requires { index < length (values_of (slice_get self.old at)) }
        ensures { self.new ≡ with_value_at self.old at index value (slice_get self.old at) }
    {
        let body = &mut self.bodies[at];
        body.set_value(index, value);
    }
}

pub(crate) fn first_serial(thread: u8) -> u32
    ensures { result ≡ serial.first_serial thread }
{
    if thread == 0 { 0 } else { 1 }
}

/// The body of a name, if the rows have it.
pub(crate) fn body_of(rows: &[Row], name: Name) -> Option<&Body>
    ensures { option_copied result ≡ object_at rows.now name }
{
    let first = first_serial(name.thread);
    if name.serial < first {
        return None;
    }
    match rows.get(usize::from(name.thread)) {
        None => None,
        Some(row) => row.body((name.serial - first) as usize),
    }
}

pub(crate) fn reference_of(rows: &[Row], name: Name, index: u16) -> Option<Option<Name>>
    ensures { result ≡ slice_get (refs_of (object_at rows.now name)) index }
{
    match body_of(rows, name) {
        None => None,
        Some(body) => body.reference(index),
    }
}

pub(crate) fn value_of(rows: &[Row], name: Name, index: u16) -> Option<u64>
    ensures { result ≡ slice_get (values_of (object_at rows.now name)) index }
{
    match body_of(rows, name) {
        None => None,
        Some(body) => body.value(index),
    }
}

pub(crate) fn set_reference(rows: &mut [Row], name: Name, index: u16, reference: Option<Name>)
    requires { index < length (refs_of (object_at rows.old name)) }
    ensures { rows.new ≡ with_reference rows.old name index reference (object_at rows.old name) }
{
    let at = (name.serial - first_serial(name.thread)) as usize;
    rows[usize::from(name.thread)].set_reference(at, index, reference);
}

pub(crate) fn set_value(rows: &mut [Row], name: Name, index: u16, value: u64)
    requires { index < length (values_of (object_at rows.old name)) }
    ensures { rows.new ≡ with_value rows.old name index value (object_at rows.old name) }
{
    let at = (name.serial - first_serial(name.thread)) as usize;
    rows[usize::from(name.thread)].set_value(at, index, value);
}
