//! Numbers by name, and the references to each name.
ghost use Rattle.std.specs.Prelude.{◌≡◌, ◌+◌, ◌-◌, IfOk, OnErr, OnOk};
ghost use Rattle.lxr_layout.specs.declared.Name.{Name as NameOf};
ghost use Rattle.lxr_model.specs.References.{occurrences, references, references_from};
ghost use Rattle.lxr_model_counting.specs.Lowering.{once};
ghost use Rattle.lxr_judge_sets.specs.ByName.{value_at};

use crate::by_name::ByName;
use lxr_graph::Graph;
use lxr_layout::Name;
use std::alloc::{AllocError, Global};
use std::marker::Model;

/// A number for each name, 0 at first.
#[derive(Drop)]
pub struct Tally {
    numbers: ByName<u32>,
}

impl Model for Tally {
    ghost use Rattle.std.specs.Prelude.{ℕ};
    ghost use Rattle.lxr_judge_sets.specs.ByName.{Cells};

    ghost Value = { Cells ℕ };

    ghost view = { λ t. t.numbers };
}

impl Tally {
    /// 0 for each name.
    pub fn new(alloc: Global) -> Result<Tally, AllocError>
        ensures { IfOk result (λ tally. (o : NameOf) → value_at tally o ≡ 0) }
    {
        let numbers = ByName::new(alloc, 0)?;
        Ok(Tally { numbers })
    }

    /// The number of a name.
    pub fn of(&self, name: Name) -> u32
        ensures { result ≡ value_at self.now name }
    {
        self.numbers.at(name)
    }

    /// Adds one to the number of a name. A number past 2^32 - 1 is want of memory, where nothing has changed.
    pub fn raise(&mut self, name: Name) -> Result<(), AllocError>
        ensures ok { OnOk result ((o : NameOf) → value_at self.new o ≡ value_at self.old o + once o name) }
        ensures err { OnErr result ((o : NameOf) → value_at self.new o ≡ value_at self.old o) }
    {
        match self.numbers.at(name).checked_add(1) {
            None => Err(AllocError),
            Some(more) => self.numbers.set(name, more),
        }
    }

    /// Takes one from the number of a name, unless it is 0.
    pub(crate) fn lower(&mut self, name: Name) -> Result<(), AllocError>
        ensures { OnOk result ((o : NameOf) → value_at self.new o ≡ value_at self.old o - once o name) }
    {
        let less = self.numbers.at(name).saturating_sub(1);
        self.numbers.set(name, less)
    }

    /// Adds to each name's number how many of these references or registers hold it.
    pub fn raise_held(&mut self, references: &[Option<Name>]) -> Result<(), AllocError>
        ensures { OnOk result ((o : NameOf) → value_at self.new o ≡ value_at self.old o + occurrences references.now o) }
    {
        for reference in references {
            if let Some(name) = reference {
                self.raise(*name)?;
            }
        }
        Ok(())
    }

    /// Adds to each name's number the references to it in the objects of these names.
    pub fn raise_references(&mut self, graph: &Graph, us: &[Name]) -> Result<(), AllocError>
        ensures { OnOk result ((o : NameOf) → value_at self.new o ≡ value_at self.old o + references_from graph.now.graph us.now o) }
    {
        for name in us {
            self.raise_held(graph.references(*name))?;
        }
        Ok(())
    }
}

/// How many references there are to each name: from the objects of U, and in registers.
pub fn references(alloc: Global, graph: &Graph, us: &[Name]) -> Result<Tally, AllocError>
    ensures { IfOk result (λ tally. (o : NameOf) → value_at tally o ≡ references graph.now us.now o) }
{
    let mut tally = Tally::new(alloc)?;
    tally.raise_held(graph.registers())?;
    tally.raise_references(graph, us)?;
    Ok(tally)
}
