//! Sets of names: whether one has a name is told at once, and its names stand in a list.
ghost use Rattle.std.specs.Prelude.{◌≡◌, ◌<◌, [], IfOk, IfSome, IsTrue, OnErr, OnOk, slice_get};
ghost use Rattle.lxr_layout.specs.declared.Name.{Name as NameOf};
ghost use Rattle.lxr_graph.specs.Names.{AreInOrder, has, union, without};
ghost use Rattle.lxr_graph.specs.Distinct.{IsDistinct};
ghost use Rattle.lxr_judge_sets.specs.NameSets.{all_joined, joined};

use crate::by_name::ByName;
use lxr_base::Listed;
use lxr_graph::{Names, sort_names};
use lxr_layout::Name;
use std::alloc::{AllocError, Global};
use std::marker::Model;

/// A set of names. Contracts see it as the list of its names, in the order in which they came, each once.
#[derive(Drop)]
pub struct NameSet {
    marks: ByName<bool>,
    names: Vec<Name>,
}

impl Model for NameSet {
    ghost use Rattle.std.specs.Prelude.{List};
    ghost use Rattle.lxr_layout.specs.declared.Name.{Name};
    ghost use Rattle.lxr_judge_sets.specs.NameSets.{IsMarked};

    ghost Value = { List Name };

    ghost view = { λ s. s.names.items };

    ghost invariant = { λ s. IsMarked s.marks s.names.items };
}

/// The names of a list that a set doesn't have.
fn not_in(alloc: Global, names: &[Name], out: &NameSet) -> Result<Vec<Name>, AllocError>
    ensures { IfOk result (λ left. left.items ≡ without names.now out.now) }
{
    names
        .iter()
        .copied()
        .filter(|name| !out.has(*name))
        .collect(alloc)
}

impl NameSet {
    /// No names.
    pub fn new(alloc: Global) -> Result<NameSet, AllocError>
        ensures { IfOk result (λ set. set ≡ []) }
    {
        let marks = ByName::new(alloc, false)?;
        Ok(NameSet {
            marks,
            names: Vec::new(alloc),
        })
    }

    /// The names of a list.
    pub fn of(alloc: Global, names: &[Name]) -> Result<NameSet, AllocError>
        ensures members { IfOk result (λ set. (n : NameOf) → has set n ≡ has names.now n) }
        ensures once { IfOk result (λ set. IsDistinct names.now → set ≡ names.now) }
    {
        let mut set = NameSet::new(alloc)?;
        set.insert_all(names)?;
        Ok(set)
    }

    /// Whether the set has a name.
    pub fn has(&self, name: Name) -> bool
        ensures { result ≡ has self.now name }
    {
        self.marks.at(name)
    }

    /// Its names, each once.
    pub fn names(&self) -> &[Name]
        ensures names { result.now ≡ self.now }
        ensures once { IsDistinct self.now }
    {
        &self.names
    }

    /// The name at an index in the order in which they came; none where there is none.
    pub fn get(&self, at: usize) -> Option<Name>
        ensures name { result ≡ slice_get self.now at }
        ensures below { IfSome result (λ _. at < usize.MAX) }
    {
        self.names.get(at).copied()
    }

    /// Puts a name in, where it isn't there yet. Where memory runs out nothing has changed.
    pub fn insert(&mut self, name: Name) -> Result<(), AllocError>
        ensures ok { OnOk result (self.new ≡ joined self.old name) }
        ensures err { OnErr result (self.new ≡ self.old) }
    {
        if self.marks.at(name) {
            return Ok(());
        }
        self.names.reserve(1)?;
        self.marks.set(name, true)?;
        self.names.push_reserved(name);
        Ok(())
    }

    /// Puts the names of a list in, one after another.
    pub fn insert_all(&mut self, names: &[Name]) -> Result<(), AllocError>
        ensures { OnOk result (self.new ≡ all_joined self.old names.now) }
    {
        for name in names {
            self.insert(*name)?;
        }
        Ok(())
    }

    /// Those of its names that another set doesn't have, in their order.
    pub fn without(&self, alloc: Global, out: &NameSet) -> Result<NameSet, AllocError>
        ensures { IfOk result (λ left. left ≡ without self.now out.now) }
    {
        let left = not_in(alloc, &self.names, out)?;
        NameSet::of(alloc, &left)
    }

    /// Those of its names that neither of two other sets has, in their order.
    pub fn without_both(
        &self,
        alloc: Global,
        first: &NameSet,
        second: &NameSet,
    ) -> Result<NameSet, AllocError>
        ensures { IfOk result (λ left. left ≡ without (without self.now first.now) second.now) }
    {
        let some = self.without(alloc, first)?;
        some.without(alloc, second)
    }

    /// The names of both sets, in their order.
    pub fn union(&self, alloc: Global, other: &NameSet) -> Result<NameSet, AllocError>
        ensures { IfOk result (λ both. AreInOrder other.now → both ≡ union self.now other.now) }
    {
        let mut both = NameSet::of(alloc, &other.names)?;
        both.insert_all(&self.names)?;
        Ok(both.in_order())
    }

    /// The same names in their order: by thread, and those of one thread by serial.
    pub fn in_order(self) -> NameSet
        ensures order { AreInOrder result }
        ensures members { (n : NameOf) → has result n ≡ has self n }
    {
        let NameSet { marks, names } = self;
        let mut names = Listed::from_vec(names);
        sort_names(&mut names);
        NameSet {
            marks,
            names: names.into_vec(),
        }
    }

    /// Its names alone, in the same memory, which can be read.
    pub fn into_names(self) -> Names
        ensures names { result.items ≡ self }
        ensures listed { IsTrue result.listed }
    {
        Names::of(Listed::from_vec(self.names))
    }
}
