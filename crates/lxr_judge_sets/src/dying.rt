//! The dead: names of U die one after another, each when nothing refers to it any more, and let go of what they refer to.
ghost use Rattle.std.specs.Prelude.{◌≡◌, ◌&&◌, IfOk, OnOk, not};
ghost use Rattle.lxr_layout.specs.declared.Name.{Name as NameOf};
ghost use Rattle.lxr_graph.specs.Names.{IsSetOf, has};
ghost use Rattle.lxr_model.specs.Dead.{Dead};
ghost use Rattle.lxr_judge_sets.specs.ByName.{value_at};
ghost use Rattle.lxr_judge_sets.specs.Dying.{AreCountsLeft, LetsAllGo, LetsGo, Lowers, LowersHeld, ScansAll};

use crate::by_name::ByName;
use crate::{NameSet, Tally, references};
use lxr_graph::Graph;
use lxr_layout::Name;
use std::alloc::{AllocError, Global};

/// The dead of U, in order, and the references that are left to each name.
#[derive(Drop)]
pub struct Deaths {
    pub names: NameSet,
    pub counts: Tally,
}

/// Names that die: which may, how many references are left to each, and which have died, in the order in which they did.
#[derive(Drop)]
struct Dying {
    mortal: ByName<bool>,
    counts: Tally,
    gone: NameSet,
}

/// Which names of U may die: those that aren't stuck.
fn mortals(alloc: Global, us: &[Name], stuck: &NameSet) -> Result<ByName<bool>, AllocError>
    ensures { IfOk result (λ mortal. (o : NameOf) → value_at mortal o ≡ (has us.now o && not (has stuck.now o))) }
{
    let mut mortal = ByName::new(alloc, false)?;
    for name in us {
        mortal.set(*name, !stuck.has(*name))?;
    }
    Ok(mortal)
}

impl Dying {
    /// Lets a name die that may, where no reference to it is left.
    fn let_go(&mut self, name: Name) -> Result<(), AllocError>
        ensures { OnOk result (LetsGo self.old name self.new) }
    {
        if self.mortal.at(name) && self.counts.of(name) == 0 {
            self.gone.insert(name)?;
        }
        Ok(())
    }

    /// Takes one reference to a name away.
    fn lower(&mut self, name: Name) -> Result<(), AllocError>
        ensures { OnOk result (Lowers self.old name self.new) }
    {
        self.counts.lower(name)?;
        self.let_go(name)
    }

    /// Takes these references away.
    fn lower_held(&mut self, references: &[Option<Name>]) -> Result<(), AllocError>
        ensures { OnOk result (LowersHeld self.old references.now self.new) }
    {
        for reference in references {
            if let Some(name) = reference {
                self.lower(*name)?;
            }
        }
        Ok(())
    }

    /// Lets names die one after another.
    fn let_all_go(&mut self, names: &[Name]) -> Result<(), AllocError>
        ensures { OnOk result (LetsAllGo self.old names.now self.new) }
    {
        for name in names {
            self.let_go(*name)?;
        }
        Ok(())
    }

    /// Takes the references of the dead away, and of those that die meanwhile.
    fn follow(&mut self, graph: &Graph) -> Result<(), AllocError>
        ensures { OnOk result (ScansAll graph.now self.old self.new) }
    {
        let mut next = 0;
        while let Some(name) = self.gone.get(next) {
            self.lower_held(graph.references(name))?;
            next += 1;
        }
        Ok(())
    }
}

/// The dead of U, where some names are stuck. Each object of U is scanned once, and once more where it dies.
pub fn dead(
    alloc: Global,
    graph: &Graph,
    us: &NameSet,
    stuck: &NameSet,
) -> Result<Deaths, AllocError>
    ensures names { IfOk result (λ deaths. IsSetOf deaths.names (Dead graph.now us.now stuck.now)) }
    ensures counts { IfOk result (λ deaths. AreCountsLeft graph.now us.now stuck.now deaths.names deaths.counts) }
{
    let mut dying = Dying {
        mortal: mortals(alloc, us.names(), stuck)?,
        counts: references(alloc, graph, us.names())?,
        gone: NameSet::new(alloc)?,
    };
    dying.let_all_go(us.names())?;
    dying.follow(graph)?;
    Ok(Deaths {
        names: dying.gone.in_order(),
        counts: dying.counts,
    })
}
