//! What names lead to: a search that scans each object once, when it is found. What is reachable is what the world and the registers lead
//! to; what is promoted is what the registers and the kept objects lead to among the names made.
ghost use Rattle.std.specs.Prelude.{◌≡◌, ◌∷◌, [], Bool, IfOk, OnOk, Some, true};
ghost use Rattle.lxr_layout.specs.declared.Name.{Name as NameOf};
ghost use Rattle.lxr_graph.specs.Names.{IsSetOf, has};
ghost use Rattle.lxr_model.specs.Dead.{Promoted};
ghost use Rattle.lxr_model.specs.Reachable.{Reachable};
ghost use Rattle.lxr_judge_sets.specs.Leading.{Finds, FindsAll, FindsFrom};

use crate::NameSet;
use lxr_graph::Graph;
use lxr_layout::Name;
use std::alloc::{AllocError, Global};

/// Which names a search may find.
trait Candidates {
    /// Whether it may find a name.
    ghost may: { Self → NameOf → Bool };

    /// Whether it may find a name.
    fn may_be(&self, name: Name) -> bool
        ensures { result ≡ may self.now name };
}

/// All names.
struct Everything;

impl Candidates for Everything {
    ghost may = { λ everything n. true };

    fn may_be(&self, _name: Name) -> bool {
        true
    }
}

impl Candidates for NameSet {
    ghost may = { has };

    fn may_be(&self, name: Name) -> bool {
        self.has(name)
    }
}

/// Finds a name, where it is a candidate.
fn find<C: Candidates>(candidates: &C, found: &mut NameSet, name: Name) -> Result<(), AllocError>
    ensures { OnOk result (Finds (C.may candidates.now) found.old (Some name ∷ []) found.new) }
{
    if candidates.may_be(name) {
        found.insert(name)?;
    }
    Ok(())
}

/// Finds what references or registers hold.
fn find_held<C: Candidates>(
    candidates: &C,
    found: &mut NameSet,
    references: &[Option<Name>],
) -> Result<(), AllocError>
    ensures { OnOk result (Finds (C.may candidates.now) found.old references.now found.new) }
{
    for reference in references {
        if let Some(name) = reference {
            find(candidates, found, *name)?;
        }
    }
    Ok(())
}

/// Finds what the objects of some names refer to.
fn find_from<C: Candidates>(
    graph: &Graph,
    candidates: &C,
    found: &mut NameSet,
    names: &[Name],
) -> Result<(), AllocError>
    ensures { OnOk result (FindsFrom graph.now.graph (C.may candidates.now) found.old names.now found.new) }
{
    for name in names {
        find_held(candidates, found, graph.references(*name))?;
    }
    Ok(())
}

/// Finds all that the names found so far lead to. Each object is scanned once.
fn follow<C: Candidates>(
    graph: &Graph,
    candidates: &C,
    found: &mut NameSet,
) -> Result<(), AllocError>
    ensures { OnOk result (FindsAll graph.now.graph (C.may candidates.now) found.old found.new) }
{
    let mut next = 0;
    while let Some(name) = found.get(next) {
        find_held(candidates, found, graph.references(name))?;
        next += 1;
    }
    Ok(())
}

/// The reachable names, in order.
pub fn reachable(alloc: Global, graph: &Graph) -> Result<NameSet, AllocError>
    ensures { IfOk result (λ set. IsSetOf set (Reachable graph.now)) }
{
    let mut found = NameSet::new(alloc)?;
    let world = Name {
        thread: 0,
        serial: 0,
    };
    find(&Everything, &mut found, world)?;
    find_held(&Everything, &mut found, graph.registers())?;
    follow(graph, &Everything, &mut found)?;
    Ok(found.in_order())
}

/// The promoted among the names made, in order, where these are the kept names.
pub fn promoted(
    alloc: Global,
    graph: &Graph,
    kept: &[Name],
    made: &NameSet,
) -> Result<NameSet, AllocError>
    ensures { IfOk result (λ set. IsSetOf set (Promoted graph.now kept.now made.now)) }
{
    let mut found = NameSet::new(alloc)?;
    find_held(made, &mut found, graph.registers())?;
    find_from(graph, made, &mut found, kept)?;
    follow(graph, made, &mut found)?;
    Ok(found.in_order())
}
