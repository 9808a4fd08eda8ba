//! The new name of what is left, where names are renewed.
ghost use Rattle.std.specs.Prelude.{◌≡◌, ◌+◌, List, IsTrue, map};
ghost use Rattle.lxr_layout.specs.declared.Name.{Name as NameOf};
ghost use Rattle.lxr_graph.specs.Names.{AreInOrder, has};
ghost use Rattle.lxr_graph.specs.Renewing.{renewed_name, serial_in};
ghost use Rattle.lxr_large_model.specs.Renewing.{AreCounted, counted_name};

use lxr_graph::Count;
use lxr_layout::Name;

/// Where a name stands among counts in order of names, one of which is its own.
fn place_among(counts: &[Count], name: Name) -> usize
    requires order { AreInOrder (map counted_name counts.now) }
    requires among { IsTrue (has (map counted_name counts.now) name) }
    ensures { result + 1 ≡ serial_in (map counted_name counts.now) name }
{
    let mut from = 0;
    let mut end = counts.len();
    while from < end {
        let middle = from + (end - from) / 2;
        if counts[middle].name < name {
            from = middle + 1;
        } else {
            end = middle;
        }
    }
    from
}

/// The new name of one of the names that are renewed, or of the world, by the counts of all of them. It is found by halves.
pub fn renewed(counts: &[Count], name: Name) -> Name
    requires { (ns : List NameOf) × AreCounted counts.now ns × IsTrue (has (map counted_name counts.now) name) }
    ensures { (ns : List NameOf) → AreCounted counts.now ns → result ≡ renewed_name ns name }
{
    match place_among(counts, name) {
        0 => name,
        serial => Name {
            thread: 1,
            serial: serial as u32,
        },
    }
}
