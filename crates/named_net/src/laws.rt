//! What the names of a network say of its cells. Each function does nothing: its clauses are laws, and a caller that calls it
//! knows them.

ghost use Rattle.std.specs.Prelude.{◌≡◌, ◌<◌, None, length, IsSome};
ghost use Rattle.ct_base.specs.Access.{cell_of};
ghost use Rattle.ct_base.specs.declared.cell.Kind.TheVariants.{Queue, Road};
ghost use Rattle.named_net.specs.Naming.{place_at};

use crate::named::NamedNet;

/// A queue, and no other cell, has no place among the road cells of its link. The link is there.
pub fn a_queue_alone_has_no_place(named: &NamedNet, cell: u32)
    requires { cell < length named.now.net.cells }
    ensures queue { (cell_of named.now.net.cells cell).kind ≡ Queue → (place_at named.now.names cell).road ≡ None }
    ensures road { (cell_of named.now.net.cells cell).kind ≡ Road → IsSome (place_at named.now.names cell).road }
    ensures link { (place_at named.now.names cell).link < length named.now.names.links }
{
    // What a named network keeps of its names: they fit it.
    let _names = named.names();
}
