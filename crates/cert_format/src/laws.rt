//! What the front of a text says of certificates. Each function does nothing: its clause is a law.

ghost use Rattle.std.specs.Prelude.{◌≡◌, ◌↔◌, ℕ, ℤ, pos, List, []};
ghost use Rattle.certificate_model.specs.Nodes.{Node, nodes_of};
ghost use Rattle.certificate_model.specs.Text.{Reads};
ghost use Rattle.certificate_model.specs.Tree.{Tree};
ghost use Rattle.cert_format.specs.Fronts.{front_of, whole_front};
ghost use Rattle.cert_format.specs.Progress.{progress_of};
ghost use Rattle.cert_format.specs.Readers.{AreTold, bound_told, nodes_told};
ghost use Rattle.cert_format.specs.declared.event.Event.{Event};

/// A text is read to its end exactly where it is that of a bound and of a tree, whose numbers have a spelling: what is read then is
/// the bound and the nodes of the tree.
pub fn a_whole_front_is_a_tree()
    ensures { (text : List ℕ) (b : ℤ) (nodes : List Node) →
        (front_of text ≡ whole_front b nodes) ↔ ((tree : Tree) × (Reads text b tree × nodes ≡ nodes_of tree)) }
{}

/// Whatever the cut, the events that a reader answers from the first byte on tell the bound and the nodes that the text says before its
/// first line that breaks. How the text ends is what the reader answers last (`Reader::finish`).
pub fn events_tell_the_front()
    ensures bound { (events : List Event) (text : List ℕ) → AreTold events (progress_of []) (progress_of text) → (front_of text).bound ≡ bound_told events (pos 0) }
    ensures nodes { (events : List Event) (text : List ℕ) → AreTold events (progress_of []) (progress_of text) → (front_of text).nodes ≡ nodes_told events [] }
{}
