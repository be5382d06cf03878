//! Why the bound of a certificate is safe. Each function does nothing: its clause is a law, which a caller that calls it knows.

ghost use Rattle.std.specs.Prelude.{◌≡◌, ◌↔◌, ℕ, ◌≤ℤ◌, ℤ, pos, ◌*ℤ◌, true, false, List, Some};
ghost use Rattle.ct_base.specs.Validity.{IsValid};
ghost use Rattle.ct_base.specs.declared.net.Net.{Net};
ghost use Rattle.ct_base.specs.declared.plan.Plan.{Plan};
ghost use Rattle.sparse_program.specs.Box.{Ranges};
ghost use Rattle.sparse_program.specs.Program.{Parts};
ghost use Rattle.traffic_model.specs.Runs.{IsAdmissiblePlan};
ghost use Rattle.certificate_model.specs.Certificates.{Certifies};
ghost use Rattle.certificate_model.specs.Leaves.{IsCeiling, IsGoodLeaf, plan_delay};
ghost use Rattle.certificate_model.specs.Nodes.{Node};
ghost use Rattle.certificate_model.specs.Text.{IsSpelled, IsWhole, bound_in, bound_line, node_in, node_line};
ghost use Rattle.certificate_model.specs.Tree.{IsGood, IsLeafOf, Leaf, Tree};
ghost use Rattle.certificate_model.specs.Verdicts.{Accepts, IsVerdict};
ghost use Rattle.certificate_model.specs.declared.verdict.Verdict.{Verdict};
ghost use Rattle.certificate_model.specs.declared.verdict.Verdict.TheVariants.{Accepted};
ghost use Rattle.certificate_model.specs.Value.{IsInside, IsPricedPoint, objective_at, scale, value_of_pairs};

/// The value of lawful prices is at most 1024 times the objective of every point that lies in the box and meets all rows, and
/// without costs at most 0: weak duality with bounded variables.
pub fn values_are_below_objectives()
    ensures cost { (program : Parts) (box : Ranges) (pairs : List (ℕ × ℤ)) (x : ℕ → ℤ) →
        IsPricedPoint program box pairs x → value_of_pairs program true box pairs ≤ℤ (pos scale *ℤ objective_at program x) }
    ensures no_cost { (program : Parts) (box : Ranges) (pairs : List (ℕ × ℤ)) (x : ℕ → ℤ) →
        IsPricedPoint program box pairs x → value_of_pairs program false box pairs ≤ℤ pos 0 }
{}

/// A value has one ceiling, so that whoever computes the number of a priced leaf finds the one that makes it good.
pub fn a_value_has_one_ceiling()
    ensures { (value m n : ℤ) → IsCeiling value m → IsCeiling value n → m ≡ n }
{}

/// The leaves of a tree cover its box, be the tree good or not: each point of whole numbers in the box lies in the box of a leaf of
/// the tree. In a good tree that leaf is good in its box.
pub fn leaves_cover_the_box()
    ensures cover { (columns : ℕ) (box : Ranges) (tree : Tree) (x : ℕ → ℤ) →
        IsInside columns box x → (inner : Ranges) × (leaf : Leaf) × (IsLeafOf box tree inner leaf × IsInside columns inner x) }
    ensures good { (net : Net) (bound : ℤ) (columns : ℕ) (box : Ranges) (tree : Tree) (x : ℕ → ℤ) →
        IsGood (IsGoodLeaf net bound) box tree → IsInside columns box x →
        (inner : Ranges) × (leaf : Leaf) × (IsLeafOf box tree inner leaf × IsGoodLeaf net bound inner leaf × IsInside columns inner x) }
{}

/// No admissible plan of a network has a delay below the bound that a tree certifies.
pub fn certified_bounds_are_safe()
    ensures { (net : Net) (bound : ℤ) (tree : Tree) (plan : Plan) →
        IsValid net → Certifies net bound tree → IsAdmissiblePlan net plan → bound ≤ℤ plan_delay net plan }
{}

/// A text is accepted with a bound exactly where it is that of the bound and of a tree that certifies it.
pub fn accepted_texts_show_their_bound()
    ensures { (net : Net) (text : List ℕ) (bound : ℤ) → IsVerdict net text (Accepted bound) ↔ Accepts net text bound }
{}

/// A text has at most one verdict for a valid network. So one that is rejected is accepted with no bound, and has one line that
/// breaks first and one reason.
pub fn a_text_has_one_verdict()
    ensures { (net : Net) (text : List ℕ) (v w : Verdict) → IsValid net → IsVerdict net text v → IsVerdict net text w → v ≡ w }
{}

/// No admissible plan of a network has a delay below a bound with which a text is accepted.
pub fn accepted_bounds_are_safe()
    ensures { (net : Net) (text : List ℕ) (bound : ℤ) (plan : Plan) →
        IsValid net → IsVerdict net text (Accepted bound) → IsAdmissiblePlan net plan → bound ≤ℤ plan_delay net plan }
{}

/// A line names a node exactly where it is written for that node, and the numbers of the node have a spelling.
pub fn nodes_have_one_line()
    ensures { (line : List ℕ) (node : Node) → (node_in line ≡ Some node) ↔ ((line ≡ node_line node) × IsSpelled node) }
{}

/// A line names a bound exactly where it is written for that bound, which has at most 15 digits.
pub fn bounds_have_one_line()
    ensures { (line : List ℕ) (b : ℤ) → (bound_in line ≡ Some b) ↔ ((line ≡ bound_line b) × IsWhole b) }
{}
