//! What the tree of a search shows, and how large it can grow. Each function does nothing: its clause is a law, which a caller that
//! calls it knows.

ghost use Rattle.std.specs.Prelude.{ℕ, ◌+◌, ◌<◌, ◌≤◌, ◌^◌, ◌≡◌, ◌≤ℤ◌, ◌-ℤ◌, ◌*ℤ◌, ℤ, false, All, length};
ghost use Rattle.ct_base.specs.Validity.{IsValid};
ghost use Rattle.ct_base.specs.declared.net.Net.{Net};
ghost use Rattle.ct_base.specs.declared.plan.Plan.{Plan};
ghost use Rattle.sparse_program.specs.Box.{Ranges};
ghost use Rattle.sparse_program.specs.Program.{row_of, terms_of};
ghost use Rattle.sparse_program.specs.Terms.{terms_sum};
ghost use Rattle.traffic_model.specs.Runs.{IsAdmissiblePlan};
ghost use Rattle.program_model.specs.Points.{program_of};
ghost use Rattle.certificate_model.specs.Certificates.{Certifies, root_of};
ghost use Rattle.certificate_model.specs.Leaves.{IsGoodLeaf, plan_delay};
ghost use Rattle.certificate_model.specs.Nodes.{nodes_of};
ghost use Rattle.certificate_model.specs.Reasons.{IsUnfixed};
ghost use Rattle.certificate_model.specs.Tree.{IsGood, IsLeafOf, Leaf, Tree};
ghost use Rattle.certificate_model.specs.Value.{value};
ghost use Rattle.search_model.specs.Breaks.{IsFixedAt, one_price};
ghost use Rattle.search_model.specs.LeafNumbers.{GivesNumber, IsGivenIn, IsLawfulLeaf, IsLeastGiven};
ghost use Rattle.search_model.specs.Splits.{AreFirstSplits, HasBits, unfixed_count};

/// The plan columns of a network are bits in the box of all points.
pub fn plan_columns_are_bits()
    ensures { (net : Net) → HasBits net (root_of net) }
{}

/// A tree whose splits are each on the first plan column that is left open has fewer nodes than 2 to the power of the number of open
/// columns and one. Where some leaf still leaves a plan column open, two more nodes fit.
pub fn trees_of_first_splits_are_small()
    ensures most { (net : Net) (box : Ranges) (tree : Tree) → HasBits net box → AreFirstSplits net box tree →
        length (nodes_of tree) + 1 ≤ 2 ^ (unfixed_count net box + 1) }
    ensures room { (net : Net) (box inner : Ranges) (tree : Tree) (leaf : Leaf) → HasBits net box → AreFirstSplits net box tree →
        IsLeafOf box tree inner leaf → IsUnfixed net inner → length (nodes_of tree) + 3 ≤ 2 ^ (unfixed_count net box + 1) }
{}

/// A leaf that is lawful is good for each bound that is not above the number that it gives.
pub fn lawful_leaves_are_good_for_less()
    ensures { (net : Net) (bound : ℤ) (box : Ranges) (leaf : Leaf) → IsLawfulLeaf net box leaf →
        ((number : ℤ) → GivesNumber net box leaf number → bound ≤ℤ number) → IsGoodLeaf net bound box leaf }
{}

/// A tree of lawful leaves certifies the least number that a leaf gives.
pub fn trees_certify_their_least_number()
    ensures { (net : Net) (bound : ℤ) (tree : Tree) → IsGood (IsLawfulLeaf net) (root_of net) tree → IsLeastGiven net tree bound →
        Certifies net bound tree }
{}

/// Some leaf of a tree of lawful leaves gives a number that is not above the delay of an admissible plan: a valid network has such
/// a plan, and the leaf in whose box its point lies is not empty.
pub fn a_leaf_gives_no_more_than_a_delay()
    ensures { (net : Net) (tree : Tree) (plan : Plan) → IsValid net → IsGood (IsLawfulLeaf net) (root_of net) tree → IsAdmissiblePlan net plan →
        (number : ℤ) × (IsGivenIn net tree number × (number ≤ℤ plan_delay net plan)) }
{}

/// A plan whose delay a tree certifies as a bound has the least delay of all admissible plans.
pub fn plans_that_reach_a_bound_are_best()
    ensures { (net : Net) (bound : ℤ) (tree : Tree) (best other : Plan) → IsValid net → Certifies net bound tree → plan_delay net best ≡ bound →
        IsAdmissiblePlan net other → plan_delay net best ≤ℤ plan_delay net other }
{}

/// Where a box fixes the columns of a row, the value of a price on that row alone, without costs, is the price times what the row lacks
/// of its right side. So a row that fixed values break shows by a price of 1 or -1 that no point lies in the box.
pub fn a_broken_row_shows_an_empty_box()
    ensures { (net : Net) (box : Ranges) (row : ℕ) (price : ℤ) (x : ℕ → ℤ) → IsValid net → row < length (program_of net).rows →
        All (λ (term : ℕ × ℤ). IsFixedAt box x term.0) (terms_of (program_of net).rows row) →
        value (program_of net) false box (one_price row price) ≡ price *ℤ ((row_of (program_of net).rows row).rhs -ℤ terms_sum (terms_of (program_of net).rows row) x) }
{}
