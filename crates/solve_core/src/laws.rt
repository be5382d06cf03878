//! What becomes of the tree of a search when a leaf is closed or split, and what a whole one shows. Each function does nothing: its
//! clause is a law, which a caller that calls it knows.

ghost use Rattle.std.specs.Prelude.{◌≡◌, ◌⊎◌, ℕ, ◌+◌, ◌*◌, ◌<◌, ◌≤◌, ◌^◌, ℤ, pos, ◌≤ℤ◌, IsTrue, Some, length};
ghost use Rattle.ct_base.specs.Validity.{IsValid};
ghost use Rattle.ct_base.specs.declared.net.Net.{Net};
ghost use Rattle.ct_base.specs.declared.plan.Plan.{Plan};
ghost use Rattle.traffic_model.specs.Runs.{IsAdmissiblePlan};
ghost use Rattle.program_model.specs.Points.{program_of};
ghost use Rattle.certificate_model.specs.Certificates.{root_of};
ghost use Rattle.certificate_model.specs.Leaves.{plan_delay};
ghost use Rattle.certificate_model.specs.Reasons.{IsUnfixed};
ghost use Rattle.certificate_model.specs.Tree.{IsSplit, Leaf, Tree};
ghost use Rattle.branch_tree.specs.Boxes.{Growing, IsGrowing, box_of, closed_at, split_at};
ghost use Rattle.branch_tree.specs.OpenTree.{Open, closed_of, has, is_open, size};
ghost use Rattle.sparse_program.specs.declared.limits.TheConstants.{MAX_ROWS};
ghost use Rattle.search_model.specs.LeafNumbers.{GivesNumber};
ghost use Rattle.search_model.specs.Splits.{HasBits, IsFirstUnfixed, unfixed_count};
ghost use Rattle.solve_core.specs.Growth.{IsClosedWell, IsTreeOf, no_number};
ghost use Rattle.solve_core.specs.Searched.{IsReached, IsSearched};
ghost use Rattle.solve_core.specs.Shapes.{open_leaves};
ghost use Rattle.solve_core.specs.declared.constants.TheConstants.{MAX_WORK};

/// The program of a valid network has at least five rows: a cell has a move at a step, with a switch row and two rows of each of two terms or
/// more.
pub fn programs_have_rows()
    ensures { (net : Net) → IsValid net → 5 ≤ length (program_of net).rows }
{}

/// A search begins with one open leaf, whose box is that of all points.
pub fn searches_begin()
    ensures { (net : Net) (budget : ℕ) (delay : ℤ) (growing : Growing) → IsGrowing growing → growing ≡ record { root = root_of net; tree = Open 0 } →
        1 ≤ budget → IsTreeOf net budget delay no_number growing }
{}

/// The tree stays that of a search where an open leaf is closed well; the least number is then the one before, or that of the leaf.
pub fn closed_leaves_keep_the_tree()
    ensures { (net : Net) (budget leaf : ℕ) (delay least less : ℤ) (growing : Growing) (how : Leaf) → IsTreeOf net budget delay least growing →
        IsGrowing (closed_at growing leaf how) → IsTrue (is_open growing.tree leaf) → IsClosedWell net delay less (box_of growing leaf) how →
        less ≤ℤ least → (less ≡ least) ⊎ GivesNumber net (box_of growing leaf) how less →
        IsTreeOf net budget delay less (closed_at growing leaf how) }
{}

/// And where an open leaf is split at 0 on the first plan column that its box leaves open, if two more nodes are within the budget.
pub fn first_splits_keep_the_tree()
    ensures { (net : Net) (budget leaf column : ℕ) (delay least : ℤ) (growing : Growing) → IsTreeOf net budget delay least growing →
        IsGrowing (split_at growing leaf column (pos 0)) → IsTrue (is_open growing.tree leaf) → IsFirstUnfixed net (box_of growing leaf) column →
        size growing.tree + 2 ≤ budget → IsTreeOf net budget delay least (split_at growing leaf column (pos 0)) }
{}

/// And where a plan of a lesser delay was found.
pub fn lesser_delays_keep_the_tree()
    ensures tree { (net : Net) (budget : ℕ) (delay lesser least : ℤ) (growing : Growing) → IsTreeOf net budget delay least growing → lesser ≤ℤ delay →
        IsTreeOf net budget lesser least growing }
    ensures reached { (net : Net) (budget nodes : ℕ) (delay lesser least : ℤ) → IsReached net budget delay least nodes → lesser ≤ℤ delay →
        IsReached net budget lesser least nodes }
{}

/// The plan columns are bits in the box of each node, so that the first that a box leaves open can be split at 0.
pub fn nodes_have_bits()
    ensures bits { (net : Net) (budget n : ℕ) (delay least : ℤ) (growing : Growing) → IsTreeOf net budget delay least growing → HasBits net (box_of growing n) }
    ensures split { (net : Net) (budget n column : ℕ) (delay least : ℤ) (growing : Growing) → IsTreeOf net budget delay least growing →
        IsFirstUnfixed net (box_of growing n) column → IsSplit (box_of growing n) column (pos 0) }
{}

/// While an open leaf still leaves a plan column open, the tree has room for two more nodes below the most that it can have.
pub fn unfixed_leaves_have_room()
    ensures { (net : Net) (budget leaf : ℕ) (delay least : ℤ) (growing : Growing) → IsTreeOf net budget delay least growing →
        IsTrue (is_open growing.tree leaf) → IsUnfixed net (box_of growing leaf) →
        size growing.tree + 3 ≤ 2 ^ (unfixed_count net (root_of net) + 1) }
{}

/// An open leaf is a node.
pub fn open_leaves_are_nodes()
    ensures { (growing : Growing) (leaf : ℕ) → IsTrue (is_open growing.tree leaf) → IsTrue (has growing.tree leaf) }
{}

/// Closing a leaf leaves one open leaf fewer; a split leaves one more, and makes two nodes; and the nodes stay as many where one is closed.
pub fn open_leaves_are_counted()
    ensures some { (growing : Growing) (leaf : ℕ) → IsTrue (is_open growing.tree leaf) → 1 ≤ open_leaves growing.tree }
    ensures closed { (growing : Growing) (leaf : ℕ) (how : Leaf) → IsGrowing growing → IsTrue (is_open growing.tree leaf) →
        open_leaves (closed_at growing leaf how).tree + 1 ≡ open_leaves growing.tree }
    ensures split { (growing : Growing) (leaf column : ℕ) (at : ℤ) → IsGrowing growing → IsTrue (is_open growing.tree leaf) →
        open_leaves (split_at growing leaf column at).tree ≡ open_leaves growing.tree + 1 }
    ensures same_size { (growing : Growing) (leaf : ℕ) (how : Leaf) → size (closed_at growing leaf how).tree ≡ size growing.tree }
    ensures larger { (growing : Growing) (leaf column : ℕ) (at : ℤ) → IsGrowing growing → IsTrue (is_open growing.tree leaf) →
        size (split_at growing leaf column at).tree ≡ size growing.tree + 2 }
{}

/// A whole tree shows its least number as a bound, if an admissible plan has the delay, and the budget is so small that its text is no
/// longer than a certificate may be.
pub fn whole_trees_are_searched()
    ensures { (net : Net) (budget : ℕ) (least : ℤ) (growing : Growing) (whole : Tree) (plan : Plan) → IsValid net →
        length (program_of net).rows ≤ MAX_ROWS → budget * length (program_of net).rows ≤ MAX_WORK → IsAdmissiblePlan net plan → IsTreeOf net budget (plan_delay net plan) least growing →
        IsReached net budget (plan_delay net plan) least (size growing.tree) → closed_of growing.tree ≡ Some whole →
        IsSearched net budget (plan_delay net plan) least whole }
{}
