//! What becomes of the boxes and leaves of a tree that grows, and what a whole tree shows. Each function does nothing: its clause is a
//! law, which a caller that calls it knows.

ghost use Rattle.std.specs.Prelude.{◌≡◌, ℕ, ◌+◌, ◌<◌, ◌≢◌, ℤ, true, false, Some};
ghost use Rattle.ct_base.specs.declared.net.Net.{Net};
ghost use Rattle.certificate_model.specs.Certificates.{Certifies, root_of};
ghost use Rattle.certificate_model.specs.Leaves.{IsGoodLeaf};
ghost use Rattle.certificate_model.specs.Tree.{Leaf, Tree, left_of, right_of};
ghost use Rattle.branch_tree.specs.Boxes.{AreGood, Growing, IsGrowing, box_of, closed_at, split_at};
ghost use Rattle.branch_tree.specs.OpenTree.{closed_of, is_open, size};

/// A split hands its left side the box of the leaf up to the value, and its right side the box above it. The boxes of all other nodes
/// stay.
pub fn splits_cut_the_box_of_their_leaf()
    ensures left { (growing : Growing) (leaf column : ℕ) (at : ℤ) → IsGrowing growing → is_open growing.tree leaf ≡ true →
        box_of (split_at growing leaf column at) (size growing.tree) ≡ left_of (box_of growing leaf) column at }
    ensures right { (growing : Growing) (leaf column : ℕ) (at : ℤ) → IsGrowing growing → is_open growing.tree leaf ≡ true →
        box_of (split_at growing leaf column at) (size growing.tree + 1) ≡ right_of (box_of growing leaf) column at }
    ensures others { (growing : Growing) (leaf column k : ℕ) (at : ℤ) → k < size growing.tree →
        box_of (split_at growing leaf column at) k ≡ box_of growing k }
{}

/// Closing a leaf changes no box.
pub fn closing_keeps_all_boxes()
    ensures { (growing : Growing) (leaf k : ℕ) (how : Leaf) → box_of (closed_at growing leaf how) k ≡ box_of growing k }
{}

/// A leaf that is split or closed is open no more, the sides of a split are, and all other leaves stay as they are.
pub fn leaves_stay_open()
    ensures split { (growing : Growing) (leaf column : ℕ) (at : ℤ) → IsGrowing growing → is_open growing.tree leaf ≡ true →
        is_open (split_at growing leaf column at).tree leaf ≡ false }
    ensures sides { (growing : Growing) (leaf column k : ℕ) (at : ℤ) → IsGrowing growing → is_open growing.tree leaf ≡ true →
        size growing.tree < k + 1 → k < size growing.tree + 2 → is_open (split_at growing leaf column at).tree k ≡ true }
    ensures others { (growing : Growing) (leaf column k : ℕ) (at : ℤ) → k < size growing.tree → k ≢ leaf →
        is_open (split_at growing leaf column at).tree k ≡ is_open growing.tree k }
    ensures closed { (growing : Growing) (leaf : ℕ) (how : Leaf) → IsGrowing growing → is_open growing.tree leaf ≡ true →
        is_open (closed_at growing leaf how).tree leaf ≡ false }
    ensures closed_others { (growing : Growing) (leaf k : ℕ) (how : Leaf) → k ≢ leaf →
        is_open (closed_at growing leaf how).tree k ≡ is_open growing.tree k }
{}

/// Closed leaves stay good where a leaf is split, and where one is closed that is good in its box.
pub fn good_leaves_stay_good()
    ensures split { (net : Net) (bound : ℤ) (growing : Growing) (leaf column : ℕ) (at : ℤ) →
        AreGood (IsGoodLeaf net bound) growing.root growing.tree →
        AreGood (IsGoodLeaf net bound) growing.root (split_at growing leaf column at).tree }
    ensures closed { (net : Net) (bound : ℤ) (growing : Growing) (leaf : ℕ) (how : Leaf) → IsGrowing growing →
        AreGood (IsGoodLeaf net bound) growing.root growing.tree → IsGoodLeaf net bound (box_of growing leaf) how →
        AreGood (IsGoodLeaf net bound) growing.root (closed_at growing leaf how).tree }
{}

/// A tree that began with the box of all points of a network's program, and whose leaves are all closed and good for a bound, certifies
/// the bound.
pub fn whole_trees_of_good_leaves_certify()
    ensures { (net : Net) (bound : ℤ) (growing : Growing) (whole : Tree) →
        IsGrowing growing → growing.root ≡ root_of net → AreGood (IsGoodLeaf net bound) growing.root growing.tree →
        closed_of growing.tree ≡ Some whole → Certifies net bound whole }
{}
