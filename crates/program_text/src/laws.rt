//! Points and their texts stand for each other one by one. Each function does nothing: its clause is a law.

ghost use Rattle.std.specs.Prelude.{◌≡◌, ◌↔◌, ℕ, ◌+◌, ◌≤◌, ℤ, List, All, Ok, Err};
ghost use Rattle.program_text.specs.PointText.{IsWhole, SpellsPoint, lines_in_common, point_text, spelled_point};
ghost use Rattle.program_text.specs.declared.fault.PointFault.TheVariants.{Form};

/// A text is read as some values exactly where it is their text, and they are whole numbers of at most 15 digits. So
/// values have one text.
pub fn is_read_where_it_spells()
    ensures { (text : List ℕ) (values : List ℤ) → (spelled_point text ≡ Ok values) ↔ SpellsPoint text values }
{}

/// What was written is read back.
pub fn written_values_are_read()
    ensures { (values : List ℤ) → All IsWhole values → spelled_point (point_text values) ≡ Ok values }
{}

/// A refused text has some lines that the text of some values begins with too, and no text of values has one more of
/// them: the line behind these is the one that is named.
pub fn the_first_line_that_breaks_is_named()
    ensures most { (text : List ℕ) (n : ℕ) (values : List ℤ) → spelled_point text ≡ Err (Form n) → All IsWhole values → lines_in_common text values + 1 ≤ n }
    ensures reached { (text : List ℕ) (n : ℕ) → spelled_point text ≡ Err (Form n) → (values : List ℤ) × (All IsWhole values × (lines_in_common text values + 1 ≡ n)) }
{}
