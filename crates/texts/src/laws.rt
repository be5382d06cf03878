//! Writing and reading are each other's inverse. Each function does nothing: its clause is a law.

ghost use Rattle.std.specs.Prelude.{◌≡◌, ◌↔◌, ℕ, ◌<◌, ◌≤◌, List, [], ◌∷◌, ◌++◌, length, All, Some, ℤ};
ghost use Rattle.texts.specs.Lines.{Lacks, behind_lines, line_of_words, lines_of, text_of_lines, words_of};
ghost use Rattle.texts.specs.Numbers.{IsNaturalText, IsPriceText, IsWholeText, natural_in, price_in, whole_in};

/// The lines of a text of lines are these lines, and nothing stands behind them.
pub fn written_lines_are_read()
    ensures lines { (lines : List (List ℕ)) → All (Lacks 10) lines → lines_of (text_of_lines lines) ≡ lines }
    ensures last { (lines : List (List ℕ)) → All (Lacks 10) lines → behind_lines (text_of_lines lines) ≡ [] }
{}

/// A text is the text of its lines and what stands behind the last of them, which hold no line feed.
pub fn read_lines_are_written()
    ensures whole { (text : List ℕ) → text_of_lines (lines_of text) ++ behind_lines text ≡ text }
    ensures lines { (text : List ℕ) → All (Lacks 10) (lines_of text) }
    ensures last { (text : List ℕ) → Lacks 10 (behind_lines text) }
    ensures ended { (text : List ℕ) → text_of_lines (lines_of (text ++ 10 ∷ [])) ≡ text ++ 10 ∷ [] }
{}

/// The words of a line of words are these words.
pub fn written_words_are_read()
    ensures { (words : List (List ℕ)) → 0 < length words → All (Lacks 32) words → words_of (line_of_words words) ≡ words }
{}

/// A line is the line of its words, which hold no space.
pub fn read_words_are_written()
    ensures line { (line : List ℕ) → line_of_words (words_of line) ≡ line }
    ensures words { (line : List ℕ) → All (Lacks 32) (words_of line) }
{}

/// A number without a sign is read exactly where it is written.
pub fn naturals_have_one_text()
    ensures { (digits n : ℕ) (text : List ℕ) → 1 ≤ digits → digits ≤ 18 →
        (natural_in digits text ≡ Some n) ↔ IsNaturalText digits text n }
{}

/// A whole number is read exactly where it is written.
pub fn wholes_have_one_text()
    ensures { (text : List ℕ) (z : ℤ) → (whole_in text ≡ Some z) ↔ IsWholeText text z }
{}

/// A price is read exactly where it is written.
pub fn prices_have_one_text()
    ensures { (text : List ℕ) (z : ℤ) → (price_in text ≡ Some z) ↔ IsPriceText text z }
{}
