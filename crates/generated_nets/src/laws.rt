//! A law of the generated networks.

ghost use Rattle.std.specs.Prelude.{◌≡◌, ◌%◌, ℕ};
ghost use Rattle.generated_nets.specs.Generated.{generated_text};

/// There are no more than 132 different texts: numbers that are equal modulo 132 have the same one.
pub fn texts_repeat_after_132_numbers()
    ensures { (m n : ℕ) → m % 132 ≡ n % 132 → generated_text m ≡ generated_text n }
{}
