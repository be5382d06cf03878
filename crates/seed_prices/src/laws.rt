//! What the seed is worth, and that it is lawful. Each function does nothing: its clause is a law, which a caller that calls it knows.

ghost use Rattle.std.specs.Prelude.{pos, ◌≤ℤ◌, true};
ghost use Rattle.ct_base.specs.Validity.{IsValid};
ghost use Rattle.ct_base.specs.declared.net.Net.{Net};
ghost use Rattle.sparse_program.specs.Box.{Ranges};
ghost use Rattle.program_model.specs.Points.{program_of};
ghost use Rattle.certificate_model.specs.Value.{value};
ghost use Rattle.safe_bound.specs.Prices.{ArePrices, price_at};
ghost use Rattle.seed_prices.specs.Seed.{BeginsWithin, seed_of};

/// The seed is lawful: it has a price for each row, and none is below 0 on a row that need not be equal.
pub fn seeds_are_lawful()
    ensures { (net : Net) → IsValid net → ArePrices (program_of net).rows (seed_of net) }
{}

/// The value of the seed is never below 0, in whichever box that begins no lower than the columns of the program.
pub fn seeds_have_no_negative_value()
    ensures { (net : Net) (box : Ranges) → IsValid net → BeginsWithin (program_of net).columns box →
        pos 0 ≤ℤ value (program_of net) true box (price_at (seed_of net)) }
{}
