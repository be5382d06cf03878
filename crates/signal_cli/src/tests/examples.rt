//! Small networks that were worked by hand, as files.

/// One link, where nobody waits.
pub const ONE_LINK: &str =
    "format = 1\nsteps = 5\n[[link]]\nname = \"a\"\ncells = 2\ncap = 2\nstore = 4\nrates = [2, 2]\n";

/// A link that leads into a narrower one.
pub const TWO_LINKS: &str =
    "format = 1\nsteps = 6\n[[link]]\nname = \"a\"\ncap = 2\nstore = 4\nto = \"b\"\nrates = [2]\n[[link]]\nname = \"b\"\ncap = 1\nstore = 2\nwave = [1, 2]\n";

/// A link whose queue gets twelve units at once in step 8, of which two leave it in each step.
pub const LATE_QUEUE: &str =
    "format = 1\nsteps = 11\n[[link]]\nname = \"north_2\"\ncells = 2\ncap = 2\nstore = 4\nrates = [0, 0, 0, 0, 0, 0, 0, 0, 12]\n";

/// A link with five units that diverges in parcels of three.
pub const DIVERGE: &str =
    "format = 1\nsteps = 2\n[[link]]\nname = \"d\"\ncap = 6\nstore = 9\ninitial = [5]\nturns = [{ link = \"b\", parcel = 2 }, { link = \"c\", parcel = 1 }]\n[[link]]\nname = \"b\"\ncap = 6\nstore = 9\n[[link]]\nname = \"c\"\ncap = 6\nstore = 9\n";

/// One link of one cell with three units, over one step.
pub const ONE_CELL: &str =
    "format = 1\nsteps = 1\n[[link]]\nname = \"a\"\ncap = 2\nstore = 3\ninitial = [3]\n";

/// One link whose program has more rows than are held.
pub const LONG_LINK: &str =
    "format = 1\nsteps = 240\n[[link]]\nname = \"a\"\ncells = 255\ncap = 1\nstore = 1\nrates = [0]\n";

/// Two links with a unit each that a signal of two phases lets into one in turn.
pub const CROSSING: &str =
    "format = 1\nsteps = 3\n[[link]]\nname = \"x\"\ncap = 1\nstore = 2\ninitial = [1]\nto = \"m\"\nsignal = \"s\"\ngreens = [\"a\"]\n[[link]]\nname = \"z\"\ncap = 1\nstore = 2\ninitial = [1]\nto = \"m\"\nsignal = \"s\"\ngreens = [\"b\"]\n[[link]]\nname = \"m\"\ncap = 1\nstore = 2\n[[signal]]\nname = \"s\"\n[[signal.phase]]\nname = \"a\"\nmin = 1\nmax = 2\nnext = [\"b\"]\n[[signal.phase]]\nname = \"b\"\nmin = 1\nmax = 2\nnext = [\"a\"]\n";

/// Its first plan: delay 1.
pub const FIRST_PLAN: &str = "ctm-plan 1\nsignal s\na 1\nb 1\na 1\nend\n";

/// An intersection of four approaches, in tenths of a vehicle and steps of two seconds: four queues and 28 road cells.
pub const INTERSECTION: &str =
    "format = 1\nsteps = 60\n[[link]]\nname = \"north\"\ncells = 5\ncap = 10\nstore = 40\nwave = [1, 3]\nto = \"s_out\"\nsignal = \"j\"\ngreens = [\"ns\"]\ndemand = [{ from = 0, until = 40, rate = 4 }]\n[[link]]\nname = \"south\"\ncells = 5\ncap = 10\nstore = 40\nwave = [1, 3]\nto = \"n_out\"\nsignal = \"j\"\ngreens = [\"ns\"]\ndemand = [{ from = 0, until = 40, rate = 3 }]\n[[link]]\nname = \"east\"\ncells = 5\ncap = 10\nstore = 40\nwave = [1, 3]\nturns = [{ link = \"w_out\", parcel = 3 }, { link = \"n_out\", parcel = 1 }]\nsignal = \"j\"\ngreens = [\"ew\"]\ndemand = [{ from = 0, until = 40, rate = 3 }]\n[[link]]\nname = \"west\"\ncells = 5\ncap = 10\nstore = 40\nwave = [1, 3]\nturns = [{ link = \"e_out\", parcel = 3 }, { link = \"s_out\", parcel = 1 }]\nsignal = \"j\"\ngreens = [\"ew\"]\ndemand = [{ from = 0, until = 20, rate = 4 }, { from = 20, until = 40, rate = 2 }]\n[[link]]\nname = \"s_out\"\ncells = 2\ncap = 10\nstore = 40\nwave = [1, 3]\n[[link]]\nname = \"n_out\"\ncells = 2\ncap = 10\nstore = 40\nwave = [1, 3]\n[[link]]\nname = \"w_out\"\ncells = 2\ncap = 10\nstore = 40\nwave = [1, 3]\n[[link]]\nname = \"e_out\"\ncells = 2\ncap = 10\nstore = 40\nwave = [1, 3]\n[[signal]]\nname = \"j\"\n[[signal.phase]]\nname = \"ns\"\nmin = 4\nmax = 20\nclear = 2\nnext = [\"ew\"]\n[[signal.phase]]\nname = \"ew\"\nmin = 4\nmax = 20\nclear = 2\nnext = [\"ns\"]\n";
