//! What is known of a bit in several valuations.
ghost use Rattle.std.specs.Prelude.{◌≡◌};
ghost use Rattle.bs_sim.specs.Marks.{fixed, flipped, met, joined, differed};

/// What is known of a bit in several valuations.
#[derive(Clone, Copy)]
pub enum Mark {
    /// It is 0 in each.
    Low,
    /// It is 1 in each.
    High,
    /// It is the same in all.
    Still,
    /// Nothing.
    Moved,
}

/// What is known of a bit that is told.
pub fn fixed(bit: bool) -> Mark
    ensures { result ≡ fixed bit }
{
    if bit { Mark::High } else { Mark::Low }
}

/// What is known of the complement.
pub fn flipped(mark: Mark) -> Mark
    ensures { result ≡ flipped mark }
{
    match mark {
        Mark::Low => Mark::High,
        Mark::High => Mark::Low,
        Mark::Still => Mark::Still,
        Mark::Moved => Mark::Moved,
    }
}

/// What is known of whether a bit is 1 together with one that is the same in all.
fn met_still(mark: Mark) -> Mark
    ensures { result ≡ met Mark.Still mark }
{
    match mark {
        Mark::Low => Mark::Low,
        Mark::High => Mark::Still,
        Mark::Still => Mark::Still,
        Mark::Moved => Mark::Moved,
    }
}

/// What is known of whether a bit is 1 together with one of which nothing is known.
fn met_moved(mark: Mark) -> Mark
    ensures { result ≡ met Mark.Moved mark }
{
    match mark {
        Mark::Low => Mark::Low,
        Mark::High => Mark::Moved,
        Mark::Still => Mark::Moved,
        Mark::Moved => Mark::Moved,
    }
}

/// What is known of whether two bits are both 1.
pub fn met(one: Mark, other: Mark) -> Mark
    ensures { result ≡ met one other }
{
    match one {
        Mark::Low => Mark::Low,
        Mark::High => other,
        Mark::Still => met_still(other),
        Mark::Moved => met_moved(other),
    }
}

/// What is known of whether one of two bits is 1.
pub fn joined(one: Mark, other: Mark) -> Mark
    ensures { result ≡ joined one other }
{
    flipped(met(flipped(one), flipped(other)))
}

/// What is known of whether a bit differs from one that is the same in all.
fn differed_still(mark: Mark) -> Mark
    ensures { result ≡ differed Mark.Still mark }
{
    match mark {
        Mark::Low => Mark::Still,
        Mark::High => Mark::Still,
        Mark::Still => Mark::Still,
        Mark::Moved => Mark::Moved,
    }
}

/// What is known of whether two bits differ.
pub fn differed(one: Mark, other: Mark) -> Mark
    ensures { result ≡ differed one other }
{
    match one {
        Mark::Low => other,
        Mark::High => flipped(other),
        Mark::Still => differed_still(other),
        Mark::Moved => Mark::Moved,
    }
}
