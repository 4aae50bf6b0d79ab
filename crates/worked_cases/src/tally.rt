//! How many cases were tried, and how many went wrong.

ghost use Rattle.std.specs.Prelude.{◌≡◌, Some};
ghost use Rattle.worked_cases.specs.Tallies.{tried, tally_text};

use std::fmt;

/// Counts of cases; one that reaches the largest `u64` stays there.
#[derive(Clone, Copy, PartialEq, Eq, Default, Debug)]
pub struct Tally {
    cases: u64,
    wrong: u64,
}

impl Tally {
    /// Counts a case that went right or wrong, and says which.
    pub fn right(&mut self, right: bool) -> bool
        ensures answer { result ≡ right }
        ensures after { self.new ≡ tried right self.old }
    {
        self.cases = self.cases.saturating_add(1);
        self.wrong = self.wrong.saturating_add(u64::from(!right));
        right
    }
}

impl fmt::Display for Tally {
    ghost output = { λ t. Some (tally_text t) };

    fn fmt<W: fmt::Write>(&self, f: &mut fmt::Formatter<W>) -> fmt::Result {
        let Tally { cases, wrong } = *self;
        write!(f, "{cases} cases, {wrong} wrong")
    }
}
