// What came of a list's entries, counted.
ghost use Rattle.std.specs.Prelude.{◌+◌, ◌<◌, ◌^◌, ◌≡◌};
ghost use Rattle.replay.specs.Tally.{Kept};

// Outcomes are 0 for acceptance and the numbers of the refusals, up to 28.
pub(crate) const OUTCOMES: usize = 29;

#[derive(Clone, Copy)]
pub(crate) struct Tally {
    pub entries: usize,
    pub alike: usize,
    // The entries before the first that differs.
    pub prefix: usize,
    // The entries of each outcome.
    pub outcomes: [usize; OUTCOMES],
}

impl Tally {
    pub(crate) fn empty() -> Tally
        ensures { Kept result × (result.entries ≡ 0) }
    {
        Tally {
            entries: 0,
            alike: 0,
            prefix: 0,
            outcomes: [0; OUTCOMES],
        }
    }

    // With one entry more. An outcome that is no refusal's number counts among the entries alone.
    pub(crate) fn counting(self, outcome: u8, alike: bool) -> Tally
        requires { Kept self × (self.entries + 1 < 2 ^ 64) }
        ensures { Kept result × (result.entries ≡ self.entries + 1) }
    {
        let place = usize::from(outcome);
        let mut outcomes = self.outcomes;
        if place < OUTCOMES {
            outcomes[place] += 1;
        }
        Tally {
            entries: self.entries + 1,
            alike: self.alike + usize::from(alike),
            prefix: self.prefix + usize::from(alike && self.prefix == self.entries),
            outcomes,
        }
    }
}
