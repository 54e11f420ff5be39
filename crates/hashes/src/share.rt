// A share of what a run goes through one after another.

ghost use Rattle.std.specs.Prelude.{◌≡◌, ◌-◌, ◌==◌, if◌then◌else◌};

/// Which of the things are done that a run goes through: one, and then none of as many as there are other
/// shares. Where there are no others, that is all of them.
#[derive(Clone, Copy, Debug, PartialEq, Eq)]
pub struct Share {
    /// How many other shares there are.
    pub others: u64,
    /// How many things are passed over before the next that is done.
    pub waiting: u64,
}

impl Share {
    /// All that there is.
    pub fn whole() -> Share
        ensures others { result.others ≡ 0 }
        ensures waiting { result.waiting ≡ 0 }
    {
        Share {
            others: 0,
            waiting: 0,
        }
    }

    /// Whether the next thing is done; from then on the one after it is the next.
    pub fn takes_next(&mut self) -> bool
        ensures taken { result ≡ (self.old.waiting == 0) }
        ensures others { self.new.others ≡ self.old.others }
        ensures waiting { self.new.waiting
            ≡ (if self.old.waiting == 0 then self.old.others else self.old.waiting - 1) }
    {
        if self.waiting == 0 {
            self.waiting = self.others;
            return true;
        }
        self.waiting -= 1;
        false
    }
}
