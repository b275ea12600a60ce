// Calls that are scripted to fail, by their numbers.
ghost use Rattle.std.specs.Prelude.{◌≡◌, ◌+◌, ◌-◌, ◌^◌, min};
ghost use Rattle.base_model.specs.Fault.{Rose};
ghost use Rattle.dd_io.specs.Script.{is_to_fail, IsFresh};

// The numbers of the calls that are to fail, counted from 1, and how many calls there were.
// A call that failed for want of memory is counted as missed.
#[derive(Drop)]
pub(crate) struct Script {
    pub(crate) fails: Vec<u64>,
    pub(crate) calls: u64,
    pub(crate) missed: u64,
}

impl Script {
    pub(crate) fn new(fails: Vec<u64>) -> Script
        ensures { IsFresh result fails.items }
    {
        Script {
            fails,
            calls: 0,
            missed: 0,
        }
    }

    // Counts a call, and says whether it is to fail.
    pub(crate) fn next_fails(&mut self) -> bool
        ensures fails { result ≡ is_to_fail self.old.fails.items self.new.calls }
        ensures counted { self.new.calls ≡ min (self.old.calls + 1) (2 ^ 64 - 1) }
        ensures others { self.new ≡ record self.old { calls = self.new.calls } }
    {
        self.calls = self.calls.saturating_add(1);
        self.fails.contains(&self.calls)
    }

    pub(crate) fn miss(&mut self)
        ensures missed { Rose self.old.missed self.new.missed }
        ensures others { self.new ≡ record self.old { missed = self.new.missed } }
    {
        self.missed = self.missed.saturating_add(1);
    }
}
