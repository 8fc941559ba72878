//! Where connections come from, and when the next one is looked for.

ghost use Rattle.std.specs.Prelude.{◌≡◌, ◌≤◌, ◌-◌, true, false, None, IsTrue, option_map};
ghost use Rattle.repo_many.specs.Arriving.{is_reported, is_time, noted, one_more};

/// How many nanoseconds it takes to the next try if a connection couldn't be taken, a tenth of a second.
const PAUSE: u64 = 100_000_000;

/// Where connections come from.
#[derive(Clone, Copy, Debug, PartialEq)]
pub struct Door {
    /// How many were taken.
    pub taken: u64,
    /// One may wait, as far as is known.
    pub ready: bool,
    /// One couldn't be taken, and none was since: the time of the next try.
    pub again: Option<u64>,
    /// It was told that all places are taken.
    pub told: bool,
}

/// What came of a look for a connection.
#[derive(Clone, Copy, Debug, PartialEq)]
pub enum Look {
    /// None waits.
    Nobody,
    /// One was taken.
    Came,
    /// One was taken, and can't be served.
    Lost,
    /// One can't be taken, as for want of descriptors or memory. It is no connection.
    Refused,
}

impl Door {
    /// A door through which none came.
    pub fn new() -> Door
        ensures { result ≡ record { taken = 0; ready = true; again = None; told = false } }
    {
        Door {
            taken: 0,
            ready: true,
            again: None,
            told: false,
        }
    }

    /// Whether it is time to look for a connection.
    pub fn is_time(&self, time: u64) -> bool
        ensures { result ≡ is_time self.now time }
    {
        match self.again {
            Some(again) => time >= again,
            None => self.ready,
        }
    }

    /// How long it takes to the next try, if there has to be one.
    pub fn pause(&self, time: u64) -> Option<u64>
        ensures { result ≡ option_map (λ again. again - time) self.now.again }
    {
        match self.again {
            Some(again) => Some(again.saturating_sub(time)),
            None => None,
        }
    }

    /// One connection more was taken.
    fn count(&mut self)
        ensures { self.new ≡ one_more self.old }
    {
        self.taken = self.taken.saturating_add(1);
        self.again = None;
    }

    /// Notes what came of a look for a connection, and returns whether that is to be reported. One that can't be taken is reported
    /// the first time, and tried again after a pause.
    pub fn note(&mut self, look: Look, time: u64) -> bool
        ensures door { self.new ≡ noted self.old look time }
        ensures reported { result ≡ is_reported self.old look }
    {
        match look {
            Look::Nobody => {
                self.ready = false;
                self.again = None;
                false
            }
            Look::Came => {
                self.count();
                false
            }
            Look::Lost => {
                self.count();
                true
            }
            Look::Refused => {
                let is_first = self.again.is_none();
                self.again = Some(time.saturating_add(PAUSE));
                is_first
            }
        }
    }
}
