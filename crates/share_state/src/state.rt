// The state of the two shared lists, which is passed from call to call.
ghost use Rattle.std.specs.Prelude.{◌≡◌};
ghost use Rattle.share_state.specs.SharedList.{share, part_start, used_to, with_used};

#[derive(Clone, Copy, Debug, PartialEq, Eq, Drop)]
pub enum Designer {
    First,
    Second,
}

// One designer's share of a list: how many words it may hold, and how many of them are used, from its first word on.
#[derive(Clone, Copy, Drop)]
pub struct Share {
    pub quota: usize,
    pub used: usize,
}

// A list's length at the start, and both shares of it.
#[derive(Clone, Copy, Drop)]
pub struct SharedList {
    pub length: usize,
    pub first: Share,
    pub second: Share,
}

#[derive(Clone, Copy, Drop)]
pub struct State {
    pub vertices: SharedList,
    pub indices: SharedList,
}

// How many words a designer asks for at the start.
#[derive(Clone, Copy, Drop)]
pub struct Quota {
    pub vertices: usize,
    pub indices: usize,
}

impl Share {
    // Returns the share with this many words used.
    pub fn used_to(self, used: usize) -> Share
        ensures { result ≡ used_to used self }
    {
        Share { used, ..self }
    }
}

impl SharedList {
    pub fn share_of(self, designer: Designer) -> Share
        ensures { result ≡ share designer self }
    {
        match designer {
            Designer::First => self.first,
            Designer::Second => self.second,
        }
    }

    // Returns the place of a part's first word.
    pub fn part_start(self, designer: Designer) -> usize
        ensures { result ≡ part_start designer self }
    {
        match designer {
            Designer::First => 0,
            Designer::Second => self.first.quota,
        }
    }

    // Returns the shared list with this many words used by a designer.
    pub fn with_used(self, designer: Designer, used: usize) -> SharedList
        ensures { result ≡ with_used designer used self }
    {
        match designer {
            Designer::First => SharedList {
                first: self.first.used_to(used),
                ..self
            },
            Designer::Second => SharedList {
                second: self.second.used_to(used),
                ..self
            },
        }
    }
}
