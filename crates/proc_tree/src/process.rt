// What is kept of one process.
ghost use Rattle.std.specs.Prelude.{◌≡◌};
ghost use Rattle.proc_tree.specs.Processes.{is_live, is_zombie, is_present, is_child_of, is_zombie_of, end_of, parted_from, in_state, end_state};

use call_table::End;

/// A process is live until it ends. It is a zombie then until its parent has waited for it or has ended, and gone afterwards.
#[derive(Clone, Copy, Debug, PartialEq, Eq)]
pub enum State {
    Live,
    Zombie(End),
    Gone(End),
}

/// A process: the pid of its parent, 0 where it has none, and its state.
#[derive(Clone, Copy, Debug, PartialEq, Eq)]
pub struct Process {
    pub parent: u32,
    pub state: State,
}

impl Process {
    pub fn is_live(self) -> bool
        ensures { result ≡ is_live self }
    {
        match self.state {
            State::Live => true,
            State::Zombie(_) | State::Gone(_) => false,
        }
    }

    pub fn is_zombie(self) -> bool
        ensures { result ≡ is_zombie self }
    {
        match self.state {
            State::Zombie(_) => true,
            State::Live | State::Gone(_) => false,
        }
    }

    /// Whether it is live or a zombie.
    pub fn is_present(self) -> bool
        ensures { result ≡ is_present self }
    {
        match self.state {
            State::Live | State::Zombie(_) => true,
            State::Gone(_) => false,
        }
    }

    /// Whether it is a live or zombie child of `pid`.
    pub fn is_child_of(self, pid: u32) -> bool
        ensures { result ≡ is_child_of pid self }
    {
        self.parent == pid && self.is_present()
    }

    /// Whether it is a zombie child of `pid`.
    pub fn is_zombie_of(self, pid: u32) -> bool
        ensures { result ≡ is_zombie_of pid self }
    {
        self.parent == pid && self.is_zombie()
    }

    /// How it ended, where it has ended.
    pub fn end(self) -> Option<End>
        ensures { result ≡ end_of self }
    {
        match self.state {
            State::Live => None,
            State::Zombie(end) | State::Gone(end) => Some(end),
        }
    }

    /// What the end of `pid` makes of it: a live child has no parent then, a zombie child is gone.
    pub fn parted_from(self, pid: u32) -> Process
        ensures { result ≡ parted_from pid self }
    {
        if self.parent != pid {
            return self;
        }
        match self.state {
            State::Live => Process {
                parent: 0,
                state: State::Live,
            },
            State::Zombie(end) | State::Gone(end) => Process {
                parent: self.parent,
                state: State::Gone(end),
            },
        }
    }

    pub fn in_state(self, state: State) -> Process
        ensures { result ≡ in_state state self }
    {
        Process {
            parent: self.parent,
            state,
        }
    }
}

/// The state of a process that ends: a zombie where its parent lives, else gone.
pub fn end_state(parent_lives: bool, status: End) -> State
    ensures { result ≡ end_state parent_lives status }
{
    if parent_lives {
        State::Zombie(status)
    } else {
        State::Gone(status)
    }
}
