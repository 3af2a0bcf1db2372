use crate::ask::Ask;
use codes::{Code, Command};
use engine::Outcomes;
use packet::Outcome;
use std::fmt;

/// What a request waits for.
#[derive(Clone, Copy)]
pub(crate) enum Awaited {
    Administrator,
    FirstFinger,
    SecondFinger,
    Person,
}

/// A grant: a CONTINUE, by which an administrator's finger has allowed the request that waits.
#[derive(Clone, Copy)]
pub(crate) struct Grant {
    /// The command of the request.
    command: Command,
    /// The ID whose finger it was.
    earned_by: u32,
}

/// How a grant has ended: with the next outcome of its request other than SCAN_SUCCESS.
#[derive(Clone, Copy)]
pub(crate) enum End {
    Spent,
    Failed,
}

/// A request that waits, and the grant that is open for it, if one is.
#[derive(Clone, Copy)]
pub(crate) struct Waiting {
    command: Command,
    awaited: Awaited,
    grant: Option<Grant>,
}

/// How things stand with the module, by what its calls have answered.
#[derive(Clone, Copy)]
pub(crate) enum Standing {
    /// Nothing is awaited.
    Idle,
    /// Nothing is awaited any more: with the request that waited its grant has just ended.
    Ended(Grant, End),
    /// A request waits.
    Waiting(Waiting),
}

impl Waiting {
    /// An administrator's finger has opened a grant: what is awaited next is up to the command.
    fn granted(self, earned_by: u32) -> Waiting {
        let Waiting { command, .. } = self;
        Waiting {
            command,
            awaited: match command {
                Command::DeleteByAdministrator => Awaited::Person,
                _ => Awaited::FirstFinger,
            },
            grant: Some(Grant { command, earned_by }),
        }
    }

    /// A finger was good: behind the first one a second is awaited.
    fn scanned(self) -> Waiting {
        let awaited = match self.awaited {
            Awaited::FirstFinger => Awaited::SecondFinger,
            other => other,
        };
        Waiting { awaited, ..self }
    }

    fn ended(self, end: End) -> Standing {
        match self.grant {
            Some(grant) => Standing::Ended(grant, end),
            None => Standing::Idle,
        }
    }

    /// After an outcome of this request.
    fn after(self, outcome: Outcome) -> Standing {
        match outcome.code {
            Code::ScanSuccess => Standing::Waiting(self.scanned()),
            Code::Continue => Standing::Waiting(self.granted(outcome.param)),
            Code::Success => self.ended(End::Spent),
            _ => self.ended(End::Failed),
        }
    }
}

impl Standing {
    /// The request that waits, if one does.
    pub fn waiting(self) -> Option<Waiting> {
        match self {
            Standing::Waiting(waiting) => Some(waiting),
            Standing::Idle | Standing::Ended(_, _) => None,
        }
    }

    /// After an outcome of the request that waits.
    fn after(self, outcome: Outcome) -> Standing {
        match self.waiting() {
            Some(waiting) => waiting.after(outcome),
            None => Standing::Idle,
        }
    }

    /// After a packet. One without an outcome waits; of a packet's outcomes only CANCELED belongs to the request that
    /// waited before, and the others to the packet itself.
    pub fn after_packet(self, ask: Ask, outcomes: Outcomes) -> Standing {
        match (self.waiting(), ask.awaited(), outcomes) {
            (None, Some(awaited), Outcomes::Nothing) => Standing::Waiting(Waiting {
                command: ask.command(),
                awaited,
                grant: None,
            }),
            (None, _, _) => Standing::Idle,
            (Some(waiting), _, Outcomes::Two(first, _)) if first.code == Code::Canceled =>
                waiting.after(first),
            (Some(waiting), _, _) => Standing::Waiting(waiting),
        }
    }

    /// After a finger or a second, whose outcomes all belong to the request that waits.
    pub fn after_event(self, outcomes: Outcomes) -> Standing {
        match (self.waiting(), outcomes) {
            (None, _) => Standing::Idle,
            (Some(waiting), Outcomes::Nothing) => Standing::Waiting(waiting),
            (Some(waiting), Outcomes::One(only)) => waiting.after(only),
            (Some(waiting), Outcomes::Two(first, second)) => waiting.after(first).after(second),
        }
    }
}

impl fmt::Display for Awaited {
    fn fmt<W: fmt::Write>(&self, f: &mut fmt::Formatter<W>) -> fmt::Result {
        f.write_str(match self {
            Awaited::Administrator => "administrator",
            Awaited::FirstFinger => "first finger",
            Awaited::SecondFinger => "second finger",
            Awaited::Person => "person",
        })
    }
}

impl fmt::Display for Waiting {
    fn fmt<W: fmt::Write>(&self, f: &mut fmt::Formatter<W>) -> fmt::Result {
        let command = self.command;
        let awaited = self.awaited;
        write!(f, "{command}'s {awaited}; ")?;
        match self.grant {
            Some(Grant { earned_by, .. }) => write!(
                f,
                "the grant is open, earned by ID {earned_by}"
            ),
            None => write!(f, "no grant is open"),
        }
    }
}

impl fmt::Display for Standing {
    fn fmt<W: fmt::Write>(&self, f: &mut fmt::Formatter<W>) -> fmt::Result {
        match *self {
            Standing::Idle => write!(f, "nothing"),
            Standing::Ended(Grant { command, earned_by }, End::Spent) => {
                write!(
                    f,
                    "nothing; the grant for {command}, earned by ID {earned_by}, is spent"
                )
            }
            Standing::Ended(Grant { command, earned_by }, End::Failed) => {
                write!(
                    f,
                    "nothing; the grant for {command}, earned by ID {earned_by}, has failed"
                )
            }
            Standing::Waiting(waiting) => write!(f, "{waiting}"),
        }
    }
}
