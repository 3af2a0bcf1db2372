//! The laws of whole runs of the machine.
#![tactic(auto)]

ghost use Rattle.promises.specs.Locked.{LockedAlike, LockedIdle};
ghost use Rattle.promises.specs.Promises.{AlwaysPromised};
ghost use Rattle.promises.specs.Refused.{AnswersClear, RefusalsLeave};
ghost use Rattle.promises.specs.Sent.{ProperReads, SaysProper};

/// Over every list of calls from a module's making on, over every matcher and memory: grants balance, each is spent
/// once, by its own request, and was earned by an administrator whose level allowed it; the tally lists what is held;
/// and locked modules cannot be told apart, whatever they are made of, up to and with the first successful unlock.
pub fn whole_runs()
    ensures promised { AlwaysPromised }
    ensures alike { LockedAlike }
{}

/// A locked module awaits nothing.
pub fn locked_idle()
    ensures { LockedIdle }
{}

/// A refused call leaves the module and the answer buffer as they were; the work buffer too if a buffer was too short,
/// and otherwise zeros in it, as every answered call does.
pub fn refusals_leave()
    ensures left { RefusalsLeave }
    ensures clear { AnswersClear }
{}

/// What a call says over a sound memory names a command as it was read, with the data that belongs to the outcome; so
/// the bytes written, where Param and Size fit their fields, read back as the responses that were sent, and as no more.
pub fn said_reads()
    ensures proper { SaysProper }
    ensures reads { ProperReads }
{}
