ghost use Rattle.std.specs.Prelude.{◌≡◌, None};
ghost use Rattle.device.specs.View.{phase_of, view, waiting_of};
ghost use Rattle.machine.specs.State.{awaiting, fresh};

use crate::awaited::{Awaited, FirstScan, LONGEST_TEMPLATE};
use administrators::Administrators;
use machine::Settings;
use matcher::Matcher;
use memory::Memory;
use packet::{Form, PASSWORD_LENGTH};
use std::fmt;

/// What a module keeps.
#[derive(Drop)]
pub struct Device<M, S> {
    pub matcher: M,
    pub memory: S,
    /// The module number.
    pub own: u16,
    pub locked: bool,
    pub password: [u8; PASSWORD_LENGTH],
    pub settings: Settings,
    pub admins: Administrators,
    pub awaited: Awaited,
    /// The form of the packet that waits.
    pub form: Form,
    /// How many seconds it still waits; 0 means without end.
    pub left: u8,
    pub first: FirstScan,
}

/// Leaves the password out, so that no log shows it. The first scan leaves its bytes out, as both kinds of memory do.
impl<M: fmt::Debug, S: fmt::Debug> fmt::Debug for Device<M, S> {
    fn fmt<W: fmt::Write>(&self, f: &mut fmt::Formatter<W>) -> fmt::Result {
        f.debug_struct("Device")
            .field("matcher", &self.matcher)
            .field("memory", &self.memory)
            .field("own", &self.own)
            .field("locked", &self.locked)
            .field("settings", &self.settings)
            .field("admins", &self.admins)
            .field("awaited", &self.awaited)
            .field("form", &self.form)
            .field("left", &self.left)
            .field("first", &self.first)
            .finish_non_exhaustive()
    }
}

impl<M: Matcher, S: Memory> Device<M, S> {
    /// A fresh module's, over an emptied memory.
    pub fn new(matcher: M, mut memory: S, own: u16) -> Device<M, S>
        ensures { view M.Matcher S.Memory result ≡ fresh
            (M.Matcher.yes matcher) S.Memory.T (S.Memory.room memory) own }
    {
        memory.clear();
        Device {
            matcher,
            memory,
            own,
            locked: false,
            password: [0; PASSWORD_LENGTH],
            settings: Settings::fresh(),
            admins: Administrators::new(),
            awaited: Awaited::Nothing,
            form: Form::Standard,
            left: 0,
            first: FirstScan {
                bytes: [0; LONGEST_TEMPLATE],
                quality: 0,
            },
        }
    }

    /// A request of a packet in this form waits, for as long as the parameter Timeout says.
    pub fn wait_for(&mut self, awaited: Awaited, form: Form)
        ensures { view M.Matcher S.Memory self.new ≡ awaiting
            (view M.Matcher S.Memory self.old)
            (waiting_of form self.old.settings.timeout
            (phase_of S.Memory.T self.old.first awaited)) }
    {
        self.awaited = awaited;
        self.form = form;
        self.left = self.settings.timeout;
    }

    /// No request waits any more.
    pub fn rest(&mut self)
        ensures { view M.Matcher S.Memory self.new
            ≡ awaiting (view M.Matcher S.Memory self.old) None }
    {
        self.awaited = Awaited::Nothing;
    }
}
