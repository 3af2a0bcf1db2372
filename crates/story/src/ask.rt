use crate::person::{SCAN, scan_of};
use crate::standing::Awaited;
use codes::{Coded, Command, EnrollFlag, Parameter};
use packet::{Form, Request};
use std::fmt;

/// The level of an administrator who may let others enrol and delete.
const BOTH: u8 = 3;

/// The range of all IDs.
const ALL: u16 = 0;

/// What the host asks in this story.
#[derive(Clone, Copy)]
pub(crate) enum Ask {
    Enroll(u16),
    EnrollByAdministrator(u16),
    /// A template that the host has.
    EnrollTemplate(u16),
    Identify,
    Cancel,
    /// The ID becomes an administrator's, of the highest level.
    Promote(u16),
    Delete(u16),
    DeleteByAdministrator,
    List,
    CountHeld,
    CountFree,
}

impl Ask {
    pub fn command(self) -> Command {
        match self {
            Ask::Enroll(_) => Command::Enroll,
            Ask::EnrollByAdministrator(_) => Command::EnrollByAdministrator,
            Ask::EnrollTemplate(_) => Command::EnrollTemplate,
            Ask::Identify => Command::Identify,
            Ask::Cancel => Command::Cancel,
            Ask::Promote(_) => Command::WriteLevel,
            Ask::Delete(_) => Command::Delete,
            Ask::DeleteByAdministrator => Command::DeleteByAdministrator,
            Ask::List => Command::ListTemplates,
            Ask::CountHeld | Ask::CountFree => Command::ReadParameter,
        }
    }

    /// The ID that is meant, if one is.
    fn id(self) -> Option<u16> {
        match self {
            Ask::Enroll(id)
            | Ask::EnrollByAdministrator(id)
            | Ask::EnrollTemplate(id)
            | Ask::Promote(id)
            | Ask::Delete(id) => Some(id),
            _ => None,
        }
    }

    fn flag(self) -> u8 {
        match self {
            Ask::EnrollTemplate(_) => u8::from(EnrollFlag::AddNew),
            Ask::Promote(_) => BOTH,
            Ask::CountHeld => u8::from(Parameter::EnrolledFinger),
            Ask::CountFree => u8::from(Parameter::AvailableFinger),
            _ => u8::from(EnrollFlag::Replace),
        }
    }

    fn size(self) -> u32 {
        match self {
            Ask::EnrollTemplate(_) => SCAN as u32,
            _ => 0,
        }
    }

    /// What is asked, in words.
    fn deed(self) -> &'static str {
        match self {
            Ask::Enroll(_) => "enrol by fingers",
            Ask::EnrollByAdministrator(_) => "enrol by fingers, once an administrator agrees",
            Ask::EnrollTemplate(_) => "enrol a template",
            Ask::Identify => "look for a finger among all IDs",
            Ask::Cancel => "end the request that waits",
            Ask::Promote(_) => "make an administrator of level 3, for enrolling and deleting",
            Ask::Delete(_) => "delete the templates",
            Ask::DeleteByAdministrator => "delete a finger's ID, once an administrator agrees",
            Ask::List => "list the IDs of the held templates",
            Ask::CountHeld => "read Enrolled Finger, the count of held templates",
            Ask::CountFree => "read Available Finger, the count of free places",
        }
    }

    /// What the request waits for first; none for one that takes no finger.
    pub fn awaited(self) -> Option<Awaited> {
        match self {
            Ask::Enroll(_) => Some(Awaited::FirstFinger),
            Ask::EnrollByAdministrator(_) | Ask::DeleteByAdministrator => {
                Some(Awaited::Administrator)
            }
            Ask::Identify => Some(Awaited::Person),
            _ => None,
        }
    }

    /// The template that ET carries: each ID has its own.
    pub fn template(self) -> [u8; SCAN] {
        let [low, _] = self.id().unwrap_or(ALL).to_le_bytes();
        scan_of(low)
    }

    /// The request; only ET carries the template along.
    pub fn request(self, template: &[u8]) -> Request<'_> {
        Request {
            form: Form::Standard,
            command: Coded::Known(self.command()),
            param: u32::from(self.id().unwrap_or(ALL)),
            size: self.size(),
            flag: self.flag(),
            data: template,
        }
    }
}

impl fmt::Display for Ask {
    fn fmt<W: fmt::Write>(&self, f: &mut fmt::Formatter<W>) -> fmt::Result {
        let command = self.command();
        let deed = self.deed();
        match self.id() {
            None => write!(f, "{command}: {deed}"),
            Some(id) => write!(f, "{command} of ID {id}: {deed}"),
        }
    }
}
