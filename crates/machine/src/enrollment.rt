use codes::EnrollFlag;

/// Who lets a finger enrol.
#[derive(Clone, Copy, PartialEq, Eq, Debug)]
pub enum Enroller {
    /// The host alone, by ES.
    Host,
    /// An administrator, by ESA.
    Administrator,
}

/// For whom an enrolment is, how it treats what is held, and who lets it be.
#[derive(Clone, Copy, PartialEq, Eq, Debug)]
pub struct Enrollment {
    pub id: u16,
    pub flag: EnrollFlag,
    pub by: Enroller,
}
