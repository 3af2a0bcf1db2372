use crate::ask::Ask;
use crate::full;
use crate::person::{ADA, BEN, NOBODY, Person};
use crate::stage::Stage;
use cli::Stop;
use std::io::Write;

/// The whole story, in order.
pub(crate) fn tell<W: Write>(stage: &mut Stage<W>) -> Result<(), Stop> {
    an_administrator(stage)?;
    a_stranger(stage)?;
    a_cancelled_grant(stage)?;
    a_spent_grant(stage)?;
    a_full_memory(stage)?;
    full::tell(stage)?;
    a_deleted_administrator(stage)?;
    the_same_id(stage)
}

/// Ada is enrolled and given her level.
fn an_administrator<W: Write>(stage: &mut Stage<W>) -> Result<(), Stop> {
    stage.chapter(
        "Ada is enrolled, and made an administrator who may let others enrol and delete.",
    )?;
    stage.ask(Ask::Enroll(ADA))?;
    stage.finger(Person::Ada, 80)?;
    stage.finger(Person::Ada, 90)?;
    stage.ask(Ask::Promote(ADA))?;
    stage.holdings()?;
    stage.shows("the module lists what it holds; held and free make the capacity")
}

/// A finger that the module does not know earns no grant.
fn a_stranger<W: Write>(stage: &mut Stage<W>) -> Result<(), Stop> {
    stage.chapter("Ben, whom the module does not know, lays his finger where Ada's is wanted.")?;
    stage.ask(Ask::EnrollByAdministrator(BEN))?;
    stage.finger(Person::Ben, 75)?;
    stage.shows("a grant is earned by an administrator whose level allows it")
}

/// The host cancels a grant for enrolling between the two fingers that it is for.
fn a_cancelled_grant<W: Write>(stage: &mut Stage<W>) -> Result<(), Stop> {
    stage.chapter("Ada opens a grant for Ben, and the host cancels it between his two fingers.")?;
    stage.ask(Ask::EnrollByAdministrator(BEN))?;
    stage.finger(Person::Ada, 90)?;
    stage.finger(Person::Ben, 75)?;
    stage.ask(Ask::Cancel)?;
    stage.finger(Person::Ben, 75)?;
    stage.ask(Ask::CountHeld)?;
    stage.shows("a grant that is cancelled is not spent")
}

/// A grant enrols Ben, and allows no second enrolment.
fn a_spent_grant<W: Write>(stage: &mut Stage<W>) -> Result<(), Stop> {
    stage.chapter(
        "Ada opens another grant, and Ben is enrolled by it. The next request wants a grant of its own.",
    )?;
    stage.ask(Ask::EnrollByAdministrator(BEN))?;
    stage.finger(Person::Ada, 90)?;
    stage.finger(Person::Ben, 75)?;
    stage.finger(Person::Ben, 85)?;
    stage.finger(Person::Ben, 85)?;
    stage.ask(Ask::EnrollByAdministrator(BEN))?;
    stage.finger(Person::Ben, 85)?;
    stage.shows("a grant is spent once")
}

/// The host enrols templates until no place is left.
fn a_full_memory<W: Write>(stage: &mut Stage<W>) -> Result<(), Stop> {
    stage.chapter("The host fills the memory.")?;
    stage.fill()?;
    stage.holdings()?;
    stage.shows("the module lists what it holds; held and free make the capacity")
}

/// With Ada her level goes, and both requests for a grant are refused.
fn a_deleted_administrator<W: Write>(stage: &mut Stage<W>) -> Result<(), Stop> {
    stage.chapter("Ada is deleted, and nobody may let others enrol or delete.")?;
    stage.ask(Ask::Delete(ADA))?;
    stage.ask(Ask::EnrollByAdministrator(NOBODY))?;
    stage.ask(Ask::DeleteByAdministrator)?;
    stage.holdings()?;
    stage.shows(
        "a grant is earned by an administrator whose level allows it; with none, nobody earns one",
    )
}

/// Ada has her ID again, and no level.
fn the_same_id<W: Write>(stage: &mut Stage<W>) -> Result<(), Stop> {
    stage.chapter(
        "Ada is enrolled under the same ID again. Her finger is known, and her level is gone.",
    )?;
    stage.ask(Ask::Enroll(ADA))?;
    stage.finger(Person::Ada, 80)?;
    stage.finger(Person::Ada, 90)?;
    stage.ask(Ask::Identify)?;
    stage.finger(Person::Ada, 90)?;
    stage.ask(Ask::EnrollByAdministrator(NOBODY))?;
    stage.ask(Ask::DeleteByAdministrator)?;
    stage.holdings()?;
    stage.shows("a deleted administrator does not come back")
}
