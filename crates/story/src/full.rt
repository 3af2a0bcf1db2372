use crate::ask::Ask;
use crate::person::{ADA, BEN, NOBODY, Person};
use crate::stage::Stage;
use cli::Stop;
use std::io::Write;

/// The memory is full, and a grant is open: of five grants for deleting four fail, and the last is spent.
pub(crate) fn tell<W: Write>(stage: &mut Stage<W>) -> Result<(), Stop> {
    stage.chapter("The memory is full, and a grant is open.")?;
    no_place(stage)?;
    a_cancelled_grant(stage)?;
    nobody_comes(stage)?;
    half_a_scan(stage)?;
    a_poor_scan(stage)?;
    a_spent_grant(stage)?;
    stage.shows(
        "a grant that failed is not spent; what is held changed just by the grant that was spent",
    )
}

/// DSA, and Ada's finger for it.
fn open_grant<W: Write>(stage: &mut Stage<W>) -> Result<(), Stop> {
    stage.ask(Ask::DeleteByAdministrator)?;
    stage.finger(Person::Ada, 90)
}

/// The finger that a failed grant would have served comes too late, and what is held is counted.
fn nothing_is_left<W: Write>(stage: &mut Stage<W>) -> Result<(), Stop> {
    stage.finger(Person::Ben, 85)?;
    stage.ask(Ask::CountHeld)?;
    Ok(())
}

/// A request to enrol ends before a finger is awaited.
fn no_place<W: Write>(stage: &mut Stage<W>) -> Result<(), Stop> {
    stage.chapter(
        "There is no place for an enrolment, so that no finger can earn a grant for one.",
    )?;
    stage.ask(Ask::EnrollByAdministrator(NOBODY))?;
    stage.finger(Person::Ada, 90)
}

/// The host cancels a grant for deleting before Ben comes.
fn a_cancelled_grant<W: Write>(stage: &mut Stage<W>) -> Result<(), Stop> {
    stage.chapter(
        "Ada opens a grant for deleting. The host is told that the module is busy, until it cancels.",
    )?;
    open_grant(stage)?;
    stage.ask(Ask::CountHeld)?;
    stage.ask(Ask::Delete(BEN))?;
    stage.ask(Ask::Cancel)?;
    nothing_is_left(stage)
}

/// A grant for deleting ends when time is up.
fn nobody_comes<W: Write>(stage: &mut Stage<W>) -> Result<(), Stop> {
    stage.chapter("She opens another, and nobody comes.")?;
    open_grant(stage)?;
    stage.nobody()?;
    nothing_is_left(stage)
}

/// A grant for deleting ends with a scan that is cut off.
fn half_a_scan<W: Write>(stage: &mut Stage<W>) -> Result<(), Stop> {
    stage.chapter("She opens another, and Ben lifts his finger too soon.")?;
    open_grant(stage)?;
    stage.half_a_scan(Person::Ben, 85)?;
    nothing_is_left(stage)
}

/// A grant for deleting ends with a scan of too low a quality.
fn a_poor_scan<W: Write>(stage: &mut Stage<W>) -> Result<(), Stop> {
    stage.chapter("She opens another, and Ben's scan is too poor.")?;
    open_grant(stage)?;
    stage.finger(Person::Ben, 20)?;
    nothing_is_left(stage)
}

/// A grant for deleting takes away Ben's templates.
fn a_spent_grant<W: Write>(stage: &mut Stage<W>) -> Result<(), Stop> {
    stage.chapter(
        "She opens a fifth. Packets in between do nothing; Ben's finger spends it, and his templates go.",
    )?;
    open_grant(stage)?;
    stage.ask(Ask::DeleteByAdministrator)?;
    stage.ask(Ask::Delete(ADA))?;
    stage.finger(Person::Ben, 85)?;
    stage.finger(Person::Ben, 85)?;
    stage.holdings()
}
