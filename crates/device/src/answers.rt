ghost use Rattle.std.specs.Prelude.{◌≡◌};
ghost use Rattle.machine.specs.Answers.{outcome};

use codes::Code;
use packet::{Form, Outcome, Request};

/// An outcome, and the form of the packet that it belongs to.
#[derive(Clone, Copy, PartialEq, Eq, Debug)]
pub struct Told {
    pub to: Form,
    pub outcome: Outcome,
}

impl Told {
    /// An outcome of a packet's own call.
    pub fn own(request: Request<'_>, param: u32, size: u32, code: Code) -> Told
        ensures { result ≡ record {
          to = request.entry.form;
          outcome = outcome request.entry.command param size code;
        } }
    {
        Told {
            to: request.form,
            outcome: Outcome {
                command: request.command,
                param,
                size,
                code,
            },
        }
    }
}

/// The data of an outcome, by where it stands in the memory.
#[derive(Clone, Copy, PartialEq, Eq, Debug)]
pub enum Data {
    /// The IDs of at most `most` templates from the place `from` on.
    Ids { from: usize, most: usize },
    /// The template at a place.
    Template { place: usize },
}

/// What a call answers.
#[derive(Clone, Copy, PartialEq, Eq, Debug)]
pub enum Answers {
    /// No outcome.
    Nothing,
    /// An outcome without data.
    One(Told),
    /// LT, RT: an outcome, and the IDs or the template that it carries.
    WithData(Told, Data),
    /// Two outcomes without data, in this order.
    Two(Told, Told),
}
