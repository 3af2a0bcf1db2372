use anyhow::Context;
use clap::{Arg, Command, Error, value_parser};
use cli::Stop;
use std::alloc::Global;
use std::convert::AsStr;
use std::fmt;

/// What a module is given to do.
#[derive(Clone, Copy, PartialEq, Eq, Debug)]
pub(crate) enum Workload {
    Frames,
    List,
    Identify,
    IdentifyBytes,
    Enroll,
    Delete,
}

impl Workload {
    const ALL: [Workload; 6] = [
        Workload::Frames,
        Workload::List,
        Workload::Identify,
        Workload::IdentifyBytes,
        Workload::Enroll,
        Workload::Delete,
    ];

    /// The word for the workload.
    fn name(self) -> &'static str {
        match self {
            Workload::Frames => "frames",
            Workload::List => "list",
            Workload::Identify => "identify",
            Workload::IdentifyBytes => "identify_bytes",
            Workload::Enroll => "enrol",
            Workload::Delete => "delete",
        }
    }

    /// The workload of this name; none for another name.
    fn named(name: &str) -> Option<Workload> {
        Workload::ALL
            .into_iter()
            .find(|workload| workload.name() == name)
    }
}

impl fmt::Display for Workload {
    fn fmt<W: fmt::Write>(&self, f: &mut fmt::Formatter<W>) -> fmt::Result {
        f.write_str(self.name())
    }
}

/// A workload, and how many times it is done.
#[derive(Clone, Copy, PartialEq, Eq, Debug)]
pub(crate) struct Options {
    pub workload: Workload,
    pub count: u32,
}

/// The arguments and their help.
fn usage<'a>(heap: Global, names: &'a [&'a str]) -> Result<Command<'a>, Error> {
    let workload = Arg::new(heap, "WORKLOAD")
        .required(true)
        .help("What the module is given to do, again and again")
        .value_parser(names);
    let count = Arg::new(heap, "COUNT")
        .required(true)
        .allow_negative_numbers(true)
        .help("How many times, 0 to 4294967295")
        .value_parser(value_parser!(u32));
    Ok(
        Command::new(heap, "speed")
            .about(
                "Gives a module the same work again and again, and prints a checksum of all its answers.",
            )
            .arg(workload)?
            .arg(count)?,
    )
}

/// What is to be done, by the words of a command line, of which the first names the program. An `Err` has the help
/// that was asked for, or says which argument is wrong and what was given for it.
pub(crate) fn read_options<S: AsStr>(heap: Global, words: &[S]) -> Result<Options, Stop> {
    let names = Workload::ALL.map(Workload::name);
    let matches = usage(heap, names.as_slice())?.try_get_matches_from(words)?;
    let workload = matches.get_str("WORKLOAD").and_then(Workload::named);
    let count = matches.get_one::<u32>("COUNT");
    Ok(Options {
        workload: workload.context("no WORKLOAD was given")?,
        count: count.context("no COUNT was given")?,
    })
}
