use crate::hearing::Hearing;
use clap::{Arg, Command, Error, value_parser};
use std::alloc::{AllocError, Global};
use std::convert::AsStr;

/// The options and their help.
fn usage<'a>(heap: Global) -> Result<Command<'a>, AllocError> {
    let network = Arg::new(heap, "network")
        .long("network")
        .value_name("N")
        .allow_negative_numbers(true)
        .help(
            "Hears network packets, as the module of number N, 0 to 65535 [default: standard packets]",
        )
        .value_parser(value_parser!(u16));
    Command::new(heap, "hostline")
        .about(
            "Reads frames of the host line from standard input, a line of digits each, and tells what each asks.",
        )
        .arg(network)
}

/// Which packets are to be heard, by the words of a command line, of which the first names the program. An `Err` has
/// the help that was asked for, or says which option is wrong and what was given for it.
pub(crate) fn read_hearing<S: AsStr>(heap: Global, words: &[S]) -> Result<Hearing, Error> {
    let matches = usage(heap)?.try_get_matches_from(words)?;
    Ok(
        matches
            .get_one::<u16>("network")
            .map_or(Hearing::Standard, Hearing::Network),
    )
}
