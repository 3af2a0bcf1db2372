use clap::{Arg, Command, Error, value_parser};
use session::{Making, MatcherKind};
use std::alloc::{AllocError, Global};
use std::convert::AsStr;

/// The options and their help.
fn usage<'a>(heap: Global) -> Result<Command<'a>, AllocError> {
    let pages = Arg::new(heap, "pages")
        .long("pages")
        .value_name("N")
        .allow_negative_numbers(true)
        .help("A page memory of N pages, 0 to 64 [default: 16]")
        .value_parser(value_parser!(u16).range(0..=64));
    let rows = Arg::new(heap, "rows")
        .long("rows")
        .value_name("N")
        .allow_negative_numbers(true)
        .help("A row memory of N rows, 0 to 500, in place of the pages")
        .value_parser(value_parser!(u16).range(0..=500))
        .conflicts_with("pages")?;
    let matcher = Arg::new(heap, "matcher")
        .long("matcher")
        .value_name("KIND")
        .help("What agrees: equal bytes, or enough near points [default: byte]")
        .value_parser(["byte", "point"].as_slice());
    let number = Arg::new(heap, "number")
        .long("number")
        .value_name("N")
        .allow_negative_numbers(true)
        .help("The module number, 0 to 65535 [default: 1]")
        .value_parser(value_parser!(u16));
    Command::new(heap, "bench")
        .about(
            "Reads bench lines from standard input, and prints for each what a module makes of it.",
        )
        .arg(pages)?
        .arg(rows)?
        .arg(matcher)?
        .arg(number)
}

/// What a module is to be made of, by the words of a command line, of which the first names the program. An `Err` has
/// the help that was asked for, or says which option is wrong and what was given for it.
pub fn read_making<S: AsStr>(heap: Global, words: &[S]) -> Result<Making, Error> {
    let matches = usage(heap)?.try_get_matches_from(words)?;
    Ok(Making::chosen(
        matches.get_one::<u16>("pages"),
        matches.get_one::<u16>("rows"),
        matches.get_str("matcher").and_then(MatcherKind::named),
        matches.get_one::<u16>("number"),
    ))
}
