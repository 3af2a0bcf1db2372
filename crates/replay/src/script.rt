use anyhow::Context;
use benchrun::read_making;
use cli::Stop;
use session::Making;
use std::fs;

/// A recorded script.
#[derive(Drop)]
pub(crate) struct Script {
    /// What its module is made of.
    pub(crate) making: Making,
    pub(crate) lines: Vec<u8>,
    /// What is to be printed for the lines.
    pub(crate) answers: Vec<u8>,
}

/// The names of the scripts in a folder, in order.
pub(crate) fn names_in(rt: &HostRuntime, folder: &str) -> Result<Vec<String>, Stop> {
    let heap = rt.alloc();
    let mut names = Vec::new(heap);
    let entries = fs::read_dir(rt, folder).context(format_args!("reading {folder}"))?;
    for entry in entries {
        let entry = entry?;
        if let Some(name) = entry.file_name().strip_suffix(".in") {
            names.push(String::from_str(heap, name)?)?;
        }
    }
    names.sort()?;
    Ok(names)
}

/// What the module of a script is made of: the words in NAME.args, where that is there, are the bench's options.
fn making_of(rt: &HostRuntime, folder: &str, name: &str) -> Result<Making, Stop> {
    let heap = rt.alloc();
    let path = format!(in heap; "{folder}/{name}.args")?;
    let given = if fs::exists(rt, path.as_str())? {
        fs::read_to_string(rt, path.as_str())?
    } else {
        String::new(heap)
    };
    let mut words = Vec::new(heap);
    words.push(String::from_str(heap, "bench")?)?;
    for word in given.lines() {
        words.push(String::from_str(heap, word)?)?;
    }
    Ok(read_making(heap, words.as_slice())?)
}

impl Script {
    pub(crate) fn read(rt: &HostRuntime, folder: &str, name: &str) -> Result<Script, Stop> {
        let heap = rt.alloc();
        let lines = format!(in heap; "{folder}/{name}.in")?;
        let answers = format!(in heap; "{folder}/{name}.out")?;
        Ok(Script {
            making: making_of(rt, folder, name)?,
            lines: fs::read(rt, lines.as_str()).context(format_args!("reading {lines}"))?,
            answers: fs::read(rt, answers.as_str()).context(format_args!("reading {answers}"))?,
        })
    }
}
