ghost use Rattle.std.specs.Prelude.{◌≡◌};
ghost use Rattle.cli.specs.Lines.{without_end};

use std::io;
use std::io::{BufRead, BufReader, Read, Write};

/// Takes the line feed off a line, which the last one may lack.
fn drop_end(line: &mut Vec<u8>)
    ensures { line.new.items ≡ without_end line.old.items }
{
    if line.last() == Some(&b'\n') {
        line.pop();
    }
}

/// Reads the next line of an input in place of what `line` held, without its line end, and says whether there was one;
/// the last line counts without a line end.
///
/// Whoever writes the lines may wait for an answer before writing the next: so before a read that may wait, where no
/// whole line is left of what was read before, the output is flushed. An `Err` says that reading, writing or memory
/// gave out.
pub fn next_line<R: Read, W: Write>(
    input: &mut BufReader<R>,
    output: &mut W,
    line: &mut Vec<u8>,
) -> io::Result<bool> {
    if !input.buffer().contains(&b'\n') {
        output.flush()?;
    }
    line.clear();
    if input.read_until(b'\n', line)? == 0 {
        return Ok(false);
    }
    drop_end(line);
    Ok(true)
}
