//! Functions by their names, and what each line comes to.
use crate::malformed::Malformed;
use crate::words::Words;
use anyhow::Context;
use luks_test_devices::grown_stack;
use std::alloc::Global;
use std::io;
use std::io::{BufRead, BufReader, BufWriter, Write};

/// Functions, and what lines have set for them.
pub trait Functions {
    /// What the function of this name gives with the words that follow it, where it gives something.
    fn answer(
        &mut self,
        alloc: Global,
        function: &str,
        words: &mut Words<'_>,
    ) -> Result<Option<String>, Malformed>;
}

/// Prints what each line of standard input comes to.
pub fn answer_all<F: Functions>(rt: &HostRuntime, functions: &mut F) -> Result<(), anyhow::Error> {
    let room = 4096 + usize::from(grown_stack());
    let mut out = BufWriter::with_capacity(rt.alloc(), room, io::writer(rt))?;
    let input = BufReader::new(rt.alloc(), rt.reader())?;
    for (before, line) in input.lines(rt.alloc()).enumerate() {
        let told = tell(rt.alloc(), functions, line?.as_str(), &mut out);
        if told.is_err() {
            out.flush()?;
        }
        told.context(format_args!("line {}", before.saturating_add(1)))?;
    }
    out.flush()?;
    Ok(())
}

/// Prints what a line comes to.
fn tell<F: Functions, W: Write>(
    alloc: Global,
    functions: &mut F,
    line: &str,
    out: &mut W,
) -> Result<(), anyhow::Error> {
    if matches!(line.as_bytes().first(), None | Some(b'#')) {
        writeln!(out, "{line}")?;
    } else if let Some(answer) = answer_of(alloc, functions, line)? {
        writeln!(out, "{answer}")?;
    }
    Ok(())
}

/// What the function of a line gives, which reads all its words.
fn answer_of<F: Functions>(
    alloc: Global,
    functions: &mut F,
    line: &str,
) -> Result<Option<String>, Malformed> {
    let mut words = Words::new(line);
    let function = words.word()?;
    let answer = functions.answer(alloc, function, &mut words)?;
    words.end()?;
    Ok(answer)
}
