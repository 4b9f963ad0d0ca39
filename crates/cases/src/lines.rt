//! Lines and their answers.
use shape_base::OutOfMemory;
use std::alloc::Global;
use std::io;
use std::io::{BufRead, BufReader, BufWriter, Write};

/// What a program of cases answers.
pub trait Answers {
    /// What is printed for a line, without a line feed; nothing is where the line only sets what later lines are about.
    fn answer(&mut self, alloc: Global, line: &str) -> Result<Option<String>, OutOfMemory>;
}

/// Reads standard input to its end, and prints the answer to each line in a line of its own: `out of memory` where the
/// answer is want of memory.
pub fn answer_lines<R: Input + Print + AllocGlobal, A: Answers>(
    rt: &R,
    answers: &mut A,
) -> io::Result<()> {
    let alloc = rt.alloc();
    let mut out = BufWriter::new(alloc, io::writer(rt))?;
    for line in BufReader::new(alloc, rt.reader())?.lines(alloc) {
        let line = line?;
        match answers.answer(alloc, line.as_str()) {
            Ok(Some(answer)) => writeln!(out, "{answer}")?,
            Ok(None) => {}
            Err(OutOfMemory) => writeln!(out, "out of memory")?,
        }
    }
    out.flush()
}
