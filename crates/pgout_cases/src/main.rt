//! Reads the bytes of messages, one message a line, and prints what each is read as and whether it is written as the same
//! bytes, or the place and the kind of its fault: cases for `pgout`.
//!
//! A backslash and two hexadecimal digits stand for one byte. Numbers of 64 bits and type modifiers are printed in
//! hexadecimal, others in decimal. A row is printed with bars between its columns: `n` for null, `u` for one that was not
//! sent, `t` and the text, `b` and the bytes.
#![tactic(auto)]

mod printing;

use cases::{Answers, answer_lines, bytes_of};
use pgout::{MessageError, read_message, write_message};
use printing::{bad_line, message_line};
use shape_base::OutOfMemory;
use std::alloc::Global;
use std::io;

#[derive(Drop)]
struct MessageCases;

impl Answers for MessageCases {
    fn answer(&mut self, alloc: Global, line: &str) -> Result<Option<String>, OutOfMemory> {
        let bytes = bytes_of(alloc, line)?;
        match read_message(alloc, bytes.as_slice()) {
            Ok(message) => {
                let mut line = message_line(alloc, &message)?;
                let written = write_message(alloc, &message)?;
                if written.as_slice() != bytes.as_slice() {
                    line.push_str(", written otherwise")?;
                }
                Ok(Some(line))
            }
            Err(MessageError::BadMessage { place, kind }) => Ok(Some(bad_line(
                alloc, place, kind,
            )?)),
            Err(MessageError::OutOfMemory) => Err(OutOfMemory),
        }
    }
}

fn main(rt: HostRuntime) -> io::Result<()> {
    answer_lines(&rt, &mut MessageCases)
}
