//! What comes of bytes, in whatever pieces.
ghost use Rattle.std.specs.Prelude.{◌≡◌, ◌≤◌, length};

use cases::{bytes_of, put_bytes};
use pg_wire::{Frame, FrameError, Frames};
use shape_base::OutOfMemory;
use std::alloc::Global;

/// Adds a frame to a line.
fn put_frame(out: &mut String, frame: &Frame) -> Result<(), OutOfMemory> {
    match frame {
        Frame::Wal {
            start,
            end,
            message,
        } => {
            write!(out, "wal {start} {end} ")?;
            put_bytes(out, message.as_slice())
        }
        Frame::Keepalive { end, wanted } => {
            write!(out, "keepalive {end}")?;
            out.push_str(if *wanted { " wanted" } else { "" })?;
            Ok(())
        }
        Frame::Done => {
            out.push_str("done")?;
            Ok(())
        }
    }
}

/// Adds a refusal to a line.
fn put_refusal(out: &mut String, error: FrameError) -> Result<(), OutOfMemory> {
    match error {
        FrameError::OutOfMemory => out.push_str("out_of_memory")?,
        FrameError::BadFrame { place } => write!(out, "bad_frame {place}")?,
        FrameError::FrameTooLong {
            place,
            bytes,
            limit,
        } => {
            write!(out, "frame_too_long {place} {bytes} {limit}")?;
        }
        FrameError::ServerError { place, sqlstate } => {
            write!(out, "server_error {place} ")?;
            put_bytes(out, sqlstate.as_bytes())?;
        }
    }
    Ok(())
}

/// Adds all that comes of what was fed.
fn put_all(out: &mut String, frames: &mut Frames) -> Result<(), OutOfMemory> {
    for _ in 0..u32::MAX {
        let rest = frames.rest();
        write!(out, "rest {rest}")?;
        match frames.next() {
            Ok(Some(frame)) => {
                out.push_str("; ")?;
                put_frame(out, &frame)?;
                out.push_str("; ")?;
            }
            Ok(None) => {
                let left = frames.rest();
                if left < rest {
                    write!(out, "; rest {left}")?;
                }
                return Ok(());
            }
            Err(error) => {
                out.push_str("; ")?;
                return put_refusal(out, error);
            }
        }
    }
    Ok(())
}

/// What comes of each piece.
pub(crate) fn frames_line(alloc: Global, text: &str) -> Result<String, OutOfMemory> {
    let mut out = String::new(alloc);
    let mut frames = Frames::new(alloc);
    for (place, piece) in text.split('|').enumerate() {
        if place > 0 {
            out.push_str(" | ")?;
        }
        frames.feed(bytes_of(alloc, piece)?.as_slice())?;
        put_all(&mut out, &mut frames)?;
    }
    Ok(out)
}

/// What comes next, as one letter.
fn letter(frames: &mut Frames) -> char {
    match frames.next() {
        Ok(Some(Frame::Wal { .. })) => 'w',
        Ok(Some(Frame::Keepalive { .. })) => 'k',
        Ok(Some(Frame::Done)) => 'c',
        Ok(None) => '.',
        Err(FrameError::BadFrame { .. }) => 'b',
        Err(FrameError::FrameTooLong { .. }) => 'l',
        Err(FrameError::ServerError { .. }) => 'e',
        Err(FrameError::OutOfMemory) => 'm',
    }
}

/// Adds all that comes, as letters, up to none or a refusal.
fn put_letters(out: &mut String, frames: &mut Frames) -> Result<(), OutOfMemory> {
    for _ in 0..u32::MAX {
        let next = letter(frames);
        out.push(next)?;
        if next != 'w' && next != 'k' && next != 'c' {
            break;
        }
    }
    Ok(())
}

/// What comes of bytes that are cut at this place.
fn letters_at(alloc: Global, bytes: &[u8], place: usize) -> Result<String, OutOfMemory>
    requires { place ≤ length bytes.now }
{
    let mut out = String::new(alloc);
    let mut frames = Frames::new(alloc);
    frames.feed(&bytes[..place])?;
    put_letters(&mut out, &mut frames)?;
    frames.feed(&bytes[place..])?;
    put_letters(&mut out, &mut frames)?;
    Ok(out)
}

/// What comes at each cut, with how many cuts in a row give the same.
pub(crate) fn cuts_line(alloc: Global, bytes: &[u8]) -> Result<String, OutOfMemory> {
    let mut out = String::new(alloc);
    let mut last = String::new(alloc);
    let mut count = 0u64;
    for place in 0..bytes.len() {
        let letters = letters_at(alloc, bytes, place)?;
        if letters.as_str() != last.as_str() && count > 0 {
            write!(out, "{last} {count}, ")?;
            count = 0;
        }
        last = letters;
        count = count.saturating_add(1);
    }
    write!(out, "{last} {count}")?;
    Ok(out)
}

/// The frames where single bytes are fed.
pub(crate) fn single_line(alloc: Global, bytes: &[u8]) -> Result<String, OutOfMemory> {
    let mut out = String::new(alloc);
    let mut frames = Frames::new(alloc);
    for byte in bytes {
        frames.feed(&[*byte])?;
        let next = letter(&mut frames);
        if next != '.' {
            out.push(next)?;
        }
    }
    Ok(out)
}
