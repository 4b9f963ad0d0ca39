//! The lines of a script's outs.
ghost use Rattle.std.specs.Prelude.{◌≡◌, ◌++◌, length, codes, decimal, OnOk};
ghost use Rattle.std.specs.List.{flat_map};
ghost use Rattle.script.specs.Lines.{handle_line, head_line, row_line, given_text, out_text, outs_text, end_text};

use core_events::{Out, Outs};
use shape_base::{Handle, KeyedRows, Offset, OutOfMemory};
use shape_json::push_row;
use std::alloc::Global;

fn push_str(out: &mut Vec<u8>, text: &str) -> Result<(), OutOfMemory>
    ensures { OnOk result (out.new.items ≡ out.old.items ++ text.now) }
{
    out.extend_from_slice(text.as_bytes())?;
    Ok(())
}

fn push_number(out: &mut Vec<u8>, number: u64) -> Result<(), OutOfMemory>
    ensures { OnOk result (out.new.items ≡ out.old.items ++ decimal number) }
{
    let mut digits = itoa::Buffer::new();
    push_str(out, digits.format(number))
}

fn push_handle(out: &mut Vec<u8>, handle: &Handle) -> Result<(), OutOfMemory>
    ensures { OnOk result (out.new.items ≡ out.old.items ++ handle_line handle.now) }
{
    push_number(out, handle.number)?;
    push_str(out, "-")?;
    push_str(out, handle.run.as_str())
}

fn push_given(out: &mut Vec<u8>, exchange: u32, bytes: &[u8]) -> Result<(), OutOfMemory>
    ensures { OnOk result (out.new.items ≡ out.old.items ++ given_text exchange bytes.now) }
{
    push_str(out, "reply ")?;
    push_number(out, u64::from(exchange))?;
    push_str(out, " ")?;
    push_number(out, bytes.len() as u64)?;
    push_str(out, "\n")?;
    out.extend_from_slice(bytes)?;
    push_str(out, "\n")
}

fn push_head(
    alloc: Global,
    out: &mut Vec<u8>,
    client: u32,
    handle: &Handle,
    offset: Offset,
    count: u64,
) -> Result<(), OutOfMemory>
    ensures { OnOk result (out.new.items ≡ out.old.items ++ head_line client handle.now offset count) }
{
    let offset = offset.print(alloc)?;
    push_str(out, "client ")?;
    push_number(out, u64::from(client))?;
    push_str(out, " up-to-date ")?;
    push_handle(out, handle)?;
    push_str(out, " ")?;
    push_str(out, offset.as_str())?;
    push_str(out, " ")?;
    push_number(out, count)?;
    push_str(out, "\n")
}

fn push_rows(out: &mut Vec<u8>, rows: &KeyedRows) -> Result<(), OutOfMemory>
    ensures { OnOk result (out.new.items ≡ out.old.items ++ flat_map row_line rows.now) }
{
    for row in rows.as_slice() {
        push_row(out, row)?;
        push_str(out, "\n")?;
    }
    Ok(())
}

/// Adds the lines of an out. Each ends with a line feed.
pub fn push_out(alloc: Global, out: &mut Vec<u8>, put: &Out) -> Result<(), OutOfMemory>
    ensures { OnOk result (out.new.items ≡ out.old.items ++ out_text put.now) }
{
    match put {
        Out::Given { exchange, bytes } => push_given(out, *exchange, bytes.as_slice()),
        Out::Cut { exchange } => push_cut(out, *exchange),
        Out::Block {
            client,
            handle,
            offset,
            rows,
        } => {
            push_head(alloc, out, *client, handle, *offset, rows.len())?;
            push_rows(out, rows)
        }
        Out::Refetched { client } => push_refetched(out, *client),
        Out::Refused { client, status } => push_refused(out, *client, *status),
        Out::StreamRefused { name, place } => push_stream_refused(out, name.as_str(), *place),
    }
}

fn push_cut(out: &mut Vec<u8>, exchange: u32) -> Result<(), OutOfMemory>
    ensures { OnOk result (out.new.items ≡ out.old.items ++ codes "cut " ++ decimal exchange ++ codes "\n") }
{
    push_str(out, "cut ")?;
    push_number(out, u64::from(exchange))?;
    push_str(out, "\n")
}

fn push_refetched(out: &mut Vec<u8>, client: u32) -> Result<(), OutOfMemory>
    ensures { OnOk result (out.new.items ≡ out.old.items ++ codes "client " ++ decimal client ++ codes " refetch\n") }
{
    push_str(out, "client ")?;
    push_number(out, u64::from(client))?;
    push_str(out, " refetch\n")
}

fn push_refused(out: &mut Vec<u8>, client: u32, status: u16) -> Result<(), OutOfMemory>
    ensures { OnOk result (out.new.items ≡ out.old.items ++ codes "client " ++ decimal client ++ codes " server-refused " ++ decimal status ++ codes "\n") }
{
    push_str(out, "client ")?;
    push_number(out, u64::from(client))?;
    push_str(out, " server-refused ")?;
    push_number(out, u64::from(status))?;
    push_str(out, "\n")
}

fn push_stream_refused(out: &mut Vec<u8>, name: &str, place: u64) -> Result<(), OutOfMemory>
    ensures { OnOk result (out.new.items ≡ out.old.items ++ codes "stream refused " ++ name.now ++ codes " " ++ decimal place ++ codes "\n") }
{
    push_str(out, "stream refused ")?;
    push_str(out, name)?;
    push_str(out, " ")?;
    push_number(out, place)?;
    push_str(out, "\n")
}

/// Adds the lines of outs, in order.
pub fn push_outs(alloc: Global, out: &mut Vec<u8>, outs: &Outs) -> Result<(), OutOfMemory>
    ensures { OnOk result (out.new.items ≡ out.old.items ++ outs_text outs.now) }
{
    for put in outs.as_slice() {
        push_out(alloc, out, put)?;
    }
    Ok(())
}

/// Adds the last line of a script, after so many exchanges.
pub fn push_end(out: &mut Vec<u8>, exchanges: u64) -> Result<(), OutOfMemory>
    ensures { OnOk result (out.new.items ≡ out.old.items ++ end_text exchanges) }
{
    push_str(out, "end ")?;
    push_number(out, exchanges)?;
    push_str(out, "\n")
}
