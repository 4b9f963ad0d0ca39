//! The writer: each call adds a text at the end of a buffer that has room for it, and takes no memory.
ghost use Rattle.std.specs.Prelude.{◌≡◌, true, ◌+◌, ◌≤◌, ◌<◌, ◌∷◌, [], ◌++◌, length, take, map, vec_len, vec_capacity, codes, decimal};
ghost use Rattle.std.specs.List.{flat_map};
ghost use Rattle.std.specs.Str.{IsUtf8};
ghost use Rattle.std.specs.Char.{digit_char};
ghost use Rattle.json.specs.Print.{quoted, escape, escape_byte, escape_letter};
ghost use Rattle.shape_base.specs.OffsetText.{offset_text};
ghost use Rattle.shape_json.specs.Body.{value_text, cell_text, cells_text, operation, entry_text, joined};
ghost use Rattle.shape_json.specs.Buffer.{HasRoom, Adds};

use shape_base::{Cell, Cells, Entry, Offset, Op, Value};

/// Adds the bytes of a text.
pub(crate) fn put_bytes(out: &mut Vec<u8>, text: &[u8])
    requires room { HasRoom out.old (length text.now) }
    requires utf8 { IsUtf8 text.now }
    ensures { Adds out.old out.new text.now }
{
    out.extend_from_slice(text).unwrap();
}

/// Adds a text.
pub(crate) fn put(out: &mut Vec<u8>, text: &str)
    requires { HasRoom out.old (length text.now) }
    ensures { Adds out.old out.new text.now }
{
    put_bytes(out, text.as_bytes());
}

/// The letter of a byte's short escape, or 0 where it has none.
fn letter(byte: u8) -> u8
    ensures { result ≡ escape_letter byte }
{
    match byte {
        b'"' | b'\\' => byte,
        8 => b'b',
        12 => b'f',
        b'\n' => b'n',
        b'\r' => b'r',
        b'\t' => b't',
        _ => 0,
    }
}

fn hex_digit(digit: u8) -> u8
    requires { digit < 16 }
    ensures { result ≡ digit_char digit }
{
    if digit < 10 {
        b'0' + digit
    } else {
        b'a' + (digit - 10)
    }
}

/// What stands for a byte in a JSON string: the first so many of these bytes.
pub(crate) fn spelling(byte: u8) -> ([u8; 6], usize)
    ensures spelled { take result.1 result.0 ≡ escape_byte byte }
    ensures count { result.1 ≡ length (escape_byte byte) }
    ensures within { result.1 ≤ 6 }
{
    let letter = letter(byte);
    if letter > 0 {
        return ([b'\\', letter, 0, 0, 0, 0], 2);
    }
    if byte < b' ' {
        let (high, low) = (hex_digit(byte / 16), hex_digit(byte % 16));
        return ([b'\\', b'u', b'0', b'0', high, low], 6);
    }
    ([byte, 0, 0, 0, 0, 0], 1)
}

/// Whether a byte stands for itself in a JSON string.
pub(crate) fn is_plain_byte(byte: u8) -> bool
    ensures { result ≡ true → escape_byte byte ≡ byte ∷ [] }
{
    match byte {
        b'"' => false,
        b'\\' => false,
        0..=31 => false,
        _ => true,
    }
}

/// Adds bytes as they are.
fn put_plain(out: &mut Vec<u8>, run: &[u8])
    requires { HasRoom out.old (length run.now) }
    ensures text { out.new.items ≡ out.old.items ++ run.now }
    ensures len { vec_len out.new ≡ vec_len out.old + length run.now }
    ensures room { vec_capacity out.old ≤ vec_capacity out.new }
{
    out.extend_from_slice(run).unwrap();
}

/// Adds bytes as they are, and what stands for one behind them in a JSON string.
fn put_run(out: &mut Vec<u8>, run: &[u8], byte: u8)
    requires { HasRoom out.old (length (run.now ++ escape_byte byte)) }
    ensures text { out.new.items ≡ out.old.items ++ (run.now ++ escape_byte byte) }
    ensures len { vec_len out.new ≡ vec_len out.old + length (run.now ++ escape_byte byte) }
    ensures room { vec_capacity out.old ≤ vec_capacity out.new }
{
    out.extend_from_slice(run).unwrap();
    let (spelling, count) = spelling(byte);
    out.extend_from_slice(&spelling[..count]).unwrap();
}

/// Adds what stands for the bytes of a text in a JSON string. Bytes that stand for themselves are added many at a time.
fn put_escaped(out: &mut Vec<u8>, text: &[u8])
    requires { HasRoom out.old (length (escape text.now)) }
    ensures text { out.new.items ≡ out.old.items ++ escape text.now }
    ensures len { vec_len out.new ≡ vec_len out.old + length (escape text.now) }
    ensures room { vec_capacity out.old ≤ vec_capacity out.new }
{
    let mut from = 0;
    for place in 0..text.len() {
        let byte = text[place];
        if !is_plain_byte(byte) {
            put_run(out, &text[from..place], byte);
            from = place + 1;
        }
    }
    put_plain(out, &text[from..]);
}

/// Adds a text as a JSON string.
pub fn put_string(out: &mut Vec<u8>, text: &str)
    requires { HasRoom out.old (length (quoted text.now)) }
    ensures { Adds out.old out.new (quoted text.now) }
{
    put(out, "\"");
    put_escaped(out, text.as_bytes());
    put(out, "\"");
}

fn put_offset(out: &mut Vec<u8>, offset: Offset)
    requires { HasRoom out.old (length (quoted (offset_text offset))) }
    ensures { Adds out.old out.new (quoted (offset_text offset)) }
{
    match offset {
        Offset::Start => put(out, "\"-1\""),
        Offset::At { lsn, pos } => put_position(out, lsn, pos),
    }
}

fn put_position(out: &mut Vec<u8>, lsn: u64, pos: u64)
    requires { HasRoom out.old (length (quoted (offset_text (Offset.At lsn pos)))) }
    ensures { Adds out.old out.new (quoted (offset_text (Offset.At lsn pos))) }
{
    let mut digits = itoa::Buffer::new();
    put(out, "\"");
    put(out, digits.format(lsn));
    put(out, "_");
    put(out, digits.format(pos));
    put(out, "\"");
}

fn put_value(out: &mut Vec<u8>, value: &Value)
    requires { HasRoom out.old (length (value_text value.now)) }
    ensures { Adds out.old out.new (value_text value.now) }
{
    match value {
        Value::Null => put(out, "null"),
        Value::Words(words) => put_string(out, words.as_str()),
    }
}

fn put_cell(out: &mut Vec<u8>, cell: &Cell)
    requires { HasRoom out.old (length (cell_text cell.now)) }
    ensures { Adds out.old out.new (cell_text cell.now) }
{
    put_string(out, cell.name.as_str());
    put(out, ":");
    put_value(out, &cell.value);
}

/// Adds cells, each behind a comma.
fn put_more_cells(out: &mut Vec<u8>, cells: &[Cell])
    requires { HasRoom out.old (length (flat_map (λ text. 44 ∷ text) (map cell_text cells.now))) }
    ensures { Adds out.old out.new (flat_map (λ text. 44 ∷ text) (map cell_text cells.now)) }
{
    for cell in cells {
        put(out, ",");
        put_cell(out, cell);
    }
}

/// Adds cells, joined by commas.
fn put_members(out: &mut Vec<u8>, cells: &[Cell])
    requires { HasRoom out.old (length (joined (map cell_text cells.now))) }
    ensures { Adds out.old out.new (joined (map cell_text cells.now)) }
{
    let Some((first, others)) = cells.split_first() else {
        return;
    };
    put_cell(out, first);
    put_more_cells(out, others);
}

/// Adds cells as a JSON object, whose members they are.
pub fn put_cells(out: &mut Vec<u8>, cells: &Cells)
    requires { HasRoom out.old (length (cells_text cells.now)) }
    ensures { Adds out.old out.new (cells_text cells.now) }
{
    put(out, "{");
    put_members(out, cells.as_slice());
    put(out, "}");
}

fn operation(op: Op) -> &'static str
    ensures { result.now ≡ operation op }
{
    match op {
        Op::Insert => "insert",
        Op::Update => "update",
        Op::Delete => "delete",
    }
}

/// Adds an entry.
pub fn put_entry(out: &mut Vec<u8>, entry: &Entry)
    requires { HasRoom out.old (length (entry_text entry.now)) }
    ensures { Adds out.old out.new (entry_text entry.now) }
{
    put(out, "{\"headers\":{\"operation\":\"");
    put(out, operation(entry.op));
    put(out, "\"},\"key\":");
    put_string(out, entry.key.as_str());
    put(out, ",\"offset\":");
    put_offset(out, entry.offset);
    put(out, ",\"value\":");
    put_cells(out, &entry.cells);
    put(out, "}");
}
