//! Finds where a field ends, and where the next line begins.
ghost use Rattle.std.specs.Prelude.{◌≡◌, ◌<◌, ◌≤◌, ◌+◌, false, length, drop, slice_index, IsUtf8};
ghost use Rattle.plain_records.specs.Offsets.{FieldSoFar, IsField};
ghost use Rattle.plain_records.specs.Plain.{after_line, ends_field as stops_field, ends_line as stops_line, first_record, plain_records};

/// Whether a byte ends a line: CR or LF.
#[inline]
fn ends_line(byte: u8) -> bool
    ensures { result ≡ stops_line byte }
{
    byte == b'\r' || byte == b'\n'
}

/// Whether a byte ends a field: a comma, CR or LF.
#[inline]
pub fn ends_field(byte: u8) -> bool
    ensures { result ≡ stops_field byte }
{
    byte == b',' || byte == b'\r' || byte == b'\n'
}

/// The end of the field that begins at `start` and has been read up to `offset`.
#[inline]
pub fn field_end(bytes: &[u8], start: usize, offset: usize) -> usize
    requires { FieldSoFar bytes.now start offset }
    ensures { IsField bytes.now start result }
{
    let mut at = offset;
    'bytes: while at < bytes.len() && !ends_field(bytes[at]) {
        at += 1;
    }
    at
}

/// The offset of the first byte from `offset` on that is neither CR nor LF, or the end of the bytes.
#[inline]
pub fn skip_line_ends(bytes: &[u8], offset: usize) -> usize
    requires { offset ≤ length bytes.now }
    ensures from { offset ≤ result }
    ensures within { result ≤ length bytes.now }
    ensures records { plain_records (drop offset bytes.now) ≡ plain_records (drop result bytes.now) }
    ensures at_text { result < length bytes.now → stops_line (slice_index bytes.now result) ≡ false }
    ensures text { IsUtf8 bytes.now → IsUtf8 (drop offset bytes.now) → IsUtf8 (drop result bytes.now) }
{
    let mut at = offset;
    'bytes: while at < bytes.len() && ends_line(bytes[at]) {
        at += 1;
    }
    at
}

/// A line: how many fields it has, and the offset after the byte that ends it.
#[derive(Clone, Copy)]
pub struct Line {
    pub fields: usize,
    pub next: usize,
}

/// The line that begins at this offset.
pub fn line_at(bytes: &[u8], offset: usize) -> Line
    requires { offset ≤ length bytes.now }
    ensures fields { result.fields ≡ length (first_record (drop offset bytes.now)) }
    ensures few { result.fields ≤ length bytes.now + 1 }
    ensures within { result.next ≤ length bytes.now }
    ensures rest { drop result.next bytes.now ≡ after_line (drop offset bytes.now) }
    ensures text { IsUtf8 bytes.now → IsUtf8 (drop result.next bytes.now) }
{
    let mut fields = 1;
    let mut at = offset;
    'bytes: while at < bytes.len() && !ends_line(bytes[at]) {
        if bytes[at] == b',' {
            fields += 1;
        }
        at += 1;
    }
    Line {
        fields,
        next: (at + 1).min(bytes.len()),
    }
}
