//! Reads the fields of a record one after another, from bytes without a quotation mark.
ghost use Rattle.std.specs.Prelude.{◌≡◌, ◌+◌, ◌-◌, ◌<◌, ◌≤◌, ◌≢◌, ◌^◌, [], drop, false, length, neg_ℤ, option_map, pos, slice_index, true, IfSome, IsUtf8, MatchOption};
ghost use Rattle.std.specs.Char.{is_ascii_digit};
ghost use Rattle.plain_records.specs.Offsets.{FieldSoFar, IsField};
ghost use Rattle.plain_records.specs.Plain.{first_field, first_record, is_comma as stops_comma};
ghost use Rattle.csv_tables.specs.Fields.{DigitsSoFar, IsFieldAt, SpellsNumberBelow10To18, ReadsRecord};

use plain_records::{ends_field, field_end};

/// A field: the byte offsets of its start and its end, and the number that it spells, if this number is already known.
#[derive(Clone, Copy)]
pub(crate) struct Field {
    pub start: usize,
    pub end: usize,
    pub number: Option<i64>,
}

impl Field {
    pub const NONE: Field = Field {
        start: 0,
        end: 0,
        number: None,
    };
}

// Digits that were read: the number that they spell, and the byte offset after the digits.
#[derive(Clone, Copy)]
struct Digits {
    size: u64,
    end: usize,
}

// At most eighteen digits spell a number below 10^18, so no step has to test for overflow.
const SHORT: usize = 18;

// The value of a digit. It is above nine for a byte that isn't a digit, so one comparison tells digits from other bytes.
#[inline]
fn digit_of(byte: u8) -> u64
    ensures digit { result ≤ 9 → is_ascii_digit byte ≡ true }
    ensures value { result ≤ 9 → result ≡ byte - 48 }
{
    (byte as u64).wrapping_sub(b'0' as u64)
}

// Reads at most eighteen digits of a field, from the offset `first` on.
#[inline]
fn read_digits(bytes: &[u8], first: usize) -> Digits
    requires { first ≤ length bytes.now }
    ensures digits { DigitsSoFar bytes.now first result.end result.size }
    ensures few { result.end ≤ first + 18 }
{
    let limit = bytes.len().min(first + SHORT);
    let mut size: u64 = 0;
    let mut end = first;
    'digits: while end < limit {
        let digit = digit_of(bytes[end]);
        if digit > 9 {
            break;
        }
        size = size * 10 + digit;
        end += 1;
    }
    Digits { size, end }
}

// Whether a field that was read up to this offset ends there.
#[inline]
fn is_at_end(bytes: &[u8], offset: usize) -> bool
    ensures { result ≡ true → first_field (drop offset bytes.now) ≡ [] }
{
    offset >= bytes.len() || ends_field(bytes[offset])
}

// The end of a field, and the number that its digits spell, if that number is known.
#[derive(Clone, Copy)]
struct UnsignedField {
    size: Option<u64>,
    end: usize,
}

// Reads the rest of the field that begins at `start`, from the offset `first` on. The number is known if this rest is one to eighteen digits.
#[inline]
fn read_unsigned(bytes: &[u8], start: usize, first: usize) -> UnsignedField
    requires { FieldSoFar bytes.now start first }
    ensures field { IsField bytes.now start result.end }
    ensures size { IfSome result.size (SpellsNumberBelow10To18 (first_field (drop first bytes.now))) }
{
    let digits = read_digits(bytes, first);
    if digits.end == first {
        return UnsignedField {
            size: None,
            end: field_end(bytes, start, first),
        };
    }
    if !is_at_end(bytes, digits.end) {
        return UnsignedField {
            size: None,
            end: field_end(bytes, start, digits.end),
        };
    }
    UnsignedField {
        size: Some(digits.size),
        end: digits.end,
    }
}

#[inline]
fn from_zero(size: Option<u64>) -> Option<i64>
    requires { IfSome size (λ size. size < 10 ^ 18) }
    ensures { result ≡ option_map pos size }
{
    match size {
        Some(size) => Some(size as i64),
        None => None,
    }
}

#[inline]
fn below_zero(size: Option<u64>) -> Option<i64>
    requires { IfSome size (λ size. size < 10 ^ 18) }
    ensures { result ≡ option_map (λ size. neg_ℤ (pos size)) size }
{
    match size {
        Some(size) => Some(-(size as i64)),
        None => None,
    }
}

// Whether the byte at this offset is a minus sign.
#[inline]
fn is_minus(bytes: &[u8], offset: usize) -> bool
    ensures { result ≡ true → (offset < length bytes.now) × (slice_index bytes.now offset ≡ 45) }
{
    offset < bytes.len() && bytes[offset] == b'-'
}

/// Reads the field that begins at `start`. Its number is known if the field is one to eighteen digits, with or without a minus sign in front.
#[inline(always)]
pub(crate) fn read_number(bytes: &[u8], start: usize) -> Field
    requires { start ≤ length bytes.now }
    ensures { IsFieldAt bytes.now start result }
{
    if is_minus(bytes, start) {
        let sized = read_unsigned(bytes, start, start + 1);
        Field {
            start,
            end: sized.end,
            number: below_zero(sized.size),
        }
    } else {
        let sized = read_unsigned(bytes, start, start);
        Field {
            start,
            end: sized.end,
            number: from_zero(sized.size),
        }
    }
}

// Reads the field that begins at `start`. Its number is read only if a number is expected (`is_number`).
#[inline]
fn read_field(bytes: &[u8], start: usize, is_number: bool) -> Field
    requires { start ≤ length bytes.now }
    ensures { IsFieldAt bytes.now start result }
{
    if is_number {
        read_number(bytes, start)
    } else {
        Field {
            start,
            end: field_end(bytes, start, start),
            number: None,
        }
    }
}

/// Whether the byte at this offset is a comma.
#[inline]
pub(crate) fn is_comma(bytes: &[u8], offset: usize) -> bool
    ensures yes { result ≡ true → (offset < length bytes.now) × (slice_index bytes.now offset ≡ 44) }
    ensures no { result ≡ false → offset < length bytes.now → stops_comma (slice_index bytes.now offset) ≡ false }
{
    offset < bytes.len() && bytes[offset] == b','
}

/// Reads the fields of the record that begins at `start`, and returns the offset after the record. The result is `None` if the record has fewer or
/// more fields than the header.
pub(crate) fn read_fields(
    bytes: &[u8],
    start: usize,
    numbers: &[bool],
    fields: &mut [Field],
) -> Option<usize>
    requires within { start ≤ length bytes.now }
    requires lengths { length fields.old ≡ length numbers.now }
    requires text { IsUtf8 bytes.now }
    requires cut { IsUtf8 (drop start bytes.now) }
    ensures { MatchOption result (length (first_record (drop start bytes.now)) ≢ length fields.old)
        (ReadsRecord bytes.now start fields.new) }
{
    let mut at = start;
    'places: for (place, is_number) in numbers.iter().enumerate() {
        let field = read_field(bytes, at, *is_number);
        fields[place] = field;
        if !is_comma(bytes, field.end) {
            return if place + 1 == numbers.len() {
                Some((field.end + 1).min(bytes.len()))
            } else {
                None
            };
        }
        at = field.end + 1;
    }
    None
}
