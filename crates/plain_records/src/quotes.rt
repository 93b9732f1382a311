//! Tests whether bytes have a quotation mark, and counts their line feeds in the same pass.
ghost use Rattle.std.specs.Prelude.{◌≡◌, false, IfSome};
ghost use Rattle.plain_records.specs.Plain.{has_quote};

// The length of a block in bytes. A block is short enough that a byte can count its line feeds. The loop's variables are single bytes, so that the
// compiler can test sixteen bytes at a time.
const BLOCK: usize = 128;

// Whether a block has a quotation mark, and how many line feeds it has.
#[derive(Clone, Copy)]
struct BlockScan {
    quote: bool,
    line_feeds: u8,
}

// Looks at each byte of a block. The loop never ends early.
#[inline]
fn scan_block(block: &[u8]) -> BlockScan
    ensures { result.quote ≡ has_quote block.now }
{
    let mut quote = false;
    let mut line_feeds: u8 = 0;
    'bytes: for byte in block {
        quote |= *byte == b'"';
        line_feeds = line_feeds.wrapping_add((*byte == b'\n') as u8);
    }
    BlockScan { quote, line_feeds }
}

/// The number of line feeds, or `None` if some byte is a quotation mark. The number only says how much memory to ask for, so the contract doesn't
/// mention it.
pub fn scan(bytes: &[u8]) -> Option<usize>
    ensures { IfSome result (λ _. has_quote bytes.now ≡ false) }
{
    let mut line_feeds: usize = 0;
    for block in bytes.chunks(BLOCK) {
        let seen = scan_block(block);
        if seen.quote {
            return None;
        }
        line_feeds = line_feeds.wrapping_add(seen.line_feeds as usize);
    }
    Some(line_feeds)
}
