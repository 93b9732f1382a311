//! Statuses, as include/safebound.h numbers them.
ghost use Rattle.std.specs.Prelude.{◌≡◌};
ghost use Rattle.safebound_c.specs.Status.{detail_of, detail_of_refusal, status_of, status_of_refusal};

use safebound_lists::Refusal;

const OK: u32 = 0;

const ROOM: u32 = 1;

const NO_MEMORY: u32 = 2;

const BUDGET: u32 = 3;

const PAST_BITS: u32 = 4;

const WORK: u32 = 5;

const BAD_KEYS: u32 = 16;

const BAD_ACCURACY: u32 = 17;

const BAD_RUN: u32 = 18;

const BAD_OTHER_RUN: u32 = 19;

const BAD_SUM: u32 = 20;

const BAD_ENTRIES: u32 = 21;

const BAD_ROWS: u32 = 22;

const BAD_EQUALITIES: u32 = 23;

const BAD_EQUALITY: u32 = 24;

const BAD_LIST: u32 = 25;

const MISSING_LIST: u32 = 26;

const BAD_BOUNDS: u32 = 27;

const BAD_BUDGET: u32 = 28;

const BAD_LEVELS: u32 = 29;

const BAD_LEVEL: u32 = 30;

const BAD_JOINS: u32 = 31;

const BAD_JOIN: u32 = 32;

const BAD_SET: u32 = 33;

const BAD_JOIN_KIND: u32 = 34;

fn status(refusal: Refusal) -> u32
    ensures { result ≡ status_of_refusal refusal }
{
    match refusal {
        Refusal::Room { needed: _ } => ROOM,
        Refusal::NoMemory => NO_MEMORY,
        Refusal::Budget { least: _ } => BUDGET,
        Refusal::PastBits => PAST_BITS,
        Refusal::Work { needed: _ } => WORK,
        Refusal::Keys { count: _ } => BAD_KEYS,
        Refusal::Accuracy { given: _ } => BAD_ACCURACY,
        Refusal::Run { place: _ } => BAD_RUN,
        Refusal::OtherRun { place: _ } => BAD_OTHER_RUN,
        Refusal::Sum { sum: _ } => BAD_SUM,
        Refusal::Entries { count: _ } => BAD_ENTRIES,
        Refusal::Rows { place: _ } => BAD_ROWS,
        Refusal::Equalities { count: _ } => BAD_EQUALITIES,
        Refusal::Equality { place: _ } => BAD_EQUALITY,
        Refusal::List { place: _ } => BAD_LIST,
        Refusal::MissingList { place: _ } => MISSING_LIST,
        Refusal::Bounds { count: _ } => BAD_BOUNDS,
        Refusal::GivenBudget { given: _ } => BAD_BUDGET,
        Refusal::Levels { count: _ } => BAD_LEVELS,
        Refusal::Level { place: _ } => BAD_LEVEL,
        Refusal::Joins { count: _ } => BAD_JOINS,
        Refusal::Join { place: _ } => BAD_JOIN,
        Refusal::Set { given: _ } => BAD_SET,
        Refusal::JoinKind { given: _ } => BAD_JOIN_KIND,
    }
}

// The number that goes with a refusal, or the old number if the refusal has no number.
fn detail_with(refusal: Refusal, old: u64) -> u64
    ensures { result ≡ detail_of_refusal refusal old }
{
    match refusal {
        Refusal::NoMemory | Refusal::PastBits => old,
        Refusal::Room { needed } => needed,
        Refusal::Budget { least } => least,
        Refusal::Work { needed } => needed,
        Refusal::Keys { count } => count,
        Refusal::Accuracy { given } => given,
        Refusal::Run { place } => place,
        Refusal::OtherRun { place } => place,
        Refusal::Sum { sum } => sum,
        Refusal::Entries { count } => count,
        Refusal::Rows { place } => place,
        Refusal::Equalities { count } => count,
        Refusal::Equality { place } => place,
        Refusal::List { place } => place,
        Refusal::MissingList { place } => place,
        Refusal::Bounds { count } => count,
        Refusal::GivenBudget { given } => given,
        Refusal::Levels { count } => count,
        Refusal::Level { place } => place,
        Refusal::Joins { count } => count,
        Refusal::Join { place } => place,
        Refusal::Set { given } => given,
        Refusal::JoinKind { given } => given,
    }
}

/// The status of an answer (a number or a refusal). If the answer has a number, or its refusal has one, this number is written to `detail`.
pub(crate) fn answer_status(answer: Result<u64, Refusal>, detail: &mut u64) -> u32
    ensures status { result ≡ status_of answer }
    ensures detail { detail.new ≡ detail_of answer detail.old }
{
    match answer {
        Ok(count) => {
            *detail = count;
            OK
        }
        Err(refusal) => {
            *detail = detail_with(refusal, *detail);
            status(refusal)
        }
    }
}
