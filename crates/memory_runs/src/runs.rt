//! The test runs: the command line and the files of each, and what each has to write.
use base_io::NoMemory;
use std::alloc::Global;

/// A text as it is, or a CSV file with one column X, which has the same record `count` times.
#[derive(Clone, Copy)]
pub enum Text<'a> {
    Whole(&'a [u8]),
    Column { record: &'a [u8], count: u32 },
}

/// A run: its name, the words of its command line, its files, and what it has to write to `notes` and `out`.
#[derive(Clone, Copy)]
pub struct Run<'a> {
    pub name: &'a str,
    pub command_line: &'a [&'a str],
    pub files: &'a [(&'a str, Text<'a>)],
    pub notes: &'a [u8],
    pub out: Text<'a>,
}

const TWO_TABLES: Text<'static> = Text::Whole(
    b"CREATE TABLE R (X INTEGER NOT NULL); CREATE TABLE S (X INTEGER NOT NULL);",
);

const JOIN: Text<'static> = Text::Whole(b"SELECT R.X FROM R, S WHERE R.X = S.X");

const RUN_COMMAND_LINE: &[&str] = &["run", "schema.sql", "query.sql"];

const HUNDRED_ONES: Text<'static> = Text::Column {
    record: b"1\r\n",
    count: 100,
};

const HUNDRED_TWOS: Text<'static> = Text::Column {
    record: b"2\r\n",
    count: 100,
};

const PLAN_OF_HUNDREDS: &[u8] = b"scan R 100\nscan S 100\nlevel 1 R 100\nlevel 2 S 10000\n";

const TABLE_K: Text<'static> = Text::Whole(b"CREATE TABLE K (X INTEGER NOT NULL)");

const SELECT_TWO: Text<'static> = Text::Whole(b"SELECT X FROM K WHERE X = 2");

// The statistics file of a table whose only column has 1, 2 and 3. This column is also the filter column, with 32 leaves over three values.
const FILE_OF_THREE: Text<'static> = Text::Whole(
    b"safebound-stats 1 1\ntable x4b 3\npair x58 x58\nwhole 1*3\nfrequent 1 1*1\nfrequent 2 1*1\nfrequent 3 1*1\nrest -\ncut 1\ncut 1\ncut 1\ncut 1\ncut 1\ncut 1\ncut 1\ncut 1\ncut 1\ncut 1\ncut 1\ncut 2\ncut 2\ncut 2\ncut 2\ncut 2\ncut 2\ncut 2\ncut 2\ncut 2\ncut 2\ncut 2\ncut 3\ncut 3\ncut 3\ncut 3\ncut 3\ncut 3\ncut 3\ncut 3\ncut 3\ncut 3\nnode -\nnode -\nnode -\nnode -\nnode -\nnode -\nnode -\nnode -\nnode -\nnode -\nnode 1*1\nnode -\nnode -\nnode -\nnode -\nnode -\nnode -\nnode -\nnode -\nnode -\nnode -\nnode 1*1\nnode -\nnode -\nnode -\nnode -\nnode -\nnode -\nnode -\nnode -\nnode -\nnode 1*1\nnode -\nnode -\nnode -\nnode -\nnode -\nnode 1*1\nnode -\nnode -\nnode -\nnode -\nnode 1*1\nnode -\nnode -\nnode -\nnode -\nnode 1*1\nnode -\nnode -\nnode 1*1\nnode -\nnode -\nnode 1*1\nnode -\nnode 1*1\nnode -\nnode 1*1\nnode 1*1\nnode 1*1\nnode 1*1\nnode 1*2\nnode 1*3\nend\n",
);

// The same statistics file after a row with the value 99 is appended. 99 isn't among the frequent values.
const FILE_OF_FOUR: Text<'static> = Text::Whole(
    b"safebound-stats 1 1\ntable x4b 4\npair x58 x58\nwhole 2*1 1*2\nfrequent 1 1*1\nfrequent 2 1*1\nfrequent 3 1*1\nrest 1*1\ncut 1\ncut 1\ncut 1\ncut 1\ncut 1\ncut 1\ncut 1\ncut 1\ncut 1\ncut 1\ncut 1\ncut 2\ncut 2\ncut 2\ncut 2\ncut 2\ncut 2\ncut 2\ncut 2\ncut 2\ncut 2\ncut 2\ncut 3\ncut 3\ncut 3\ncut 3\ncut 3\ncut 3\ncut 3\ncut 3\ncut 3\ncut 3\nnode -\nnode -\nnode -\nnode -\nnode -\nnode -\nnode -\nnode -\nnode -\nnode -\nnode 1*1\nnode -\nnode -\nnode -\nnode -\nnode -\nnode -\nnode -\nnode -\nnode -\nnode -\nnode 1*1\nnode -\nnode -\nnode -\nnode -\nnode -\nnode -\nnode -\nnode -\nnode -\nnode 2*1\nnode -\nnode -\nnode -\nnode -\nnode -\nnode 1*1\nnode -\nnode -\nnode -\nnode -\nnode 1*1\nnode -\nnode -\nnode -\nnode -\nnode 2*1\nnode -\nnode -\nnode 1*1\nnode -\nnode -\nnode 1*1\nnode -\nnode 2*1\nnode -\nnode 1*1\nnode 1*1\nnode 2*1\nnode 1*1\nnode 2*1 1*1\nnode 2*1 1*2\nend\n",
);

// Two tables of 6 and 5 rows, and the 6 rows of their join.
const SIX_ROWS: Text<'static> = Text::Whole(b"X\r\n1\r\n1\r\n1\r\n2\r\n2\r\n3\r\n");

const FIVE_ROWS: Text<'static> = Text::Whole(b"X\r\n1\r\n1\r\n4\r\n5\r\n6\r\n");

const SIX_ONES: Text<'static> = Text::Column {
    record: b"1\r\n",
    count: 6,
};

/// A join of two tables, in four ways: plain, over reduced scans, as a tree, and as a tree over reduced scans. Then a condition that is carried
/// through a key, a table of texts, and a triangle. Then two pairs of tables with the same bounds and different answers: in `meeting` every key
/// matches, in `apart` none does. The last three runs make the statistics file of a table, a plan from this file, and the statistics file after a row
/// is appended.
pub const RUNS: [Run<'static>; 12] = [
    Run {
        name: "join",
        command_line: RUN_COMMAND_LINE,
        files: &[
            ("schema.sql", TWO_TABLES),
            ("query.sql", JOIN),
            ("r.csv", SIX_ROWS),
            ("s.csv", FIVE_ROWS),
        ],
        notes: b"scan R 6\nscan S 5\nlevel 1 S 5\nlevel 2 R 12\n",
        out: SIX_ONES,
    },
    Run {
        name: "reduced",
        command_line: &["run", "schema.sql", "query.sql", "--reduce"],
        files: &[
            ("schema.sql", TWO_TABLES),
            ("query.sql", JOIN),
            ("r.csv", SIX_ROWS),
            ("s.csv", FIVE_ROWS),
        ],
        notes: b"scan R 3\nscan S 2\nlevel 1 S 2\nlevel 2 R 6\n",
        out: SIX_ONES,
    },
    Run {
        name: "tree",
        command_line: &["run", "schema.sql", "query.sql", "--bushy"],
        files: &[
            ("schema.sql", TWO_TABLES),
            ("query.sql", JOIN),
            ("r.csv", SIX_ROWS),
            ("s.csv", FIVE_ROWS),
        ],
        notes: b"scan R 6\nscan S 5\nnode 2 0 1 12\n",
        out: SIX_ONES,
    },
    Run {
        name: "reduced-tree",
        command_line: &["run", "schema.sql", "query.sql", "--reduce", "--bushy"],
        files: &[
            ("schema.sql", TWO_TABLES),
            ("query.sql", JOIN),
            ("r.csv", SIX_ROWS),
            ("s.csv", FIVE_ROWS),
        ],
        notes: b"scan R 3\nscan S 2\nnode 2 0 1 6\n",
        out: SIX_ONES,
    },
    Run {
        name: "keys",
        command_line: &["run", "schema.sql", "query.sql", "--keys"],
        files: &[
            (
                "schema.sql",
                Text::Whole(
                    b"CREATE TABLE C (ID INTEGER PRIMARY KEY, REG INTEGER NOT NULL); CREATE TABLE O (N INTEGER NOT NULL, CID INTEGER NOT NULL REFERENCES C (ID));",
                ),
            ),
            (
                "query.sql",
                Text::Whole(b"SELECT O.N FROM O, C WHERE O.CID = C.ID AND C.REG = 3"),
            ),
            (
                "c.csv",
                Text::Whole(b"ID,REG\r\n1,3\r\n2,4\r\n3,4\r\n4,4\r\n"),
            ),
            (
                "o.csv",
                Text::Whole(b"N,CID\r\n1,1\r\n2,2\r\n3,2\r\n4,2\r\n5,2\r\n"),
            ),
        ],
        notes: b"scan O 5\nscan C 1\nlevel 1 C 1\nlevel 2 O 1\n",
        out: Text::Whole(b"N\r\n1\r\n"),
    },
    Run {
        name: "texts",
        command_line: RUN_COMMAND_LINE,
        files: &[
            (
                "schema.sql",
                Text::Whole(b"CREATE TABLE N (V VARCHAR(20) NOT NULL)"),
            ),
            ("query.sql", Text::Whole(b"SELECT V FROM N")),
            (
                "n.csv",
                Text::Whole(b"V\r\n\"a,\"\"b\"\"\r\nc\"\r\n\"\"\r\n"),
            ),
        ],
        notes: b"scan N 2\nlevel 1 N 2\n",
        out: Text::Whole(b"V\r\n\"a,\"\"b\"\"\r\nc\"\r\n\"\"\r\n"),
    },
    Run {
        name: "triangle",
        command_line: RUN_COMMAND_LINE,
        files: &[
            (
                "schema.sql",
                Text::Whole(
                    b"CREATE TABLE R (A INTEGER NOT NULL, C INTEGER NOT NULL); CREATE TABLE S (A INTEGER NOT NULL, B INTEGER NOT NULL); CREATE TABLE T (B INTEGER NOT NULL, C INTEGER NOT NULL);",
                ),
            ),
            (
                "query.sql",
                Text::Whole(
                    b"SELECT R.A, S.B, T.C FROM R, S, T WHERE R.A = S.A AND S.B = T.B AND T.C = R.C",
                ),
            ),
            ("r.csv", Text::Whole(b"A,C\r\n1,1\r\n1,2\r\n2,1\r\n")),
            ("s.csv", Text::Whole(b"A,B\r\n1,1\r\n1,2\r\n2,1\r\n")),
            ("t.csv", Text::Whole(b"B,C\r\n1,1\r\n2,1\r\n1,2\r\n")),
        ],
        notes: b"scan R 3\nscan S 3\nscan T 3\nlevel 1 R 3\nlevel 2 S 5\nlevel 3 T 9\n",
        out: Text::Whole(b"A,B,C\r\n1,1,1\r\n1,2,1\r\n1,1,2\r\n2,1,1\r\n"),
    },
    Run {
        name: "meeting",
        command_line: RUN_COMMAND_LINE,
        files: &[
            ("schema.sql", TWO_TABLES),
            ("query.sql", JOIN),
            ("r.csv", HUNDRED_ONES),
            ("s.csv", HUNDRED_ONES),
        ],
        notes: PLAN_OF_HUNDREDS,
        out: Text::Column {
            record: b"1\r\n",
            count: 10_000,
        },
    },
    Run {
        name: "apart",
        command_line: RUN_COMMAND_LINE,
        files: &[
            ("schema.sql", TWO_TABLES),
            ("query.sql", JOIN),
            ("r.csv", HUNDRED_ONES),
            ("s.csv", HUNDRED_TWOS),
        ],
        notes: PLAN_OF_HUNDREDS,
        out: Text::Column {
            record: b"1\r\n",
            count: 0,
        },
    },
    Run {
        name: "stats",
        command_line: &["stats", "schema.sql", "query.sql"],
        files: &[
            ("schema.sql", TABLE_K),
            ("query.sql", SELECT_TWO),
            ("k.csv", Text::Whole(b"X\r\n1\r\n2\r\n3\r\n")),
        ],
        notes: b"",
        out: FILE_OF_THREE,
    },
    Run {
        name: "filed",
        command_line: &["plan", "schema.sql", "query.sql", "--stats", "k.stats"],
        files: &[
            ("schema.sql", TABLE_K),
            ("query.sql", SELECT_TWO),
            ("k.stats", FILE_OF_THREE),
        ],
        notes: b"scan K 1\nlevel 1 K 1\n",
        out: Text::Whole(b""),
    },
    Run {
        name: "append",
        command_line: &["append", "schema.sql", "k.stats", "K", "new.csv"],
        files: &[
            ("schema.sql", TABLE_K),
            ("k.stats", FILE_OF_THREE),
            ("new.csv", Text::Whole(b"X\r\n99\r\n")),
        ],
        notes: b"",
        out: FILE_OF_FOUR,
    },
];

const HEADER: &[u8] = b"X\r\n";

/// The bytes of a text.
pub fn text_of(alloc: Global, text: Text) -> Result<Vec<u8>, NoMemory> {
    match text {
        Text::Whole(whole) => Ok(Vec::from_slice(alloc, whole)?),
        Text::Column { record, count } => {
            let mut bytes = Vec::from_slice(alloc, HEADER)?;
            for _ in 0..count {
                bytes.extend_from_slice(record)?;
            }
            Ok(bytes)
        }
    }
}

fn is_column(bytes: &[u8], record: &[u8], count: u32) -> bool {
    let Some(mut rest) = bytes.strip_prefix(HEADER) else {
        return false;
    };
    for _ in 0..count {
        match rest.strip_prefix(record) {
            Some(after) => rest = after,
            None => return false,
        }
    }
    rest.is_empty()
}

/// Whether these are the bytes of a text. It takes no memory.
pub fn equals_text(bytes: &[u8], text: Text) -> bool {
    match text {
        Text::Whole(whole) => bytes == whole,
        Text::Column { record, count } => is_column(bytes, record, count),
    }
}
