//! Errors in conditions (`offences`) that are refused only after all names were checked.
ghost use Rattle.std.specs.Prelude.{◌≡◌};
ghost use Rattle.query_names.specs.Names.{offset_if};
ghost use Rattle.query_names.specs.Offences.{long_list_length};
ghost use Rattle.query_names.specs.Answers.{or_first};

use limits::MOST_VALUES;
use ll_grammars::Lexeme;
use query_grammar::TestNode;

/// The first errors so far that are refused only after all names were checked. `kind` is the offset of the first operand of the wrong kind. `list` is
/// the length of the first IN list that is too long.
#[derive(Clone, Copy, Debug)]
pub struct LateOffences {
    pub kind: Option<u32>,
    pub list: Option<usize>,
}

impl LateOffences {
    /// If `wrong` is true and no offset was kept before, keeps the offset of `token`, which has the wrong kind.
    pub(crate) fn note_kind(&mut self, wrong: bool, token: Lexeme)
        ensures kind { self.new.kind ≡ or_first self.old.kind (offset_if wrong token) }
        ensures list { self.new.list ≡ self.old.list }
    {
        if wrong && self.kind.is_none() {
            self.kind = Some(token.start);
        }
    }

    /// If the test's IN list is too long and no length was kept before, keeps the list's length.
    pub(crate) fn note_list(&mut self, test: &TestNode)
        ensures list { self.new.list ≡ or_first self.old.list (long_list_length test.now) }
        ensures kind { self.new.kind ≡ self.old.kind }
    {
        if let TestNode::In { values, .. } = test {
            let count = values.len();
            if count > MOST_VALUES && self.list.is_none() {
                self.list = Some(count);
            }
        }
    }
}
