// Reading what stands before a step, its axis and its node test. A reader takes a text of any length, so functions here ask that
// this one is short. Where a token is missing a `match` answers: an `ok_or_else` would borrow the reader once more and say no more.
ghost use Rattle.std.specs.Prelude.{◌≡◌, ◌<◌, length};
ghost use Rattle.lexer.specs.Readers.{end_of, Spans};
ghost use Rattle.query.specs.Shown.{axis_of};
ghost use Rattle.query.specs.Shown.{where_of};
ghost use Rattle.reader.specs.Parsing.{slash_of};
ghost use Rattle.reader.specs.Heads.{Leads, far_of, AxisOf, NameTest, NamedTells, TestTells, usual, WordTells, HeadTells};

use super::parts::{Head, Lead, Parser};
use super::rows::begin;
use grammar::tokens::Symbol;
use lexer::Reader;
use lexer::tokens::Word;
use query::fault::Fault;
use query::table::{Axis, NodeTest, Region};

// What leads to the next step; the reader goes past it.
pub(crate) fn lead(reader: &mut Reader<'_>) -> Lead
    ensures { Leads result reader.old reader.new }
{
    if reader.accept(Symbol::DoubleSlash).is_some() {
        Lead::DoubleSlash
    } else if reader.accept(Symbol::Slash).is_some() {
        Lead::Slash
    } else {
        Lead::Nothing
    }
}

impl Lead {
    // Whether it is a slash, or two.
    pub(crate) fn is_slash(self) -> bool
        ensures { result ≡ slash_of self }
    {
        self != Lead::Nothing
    }

    // Whether a step after it has the descendant axis.
    pub(crate) fn is_far(self) -> bool
        ensures { result ≡ far_of self }
    {
        self == Lead::DoubleSlash
    }

    // The axis of a step after it that names none.
    fn usual_axis(self) -> Axis
        ensures { axis_of result ≡ usual (far_of self) }
    {
        match self {
            Lead::Nothing | Lead::Slash => Axis::Child,
            Lead::DoubleSlash => Axis::Descendant,
        }
    }
}

// The axis that a word names. Each name is one `==`: a `match` on byte strings tests byte by byte, and its fifteen ways
// out had no proof.
fn axis_of(word: &[u8]) -> Option<Axis>
    ensures { AxisOf word.now result }
{
    if word == b"self".as_slice() {
        Some(Axis::SelfNode)
    } else if word == b"child".as_slice() {
        Some(Axis::Child)
    } else if word == b"descendant".as_slice() {
        Some(Axis::Descendant)
    } else if word == b"following-sibling".as_slice() {
        Some(Axis::FollowingSibling)
    } else {
        None
    }
}

// A name as a node test.
fn name_test(word: Word<'_>) -> NodeTest
    ensures { NameTest word.entry.at (length word.entry.bytes.now) result }
{
    NodeTest::Name {
        at: word.at.min(512) as u16,
        len: word.bytes.len().min(32) as u8,
    }
}

// The node test that begins with a word, which was read. A reader takes a text of any length, so that this one is short
// is asked here.
fn named(reader: &mut Reader<'_>, word: Word<'_>) -> Result<NodeTest, Fault>
    requires short { end_of reader.old < 513 }
    requires spans { Spans reader.old.text.now word.at word.bytes.now }
    ensures { NamedTells word.entry.bytes.now result reader.old reader.new }
{
    let Some(at) = reader.accept(Symbol::LeftParen) else {
        return Ok(name_test(word));
    };
    let test = if word.bytes == b"text".as_slice() {
        NodeTest::Text
    } else if word.bytes == b"node".as_slice() {
        NodeTest::Node
    } else {
        return Err(Fault::Syntax(at));
    };
    match reader.accept(Symbol::RightParen) {
        Some(_) => Ok(test),
        None => Err(reader.unexpected()),
    }
}

// A node test, which is due.
fn node_test(reader: &mut Reader<'_>) -> Result<NodeTest, Fault>
    requires short { end_of reader.old < 513 }
    ensures { TestTells result reader.old reader.new }
{
    if reader.accept(Symbol::Star).is_some() {
        return Ok(NodeTest::Element);
    }
    match reader.word() {
        Some(word) => named(reader, word),
        None => Err(reader.unexpected()),
    }
}

// A step without its bracket that begins with a word, which was read.
fn word_head(reader: &mut Reader<'_>, word: Word<'_>, lead: Lead) -> Result<Head, Fault>
    requires short { end_of reader.old < 513 }
    requires spans { Spans reader.old.text.now word.at word.bytes.now }
    ensures { WordTells (far_of lead) word.entry.bytes.now result reader.old reader.new }
{
    if !lead.is_far()
        && let Some(at) = reader.accept(Symbol::DoubleColon)
    {
        let Some(axis) = axis_of(word.bytes) else {
            return Err(Fault::Syntax(at));
        };
        let test = node_test(reader)?;
        return Ok(Head { axis, test });
    }
    let test = named(reader, word)?;
    Ok(Head {
        axis: lead.usual_axis(),
        test,
    })
}

impl Parser<'_> {
    // A step without its bracket, which is due.
    pub(crate) fn head(&mut self, region: Region, lead: Lead) -> Result<Head, Fault>
        requires short { end_of self.old.reader < 513 }
        ensures { HeadTells (where_of region) (far_of lead) result self.old self.new }
    {
        if let Some(at) = self.reader.accept(Symbol::Star) {
            begin(&mut self.table, region, at)?;
            return Ok(Head {
                axis: lead.usual_axis(),
                test: NodeTest::Element,
            });
        }
        let Some(word) = self.reader.word() else {
            return Err(self.reader.unexpected());
        };
        begin(&mut self.table, region, word.at)?;
        word_head(&mut self.reader, word, lead)
    }
}
