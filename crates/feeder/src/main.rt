// Turns an indented outline from standard input into a feed on standard output: a line for each node below the root, two
// spaces a level, a name for an element or # for a text.
#![tactic(auto)]

ghost use Rattle.std.specs.Prelude.{◌≤◌, length};

use feedfile::opcode::{NAME, OPEN, SEAL, SHUT, TEXT};
use names::slot::{Slot, is_name, slot_of};
use names::store::{MOST_NAMES, NO_LABEL, label_of};
use std::alloc::{AllocError, AllocFailed, Global};
use std::error::Error;
use std::fmt;
use std::io::{Read, Write};

// As many as a growing feed takes.
const MOST_NODES: usize = 8192;

// What has been written of the feed.
#[derive(Drop)]
struct Outline {
    feed: Vec<u8>,
    slots: Vec<Slot>,
    // the elements that are open
    depth: usize,
    nodes: usize,
    // the lines that were taken
    lines: usize,
}

// Why an outline makes no feed.
#[derive(Clone, Copy, Debug)]
enum Fault {
    Refused { line: usize, reason: Reason },
    Memory(AllocError),
}

// Why a line is refused.
#[derive(Clone, Copy, Debug)]
enum Reason {
    OddSpaces,
    TooDeep,
    NoName,
    ManyNames,
    ManyNodes,
}

impl fmt::Display for Fault {
    fn fmt<W: fmt::Write>(&self, f: &mut fmt::Formatter<W>) -> fmt::Result {
        match self {
            Fault::Refused { line, reason } => write!(f, "line {line}: {reason}"),
            Fault::Memory(fault) => write!(f, "{fault}"),
        }
    }
}

impl fmt::Display for Reason {
    fn fmt<W: fmt::Write>(&self, f: &mut fmt::Formatter<W>) -> fmt::Result {
        f.write_str(match self {
            Reason::OddSpaces => "an odd number of spaces",
            Reason::TooDeep => "more than one level deeper than the line before, or below a text",
            Reason::NoName => "neither # nor a name of 1 to 32 bytes",
            Reason::ManyNames => "more than 512 names",
            Reason::ManyNodes => "more than 8192 nodes with the root",
        })
    }
}

impl Error for Fault {}

impl From<AllocError> for Fault {
    fn from(fault: AllocError) -> Fault {
        Fault::Memory(fault)
    }
}

impl<T: Drop> From<AllocFailed<T>> for Fault {
    fn from(_fault: AllocFailed<T>) -> Fault {
        Fault::Memory(AllocError)
    }
}

fn main(rt: HostRuntime) -> anyhow::Result<()> {
    run(&rt)
}

fn run(rt: &HostRuntime) -> anyhow::Result<()> {
    let heap = rt.alloc();
    let mut input: Vec<u8> = Vec::new(heap);
    rt.stdin().read_to_end(&mut input)?;
    let feed = feed_of(heap, input.as_slice())?;
    rt.stdout().write_all(feed.as_slice())?;
    Ok(())
}

// The feed of an outline, or the first line that is refused.
fn feed_of(heap: Global, input: &[u8]) -> Result<Vec<u8>, Fault> {
    let mut outline = Outline {
        feed: Vec::new(heap),
        slots: Vec::new(heap),
        depth: 0,
        nodes: 1,
        lines: 0,
    };
    for line in input.split_inclusive(|b| *b == b'\n') {
        outline.take_line(line.strip_suffix(b"\n".as_slice()).unwrap_or(line))?;
    }
    outline.sealed()
}

// The spaces that a line begins with.
fn spaces(line: &[u8]) -> usize
    ensures { result ≤ length line.now }
{
    line.iter().position(|b| *b != b' ').unwrap_or(line.len())
}

impl Outline {
    // One line more.
    fn take_line(&mut self, line: &[u8]) -> Result<(), Fault> {
        self.lines = self.lines.saturating_add(1);
        let indent = spaces(line);
        if indent % 2 != 0 {
            return self.refused(Reason::OddSpaces);
        }
        if indent / 2 > self.depth {
            return self.refused(Reason::TooDeep);
        }
        if self.nodes >= MOST_NODES {
            return self.refused(Reason::ManyNodes);
        }
        self.close_to(indent / 2)?;
        self.nodes = self.nodes.saturating_add(1);
        self.node(&line[indent..])
    }

    // The line that was taken last is refused.
    fn refused<T>(&self, reason: Reason) -> Result<T, Fault> {
        Err(Fault::Refused {
            line: self.lines,
            reason,
        })
    }

    // Closes elements until so many are open.
    fn close_to(&mut self, depth: usize) -> Result<(), Fault> {
        for _ in depth..self.depth {
            self.feed.push(SHUT)?;
        }
        self.depth = depth;
        Ok(())
    }

    // A text, or an element by its name.
    fn node(&mut self, word: &[u8]) -> Result<(), Fault> {
        if word == b"#".as_slice() {
            self.feed.push(TEXT)?;
            return Ok(());
        }
        let label = self.label(word)?;
        self.feed.push(OPEN)?;
        self.feed.extend_from_slice(&label.to_be_bytes())?;
        self.depth = self.depth.saturating_add(1);
        Ok(())
    }

    // The label of a name, which is added to the feed where it is new.
    fn label(&mut self, word: &[u8]) -> Result<u16, Fault> {
        let Some(slot) = slot_of(word).filter(is_name) else {
            return self.refused(Reason::NoName);
        };
        let label = label_of(self.slots.as_slice(), word);
        if label != NO_LABEL {
            return Ok(label);
        }
        if self.slots.len() >= MOST_NAMES {
            return self.refused(Reason::ManyNames);
        }
        self.feed.push(NAME)?;
        self.feed.extend_from_slice(&slot)?;
        self.slots.push(slot)?;
        Ok(label_of(self.slots.as_slice(), word))
    }

    // The feed, with all closed and the end marked.
    fn sealed(mut self) -> Result<Vec<u8>, Fault> {
        self.close_to(0)?;
        self.feed.push(SEAL)?;
        Ok(self.feed)
    }
}

#[cfg(test)]
mod tests {
    use super::{Fault, feed_of};
    use std::alloc::{AllocError, Global};
    use std::test::Fail;

    // Outlines, with the line that is refused and the reason.
    const REFUSED: [(&[u8], usize, &str); 8] = [
        (b"a\n b", 2, "an odd number of spaces"),
        (
            b"  a",
            1,
            "more than one level deeper than the line before, or below a text",
        ),
        (
            b"a\n    b",
            2,
            "more than one level deeper than the line before, or below a text",
        ),
        (
            b"a\n  #\n    b",
            3,
            "more than one level deeper than the line before, or below a text",
        ),
        (b"a\n\nb", 2, "neither # nor a name of 1 to 32 bytes"),
        (b"a b", 1, "neither # nor a name of 1 to 32 bytes"),
        (b"-a", 1, "neither # nor a name of 1 to 32 bytes"),
        (
            b"aaaaaaaaaaaaaaaaaaaaaaaaaaaaaaaaa",
            1,
            "neither # nor a name of 1 to 32 bytes",
        ),
    ];

    // Whether an outline is refused so.
    fn refuses(heap: Global, outline: &[u8], at: usize, why: &str) -> Result<bool, AllocError> {
        match feed_of(heap, outline) {
            Ok(_) => Ok(false),
            Err(Fault::Refused { line, reason }) => {
                Ok(line == at && format!(in heap; "{reason}")?.as_str() == why)
            }
            Err(Fault::Memory(fault)) => Err(fault),
        }
    }

    #[test]
    fn feeds(rt: HostRuntime) -> Result<(), Fail> {
        let feed = feed_of(rt.alloc(), b"#\na\n  #\n  a\n#")?;
        let mut expected = [0u8; 45];
        expected[0..3].copy_from_slice(&[0x03, 0x04, b'a']);
        expected[34..45].copy_from_slice(&[0x01, 0, 2, 0x03, 0x01, 0, 2, 0x02, 0x02, 0x03, 0x0f]);
        assert_eq!(rt; feed.as_slice(), expected.as_slice());
        Ok(())
    }

    #[test]
    fn refuses_lines(rt: HostRuntime) -> Result<(), Fail> {
        for (outline, line, reason) in REFUSED {
            assert!(rt; refuses(rt.alloc(), outline, line, reason)?);
        }
        Ok(())
    }

    // 8,191 lines are as many nodes as may be below the root, and 512 names as many as there are slots.
    #[test]
    fn refuses_many(rt: HostRuntime) -> Result<(), Fail> {
        let heap = rt.alloc();
        let mut texts = Vec::new(heap);
        for _ in 0..8192 {
            texts.extend_from_slice(b"#\n")?;
        }
        let why = "more than 8192 nodes with the root";
        assert!(rt; refuses(heap, texts.as_slice(), 8192, why)?);
        let mut names = Vec::new(heap);
        for i in 0..513u16 {
            let [high, low] = i.to_be_bytes();
            names.extend_from_slice(&[b'a' + high % 16, b'a' + low / 16, b'a' + low % 16, b'\n'])?;
        }
        assert!(rt; refuses(heap, names.as_slice(), 513, "more than 512 names")?);
        Ok(())
    }
}
