//! The text of a line while it is made: words with one space between them.
ghost use Rattle.std.specs.Prelude.{◌≡◌, ◌++◌, ◌∷◌, [], IfOk, decimal};
ghost use Rattle.hex.specs.Hex.{encode_lower};
ghost use Rattle.run_report.specs.Words.{◌␣◌, hex_text, decimals};
ghost use Rattle.run_report.specs.Names.{node_name};

use itoa::Buffer;
use rp_base::{Bytes, NoMemory, Node};
use std::alloc::Global;
use std::marker::Model;

/// A text that grows by words.
#[derive(Drop)]
pub struct Text {
    bytes: Bytes,
    alloc: Global,
}

impl Model for Text {
    ghost use Rattle.std.specs.Prelude.{List, ℕ};

    ghost Value = { List ℕ };

    ghost view = { λ t. t.bytes };
}

impl Text {
    /// A text of one word.
    pub fn of(alloc: Global, word: &[u8]) -> Result<Text, NoMemory>
        ensures { IfOk result (λ text. text ≡ word.now) }
    {
        let mut bytes = Bytes::new(alloc);
        bytes.append(word)?;
        Ok(Text { bytes, alloc })
    }

    /// The text with a further word.
    pub fn word(self, word: &[u8]) -> Result<Text, NoMemory>
        ensures { IfOk result (λ text. text ≡ self ␣ word.now) }
    {
        let Text { mut bytes, alloc } = self;
        bytes.push(b' ')?;
        bytes.append(word)?;
        Ok(Text { bytes, alloc })
    }

    // The text with a number behind it and no space between.
    fn digits(self, n: u64) -> Result<Text, NoMemory>
        ensures { IfOk result (λ text. text ≡ self ++ decimal n) }
    {
        let Text { mut bytes, alloc } = self;
        let mut digits = Buffer::new();
        bytes.append(digits.format(n).as_bytes())?;
        Ok(Text { bytes, alloc })
    }

    /// The text with a number as a further word.
    pub fn number(self, n: u64) -> Result<Text, NoMemory>
        ensures { IfOk result (λ text. text ≡ self ␣ decimal n) }
    {
        let mut digits = Buffer::new();
        self.word(digits.format(n).as_bytes())
    }

    /// The text with each of these numbers as a further word.
    pub fn numbers(self, numbers: &[u64]) -> Result<Text, NoMemory>
        ensures { IfOk result (λ text. text ≡ self ++ decimals numbers.now) }
    {
        let mut text = self;
        for n in numbers {
            text = text.number(*n)?;
        }
        Ok(text)
    }

    /// The text with bytes as a further word, in lower-case hex.
    pub fn hex(self, bytes: &[u8]) -> Result<Text, NoMemory>
        ensures { IfOk result (λ text. text ≡ self ␣ encode_lower bytes.now) }
    {
        let digits = hex::encode(self.alloc, bytes)?;
        self.word(digits.as_bytes())
    }

    /// The text with bytes as a further word, in lower-case hex, or with `-` where there are none.
    pub fn hex_or_dash(self, bytes: &[u8]) -> Result<Text, NoMemory>
        ensures { IfOk result (λ text. text ≡ self ␣ hex_text bytes.now) }
    {
        if bytes.is_empty() {
            self.word(b"-")
        } else {
            self.hex(bytes)
        }
    }

    /// The text with the name of a node as a further word.
    pub fn node(self, node: Node) -> Result<Text, NoMemory>
        ensures { IfOk result (λ text. text ≡ self ␣ node_name node) }
    {
        match node {
            Node::Switch(n) => self.word(b"s")?.digits(u64::from(n)),
            Node::Replica(n) => self.word(b"r")?.digits(u64::from(n)),
            Node::Master => self.word(b"m"),
        }
    }

    /// The text as a line.
    pub fn line(self) -> Result<Bytes, NoMemory>
        ensures { IfOk result (λ bytes. bytes ≡ self ++ 10 ∷ []) }
    {
        let Text {
            mut bytes,
            alloc: _,
        } = self;
        bytes.push(b'\n')?;
        Ok(bytes)
    }
}
