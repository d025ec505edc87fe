//! A part of a picture, as XML. Text that was not made here comes in by [`Xml::push_text`] and [`Xml::push_lines`] alone, which
//! escape it.

ghost use Rattle.std.specs.Prelude.{◌≡◌, [], ◌++◌, OnOk, IfOk};
ghost use Rattle.txn_drawing_svg.specs.Escaped.{escaped, escaped_lines, escaped_byte, line_byte};

use std::alloc::{AllocError, Global};

/// What stands between two lines of a text: the next begins below.
const NEXT_LINE: &str = "</tspan><tspan x='14' dy='14'>";

/// A part of a picture.
#[derive(Drop)]
pub struct Xml {
    bytes: Vec<u8>,
}

impl Xml {
    /// Nothing.
    pub fn new(alloc: Global) -> Xml {
        Xml {
            bytes: Vec::new(alloc),
        }
    }

    /// Its bytes.
    pub fn bytes(&self) -> &[u8]
        ensures { result.now ≡ self.now.bytes.items }
    {
        self.bytes.as_slice()
    }

    /// Its bytes, and nothing else.
    pub fn into_bytes(self) -> Vec<u8>
        ensures { result ≡ self.bytes }
    {
        let Xml { bytes } = self;
        bytes
    }

    /// Nothing again.
    pub fn clear(&mut self)
        ensures { self.new.bytes.items ≡ [] }
    {
        self.bytes.clear();
    }

    /// Adds markup as it is.
    ///
    /// # Errors
    ///
    /// Want of memory alone. A part of it may stand in the picture then.
    pub fn push_markup(&mut self, markup: &str) -> Result<(), AllocError>
        ensures { OnOk result (self.new.bytes.items ≡ self.old.bytes.items ++ markup.now) }
    {
        self.bytes.extend_from_slice(markup.as_bytes())
    }

    /// Adds another part as it is.
    ///
    /// # Errors
    ///
    /// Want of memory alone. A part of it may stand in the picture then.
    pub fn push_part(&mut self, part: &Xml) -> Result<(), AllocError>
        ensures { OnOk result (self.new.bytes.items ≡ self.old.bytes.items ++ part.now.bytes.items) }
    {
        self.bytes.extend_from_slice(part.bytes.as_slice())
    }

    /// Adds a byte of a text.
    fn push_byte(&mut self, byte: u8) -> Result<(), AllocError>
        ensures { OnOk result (self.new.bytes.items ≡ self.old.bytes.items ++ escaped_byte byte) }
    {
        match byte {
            b'&' => self.push_markup("&amp;"),
            b'<' => self.push_markup("&lt;"),
            b'>' => self.push_markup("&gt;"),
            0..=31 => self.push_markup("?"),
            _ => {
                self.bytes.push(byte)?;
                Ok(())
            }
        }
    }

    /// Adds a byte of lines.
    fn push_line_byte(&mut self, byte: u8) -> Result<(), AllocError>
        ensures { OnOk result (self.new.bytes.items ≡ self.old.bytes.items ++ line_byte byte) }
    {
        if byte == b'\n' {
            self.push_markup(NEXT_LINE)
        } else {
            self.push_byte(byte)
        }
    }

    /// Adds a text: what would be markup stands as its name, and a control character as a question mark.
    ///
    /// # Errors
    ///
    /// Want of memory alone. A part of it may stand in the picture then.
    pub fn push_text(&mut self, text: &str) -> Result<(), AllocError>
        ensures { OnOk result (self.new.bytes.items ≡ self.old.bytes.items ++ escaped text.now) }
    {
        let bytes = text.as_bytes();
        for byte in bytes {
            self.push_byte(*byte)?;
        }
        Ok(())
    }

    /// Adds the bytes of lines as text, each line below the one before it.
    ///
    /// # Errors
    ///
    /// Want of memory alone. A part of it may stand in the picture then.
    pub fn push_lines(&mut self, lines: &[u8]) -> Result<(), AllocError>
        ensures { OnOk result (self.new.bytes.items ≡ self.old.bytes.items ++ escaped_lines lines.now) }
    {
        for byte in lines {
            self.push_line_byte(*byte)?;
        }
        Ok(())
    }
}
