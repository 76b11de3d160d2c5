//! How text is written into a row.
ghost use Rattle.std.specs.Prelude.{◌≡◌, ◌+◌, ◌≤◌, length, decimal};
ghost use Rattle.host.specs.Writer.{HasRoom, Writes};

use crate::writer::Writer;

impl<'a> Writer<'a> {
    /// A writer at the beginning of a row.
    pub(crate) fn new(row: &'a mut [u8]) -> Writer<'a>
        ensures same_row { result.row.ghost_name ≡ row.entry.ghost_name }
        ensures unchanged { result.row.now ≡ row.old }
        ensures beginning { result.at ≡ 0 }
    {
        Writer { row, at: 0 }
    }

    /// How many bytes are written.
    pub(crate) fn len(&self) -> usize
        ensures { result ≡ self.now.at }
    {
        self.at
    }

    /// Writes a word.
    pub(crate) fn word(&mut self, word: &[u8])
        requires { HasRoom self.old (length word.now) }
        ensures { Writes self.old self.new word.now }
    {
        let row = &mut *self.row;
        let end = self.at + word.len();
        row[self.at..end].copy_from_slice(word);
        self.at = end;
    }

    /// Writes a number in base ten.
    pub(crate) fn number(&mut self, n: usize)
        requires { HasRoom self.old (length (decimal n)) }
        ensures { Writes self.old self.new (decimal n) }
    {
        // Digit by digit: the listing is fixed words and numbers put into the lent row, with no text made elsewhere.
        if n >= 10 {
            self.number(n / 10);
        }
        let row = &mut *self.row;
        row[self.at] = b'0' + (n % 10) as u8;
        self.at += 1;
    }
}
