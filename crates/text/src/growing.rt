// The text that a program prints, as it grows: words, numbers and the line's end.
ghost use Rattle.std.specs.Prelude.{◌≤◌, length};

use itoa::Buffer;

// A text that grows at the front of a lent buffer: the buffer, and where the text ends, which is within it.
#[derive(Drop)]
pub(crate) struct Text<'a> {
    pub out: &'a mut [u8],
    pub end: usize,
    pub ghost inside: { end ≤ length out.now },
}

impl<'a> Text<'a> {
    ghost use Rattle.std.specs.Prelude.{[], ◌∷◌, ◌++◌, length};
    ghost use Rattle.text.specs.Lines.{digits, line_end};
    ghost use Rattle.text.specs.Growing.{Room, Grown};

    // Bytes behind the text.
    pub(crate) fn put(&mut self, bytes: &[u8])
        requires { Room (length bytes.now) self.old }
        ensures { Grown bytes.now self.old self.new }
    {
        let end = self.end + bytes.len();
        self.out[self.end..end].copy_from_slice(bytes);
        self.end = end;
    }

    // The digits of a number.
    pub(crate) fn put_number(&mut self, n: u32)
        requires { Room (length (digits n)) self.old }
        ensures { Grown (digits n) self.old self.new }
    {
        let mut buffer = Buffer::new();
        self.put(buffer.format(n).as_bytes());
    }

    // A word and a number behind it.
    pub(crate) fn put_field(&mut self, word: &[u8], n: u32)
        requires { Room (length (word.now ++ digits n)) self.old }
        ensures { Grown (word.now ++ digits n) self.old self.new }
    {
        self.put(word);
        self.put_number(n);
    }

    // "Each line ends with byte 0A."
    pub(crate) fn put_end(&mut self)
        requires { Room 1 self.old }
        ensures { Grown (line_end ∷ []) self.old self.new }
    {
        self.put(b"\n");
    }
}
