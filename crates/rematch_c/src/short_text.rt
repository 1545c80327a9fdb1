//! Notes and names in memory of C's.
ghost use Rattle.std.specs.Prelude.{◌≡◌, []};
ghost use Rattle.rematch_c.specs.Texts.{IsText};

/// How many bytes of a text there is room for, with a byte 0 behind them. Each note of a query or of a document is shorter.
const MOST_BYTES: usize = 247;

/// A note, as the program writes it without the line's end, or a name.
#[repr(C)]
#[derive(Drop)]
pub struct ShortText {
    /// How many bytes it has; 0 where there is none.
    pub length: usize,
    /// Its bytes, with a byte 0 behind them.
    pub bytes: [u8; 248],
}

impl ShortText {
    /// Says this, as far as there is room.
    pub(crate) fn say(&mut self, said: &[u8])
        ensures { IsText self.new said.now }
    {
        let count = said.len().min(MOST_BYTES);
        self.bytes[..count].copy_from_slice(&said[..count]);
        self.bytes[count] = 0;
        self.length = count;
    }

    /// Says nothing.
    pub(crate) fn clear(&mut self)
        ensures { IsText self.new [] }
    {
        self.say(b"");
    }
}
