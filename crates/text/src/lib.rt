// A text that grows in a lent buffer, piece after piece: bytes, decimal numbers, the line of a refusal. It may not know what a text tells.
#![tactic(auto)]

ghost use Rattle.std.specs.Prelude.{◌≤◌, length};

// A number of 64 bits has at most 20 digits.
const DIGITS: usize = 20;

// The text so far stands at the front of the buffer; what stands after it there stays as it is.
#[derive(Drop)]
pub struct Text<'a> {
    buffer: &'a mut [u8],
    size: usize,
    ghost fits: { size ≤ length buffer.now },
}

impl<'a> Text<'a> {
    ghost use Rattle.std.specs.Prelude.{◌≡◌, ◌∷◌, [], ◌++◌, ◌+◌, take};
    ghost use Rattle.upd546.specs.Reports.{decimal, refused_text};
    ghost use Rattle.text.specs.Writing.{HasRoom, Pushed, number_length, refused_length};

    // An empty text.
    pub fn new(buffer: &'a mut [u8]) -> Text<'a>
        ensures same_buffer { result.buffer.ghost_name ≡ buffer.entry.ghost_name }
        ensures same_bytes { result.buffer.now ≡ buffer.old }
        ensures empty { result.size ≡ 0 }
    {
        Text { buffer, size: 0 }
    }

    // No program asks whether a text is empty, so `is_empty` doesn't stand beside it.
    pub fn len(&self) -> usize
        ensures { result ≡ self.now.size }
    {
        self.as_slice().len()
    }

    pub fn as_slice(&self) -> &[u8]
        ensures { result.now ≡ take self.now.size self.now.buffer.now }
    {
        &self.buffer[..self.size]
    }

    pub fn push(&mut self, bytes: &[u8])
        requires { HasRoom (length bytes.now) self.old }
        ensures { Pushed self.old bytes.now self.new }
    {
        copying::copy(bytes, &mut self.buffer[self.size..]);
        self.size += bytes.len();
    }

    // A number and one byte after it. `io::decimal` writes the digits, as `write!` would answer an error that can't come here.
    pub fn push_number(&mut self, n: u64, after: u8)
        requires { HasRoom (number_length + 1) self.old }
        ensures { Pushed self.old (decimal n ++ (after ∷ [])) self.new × (self.new.size ≤ self.old.size + number_length + 1) }
    {
        let mut digits = [0u8; DIGITS];
        let k = io::decimal(n, &mut digits);
        self.push(&digits[..k]);
        self.push(&[after]);
    }

    // "A refusal prints only `refused` and the number."
    pub fn push_refused(&mut self, number: u8)
        requires { HasRoom refused_length self.old }
        ensures { Pushed self.old (refused_text number) self.new }
    {
        self.push(b"refused ");
        self.push_number(number as u64, b'\n');
    }
}
