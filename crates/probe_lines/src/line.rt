// The line that is being built, or other bytes: each function puts its text behind what stands there. What finds no room is left out: the
// buffer holds the longest line.
use crate::parts::front;
use crate::twos;

#[derive(Drop)]
pub struct Line<'a> {
    room: &'a mut [u8],
    end: usize,
}

impl<'a> Line<'a> {
    pub fn new(room: &'a mut [u8]) -> Line<'a> {
        Line { room, end: 0 }
    }

    pub fn byte(&mut self, b: u8) {
        if self.end < self.room.len() {
            self.room[self.end] = b;
            self.end += 1;
        }
    }

    pub fn text(&mut self, text: &[u8]) {
        for b in text {
            self.byte(*b);
        }
    }

    // The text, where the test came out true.
    pub fn text_if(&mut self, test: bool, text: &[u8]) {
        if test {
            self.text(text);
        }
    }

    pub fn decimal(&mut self, n: u64) {
        let mut digits = [0u8; 20];
        let count = io::decimal(n, &mut digits);
        self.text(&digits[..count]);
    }

    // A space and a number.
    pub fn number(&mut self, n: u64) {
        self.byte(b' ');
        self.decimal(n);
    }

    pub fn signed(&mut self, v: i64) {
        if v < 0 {
            self.byte(b'-');
        }
        self.decimal(twos::magnitude(v));
    }

    pub fn hex(&mut self, bytes: &[u8]) {
        const DIGITS: [u8; 16] = *b"0123456789abcdef";
        for b in bytes {
            self.byte(DIGITS[(*b / 16) as usize]);
            self.byte(DIGITS[(*b % 16) as usize]);
        }
    }

    // A space and the digits.
    pub fn hex_word(&mut self, bytes: &[u8]) {
        self.byte(b' ');
        self.hex(bytes);
    }

    // How many bytes stand there.
    pub fn len(&self) -> usize {
        self.end
    }

    // Takes all of them back.
    pub fn clear(&mut self) {
        self.end = 0;
    }

    // The bytes that stand there.
    pub fn so_far(&self) -> &[u8] {
        front(self.room, self.end)
    }

    // Ends the line and writes it to standard output; false where it has no room for its end.
    pub fn write(&mut self) -> bool {
        let len = self.end;
        self.byte(b'\n');
        if self.end == len {
            return false;
        }
        io::write_all(1, self.so_far())
    }
}
