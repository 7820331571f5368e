// Words read from a text, with its groups. A word for which there is no room is left out.
ghost use Rattle.std.specs.Prelude.{◌≤◌};

// A word as a number; a word below 0 is the largest number.
pub fn number(word: i64) -> usize {
    usize::try_from(word).unwrap_or(usize::MAX)
}

// A word as a number of at most so many.
pub fn at_most(word: i64, most: usize) -> usize
    ensures { result ≤ most }
{
    number(word).min(most)
}

// A word by its size and sign; past 2^63 - 1 only -2^63 is a word.
fn signed(size: usize, minus: bool) -> i64 {
    match i64::try_from(size) {
        Ok(word) if minus => -word,
        Ok(word) => word,
        Err(_) => i64::MIN,
    }
}

// The words so far, at the start of a slice, and how many: there is no heap for a vector. Where the open group starts, how many words it is to have, and the
// place of the one that rises; the digits and the sign of the next word. No group open is a group of no words, so that a `)` by itself repeats nothing, without a case of its own.
#[derive(Drop)]
struct WordsSoFar<'a> {
    words: &'a mut [i64],
    count: usize,
    start: usize,
    total: usize,
    rises: Option<usize>,
    size: Option<usize>,
    minus: bool,
}

impl WordsSoFar<'_> {
    // A word that has started stands.
    fn flush(&mut self) {
        if let Some(size) = self.size.take() {
            if let Some(place) = self.words.get_mut(self.count) {
                *place = signed(size, self.minus);
                self.count += 1;
            }
        }
    }

    // A group opens, of as many words as the number before it says.
    fn open(&mut self) {
        self.start = self.count;
        self.total = self.size.take().unwrap_or(0);
        self.rises = None;
    }

    // The group's words again and again, up to so many in all or to the slice's end, the one that rises one more each time.
    fn close(&mut self) {
        let words = &mut *self.words;
        let back = self.count.saturating_sub(self.start);
        let end = words.len().min(self.start.saturating_add(self.total));
        let mut rises = self.rises;
        // Each word is made of one that stands before it in the same slice, so that the loop goes by places.
        for at in self.count..end {
            let from = at - back;
            let mut word = words[from];
            if rises == Some(from) {
                word = word.saturating_add(1);
                rises = Some(at);
            }
            words[at] = word;
        }
        self.count = self.count.max(end);
        self.start = 0;
        self.total = 0;
        self.rises = None;
    }

    // One byte more.
    fn put(&mut self, byte: u8) {
        if byte.is_ascii_digit() {
            let digit = usize::from(byte - b'0');
            let size = self.size.unwrap_or(0);
            self.size = Some(size.saturating_mul(10).saturating_add(digit));
            return;
        }
        if byte == b'x' {
            self.open();
        }
        let place = self.count;
        self.flush();
        match byte {
            b')' => self.close(),
            b'+' => self.rises = Some(place),
            _ => {}
        }
        self.minus = byte == b'-';
    }
}

// The words of a text, parted by other bytes, its groups written out, at the start of a slice; and how many.
pub fn words(text: &[u8], words: &mut [i64]) -> usize {
    let mut so_far = WordsSoFar {
        words,
        count: 0,
        start: 0,
        total: 0,
        rises: None,
        size: None,
        minus: false,
    };
    for byte in text {
        so_far.put(*byte);
    }
    so_far.flush();
    so_far.count
}

// Words as numbers of 16 bits, the largest for what is none, as many as there is room for; and how many.
pub fn shorts(words: &[i64], to: &mut [u16]) -> usize {
    for (short, word) in to.iter_mut().zip(words) {
        *short = u16::try_from(*word).unwrap_or(u16::MAX);
    }
    words.len().min(to.len())
}
