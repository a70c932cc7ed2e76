// A line of input, judged while it streams.
ghost use Rattle.std.specs.Prelude.{◌≡◌};
ghost use Rattle.lines.specs.Scans.{with_digit, end_field, spoiled, feed_of, field_reads, finish_of, FedOn};

// One space stands between fields, and a line has seven.
pub const FIELDS: usize = 7;

const LAST: usize = FIELDS - 1;

pub const LARGEST: u64 = 4294967295;

// What has been read of a line: the numbers of the fields that a space has ended, and how many; the
// open field's value, which stays where it is once it is too large, and whether it has a digit;
// whether anything stood on the line that no seven decimals have. The specs speak of these fields, so
// the numbers and their count stay two, and a digit's flag stands beside the value.
#[derive(Clone, Copy)]
pub struct Scan {
    pub numbers: [u32; FIELDS],
    pub ended: usize,
    pub value: u64,
    pub digits: bool,
    pub bad: bool,
}

// The scan after a part of a line, and the place where that ends; a type of its own, as `Played` of the
// rehearsal is, since the promises name the state that each has.
#[derive(Clone, Copy)]
pub struct Fed {
    pub scan: Scan,
    pub to: usize,
}

impl Scan {
    pub const START: Scan = Scan {
        numbers: [0; FIELDS],
        ended: 0,
        value: 0,
        digits: false,
        bad: false,
    };

    fn add_digit(&mut self, digit: u8)
        ensures { self.new ≡ with_digit self.old digit }
    {
        if self.value <= LARGEST {
            self.value = 10 * self.value + u64::from(digit);
        }
        self.digits = true;
    }

    fn field_reads(self) -> bool
        ensures { result ≡ field_reads self }
    {
        self.digits && self.value <= LARGEST
    }

    fn spoil(&mut self)
        ensures { self.new ≡ spoiled self.old }
    {
        self.bad = true;
    }

    #[tactic(auto, unfolding(crate::specs::Scans::end_field))]
    fn end_field(&mut self)
        ensures { self.new ≡ end_field self.old }
    {
        if self.field_reads() && self.ended < LAST {
            // At most LARGEST, so nothing is lost.
            self.numbers[self.ended] = self.value as u32;
            self.ended += 1;
            self.value = 0;
            self.digits = false;
        } else {
            self.spoil();
        }
    }

    // The next byte of the line, in place: a scan by value would be copied for each byte.
    #[tactic(auto, unfolding(crate::specs::Scans::feed_of))]
    fn take(&mut self, byte: u8)
        ensures { self.new ≡ feed_of self.old byte }
    {
        match byte {
            b' ' => self.end_field(),
            b'0'..=b'9' => self.add_digit(byte - b'0'),
            _ => self.spoil(),
        }
    }

    // The next byte of the line.
    pub fn feed(mut self, byte: u8) -> Scan
        ensures { result ≡ feed_of self byte }
    {
        self.take(byte);
        self
    }

    // The open line from a place of a piece of input on, up to its LF or the piece's end.
    pub fn feed_on(self, bytes: &[u8], from: usize) -> Fed
        ensures { FedOn self bytes.now from result.scan result.to }
    {
        let mut scan = self;
        let Some(rest) = bytes.get(from..) else {
            return Fed { scan, to: from };
        };
        for (read, &byte) in rest.iter().enumerate() {
            if byte == b'\n' {
                return Fed {
                    scan,
                    to: from + read,
                };
            }
            scan.take(byte);
        }
        Fed {
            scan,
            to: from + rest.len(),
        }
    }

    // The line is at its end: its seven numbers, none where it is not seven decimals.
    #[tactic(auto, unfolding(crate::specs::Scans::finish_of))]
    pub fn finish(mut self) -> Option<[u32; FIELDS]>
        ensures { result ≡ finish_of self }
    {
        if self.ended == LAST && self.field_reads() && !self.bad {
            // At most LARGEST, as above.
            self.numbers[LAST] = self.value as u32;
            Some(self.numbers)
        } else {
            None
        }
    }
}
