ghost use Rattle.std.specs.Prelude.{◌≡◌, ◌+◌, ◌<◌, ◌^◌, length, fold};
ghost use Rattle.cm_lexer.specs.Moving.{moved, IsNear};

use cm_base::Place;

/// How many bytes stand before, and which place that is.
#[derive(Clone, Copy)]
pub struct Pen {
    pub offset: u32,
    pub place: Place,
}

impl Pen {
    /// At the beginning of a file.
    pub fn new(file: u32) -> Pen
        ensures { result ≡ record { offset = 0; place = record { file = file; line = 1; column = 1 } } }
    {
        Pen {
            offset: 0,
            place: Place {
                file,
                line: 1,
                column: 1,
            },
        }
    }

    /// Past these bytes.
    pub fn past(mut self, bytes: &[u8]) -> Pen
        requires room { self.offset + length bytes.now < 2 ^ 31 }
        requires near { IsNear self }
        ensures place { result.place ≡ fold moved self.place bytes.now }
        ensures offset { result.offset ≡ self.offset + length bytes.now }
        ensures near { IsNear result }
    {
        for byte in bytes {
            self.offset += 1;
            if *byte == b'\n' {
                self.place.line += 1;
                self.place.column = 1;
            } else {
                self.place.column += 1;
            }
        }
        self
    }
}
