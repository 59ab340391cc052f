// Document 01, 'Lines': a field of a line, and what its number must be.
ghost use Rattle.std.specs.Prelude.{◌≡◌, ◌*◌, ◌<◌, ◌≤◌, ◌^◌, length};
ghost use Rattle.frames.specs.Fields.{max_width};
ghost use Rattle.lines.specs.Layout.{number_in, end_of, further, below};

use frames::fields;
use refusals::Refusal;

// What a field's number must be.
#[derive(Clone, Copy)]
pub enum Rule {
    Any,
    Between(u64, u64),
    // At most so far from 0, as two's complement.
    Around(u64),
    // A cost of a load: at most the highest cost, or the mark of a forbidden entry.
    Priced,
}

// A field of a line: the byte where it begins, how many bytes it has, what its number must be, and why the line is declined where it is not.
// The bounds of `at` and `width` stand in clauses: they differ (2^32 at the first field of a run, 2^40 else), and the kinds write their fields out as constants.
#[derive(Clone, Copy)]
pub struct Field {
    pub at: usize,
    pub width: usize,
    pub rule: Rule,
    pub refusal: Refusal,
}

impl Field {
    // How many bytes a count has, and the number of a train or of a choice.
    pub const COUNT_WIDTH: usize = 1;
    // How many bytes a figure in parts or points has, in a record or a reply.
    pub const FIGURE_WIDTH: usize = 6;

    // The number that stands in the field.
    pub fn number_in(self, line: &[u8]) -> u64
        requires { (2 * end_of self ≤ length line.now) × (self.width ≤ max_width) }
        ensures { result ≡ number_in line.now self }
    {
        fields::field(line, self.at, self.width)
    }

    // The byte behind the field.
    pub fn end(self) -> usize
        requires { (self.at < 2 ^ 40) × (self.width ≤ max_width) }
        ensures { result ≡ end_of self }
    {
        self.at + self.width
    }

    // Field k of a run that begins with this one.
    pub fn further(self, k: usize) -> Field
        requires { (self.at < 2 ^ 32) × (self.width ≤ max_width) × (k < 2 ^ 32) }
        ensures { result ≡ further self k }
    {
        Field {
            at: self.at + self.width * k,
            ..self
        }
    }

    // The same field, where its number must be below this count.
    pub fn below(self, count: usize) -> Field
        requires { 1 ≤ count }
        ensures { result ≡ below self count }
    {
        Field {
            rule: Rule::Between(0, (count - 1) as u64),
            ..self
        }
    }
}
