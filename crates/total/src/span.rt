// The span: no years, or the years from a first to a last one.
ghost use Rattle.std.specs.Prelude.{◌≡◌, ◌+◌, ◌≤◌, [], ◌∷◌, length, ◌-ℤ◌, Decides};
ghost use Rattle.std.proofs.Common.{ap};
ghost use Rattle.std.specs.Ordering.{on};
ghost use Rattle.std.specs.Int.{int_min, int_max};
ghost use Rattle.total.specs.Outputs.{put, put_end};
ghost use Rattle.total.specs.Spans.{Years, no_years, years, in_order, span_meaning, years_eq, hull, IsHull, capped, years_text, span_text, meant, spanned, span_number, span_told};
ghost use Rattle.std.specs.Cmp.{on_equiv, partial_equiv_from_equiv};
ghost use Rattle.total.specs.SpansLemmas.{hull_assoc, hull_comm, hull_none, years_equiv};
ghost use Rattle.total.specs.SpanTexts.{text_short};

use crate::kind::{Printed, Total};
use crate::output::{OutputRefusal, integer_len, put_bytes, put_pieces};
use itoa::Buffer;
use job::Refusal;

// Why two years make no span.
#[derive(Clone, Copy, PartialEq, Eq, Debug)]
pub enum SpanRefusal {
    // one is out of range, or they are out of order
    BadYears,
}

impl Refusal for SpanRefusal {
    ghost numbered = { span_number };

    ghost told = { span_told };

    fn number(&self) -> u8 {
        match self {
            SpanRefusal::BadYears => 19,
        }
    }

    fn place(&self) -> Option<usize> {
        match self {
            SpanRefusal::BadYears => None,
        }
    }
}

// Fields out of range or out of order mean no years, so that every value means something.
#[derive(Clone, Copy, Debug)]
pub struct Span {
    first: i16,
    last: i16,
}

// The last year of all. The first is as far below 0.
const LAST_YEAR: i32 = 9999;

// Whether both years are in range, the first not after the last.
fn in_order(first: i32, last: i32) -> bool
    ensures { result ≡ in_order first last }
{
    -LAST_YEAR <= first && first <= last && last <= LAST_YEAR
}

impl Span {
    // The span of the years from a first to a last one.
    pub fn from_years(first: i32, last: i32) -> Result<Span, SpanRefusal>
        ensures { meant result ≡ spanned first last }
    {
        if !in_order(first, last) {
            return Err(SpanRefusal::BadYears);
        }
        Ok(Span {
            first: first as i16,
            last: last as i16,
        })
    }

    // Whether the span is not empty.
    fn has_years(self) -> bool
        ensures { result ≡ in_order self.first self.last }
    {
        in_order(i32::from(self.first), i32::from(self.last))
    }

    // From the earlier of the first years to the later of the last.
    fn widened(self, other: Span) -> Span
        ensures first { result.first ≡ int_min self.first other.first }
        ensures last { result.last ≡ int_max self.last other.last }
    {
        Span {
            first: self.first.min(other.first),
            last: self.last.max(other.last),
        }
    }

    // The last year less the first, which a field may be too narrow for.
    fn length(self) -> i32
        ensures { result ≡ self.last -ℤ self.first }
    {
        i32::from(self.last) - i32::from(self.first)
    }
}

// By hand, since spans are equal where they mean the same, whatever their fields hold.
impl PartialEq for Span {
    ghost eq = { on span_meaning years_eq };

    ghost laws = { partial_equiv_from_equiv (on_equiv span_meaning years_equiv) };

    fn eq(&self, other: &Span) -> bool
        ensures value { result ≡ on span_meaning years_eq self.now other.now }
        ensures same { Decides result (span_meaning self.now ≡ span_meaning other.now) }
    {
        if self.has_years() && other.has_years() {
            self.first == other.first && self.last == other.last
        } else {
            !self.has_years() && !other.has_years()
        }
    }
}

impl Eq for Span {
    ghost laws = { on_equiv span_meaning years_equiv };
}

impl Total for Span {
    ghost Meaning = { Years };

    ghost meaning = { span_meaning };

    ghost none = { no_years };

    ghost joined = { hull };

    ghost sealed = { capped };

    ghost associative = { hull_assoc };

    ghost commutative = { hull_comm };

    ghost unit = { hull_none };

    fn nothing() -> Span {
        // totals lie in books, so that any fields mean something: these mean no years
        Span { first: 1, last: 0 }
    }

    fn join(&self, other: &Span) -> Span
        ensures meaning { span_meaning result ≡ hull (span_meaning self.now) (span_meaning other.now) }
        ensures least { IsHull (span_meaning self.now) (span_meaning other.now) (span_meaning result) }
    {
        if !self.has_years() {
            return *other;
        }
        if !other.has_years() {
            return *self;
        }
        self.widened(*other)
    }

    fn seal(&self, mark: u8) -> Span {
        if mark > 0 && self.length() > i32::from(mark) {
            Self::nothing()
        } else {
            *self
        }
    }
}

impl Printed for Span {
    const LONGEST: usize = 11;

    ghost LONGEST = { 11 };

    ghost text = { span_text };

    ghost bounded = { text_short };

    ghost same = { λ x y e. ap years_text e };

    fn text_len(&self) -> usize {
        if self.has_years() {
            integer_len(self.first) + 1 + integer_len(self.last)
        } else {
            0
        }
    }

    fn write(&self, out: &mut [u8], at: usize) -> Result<usize, OutputRefusal> {
        if !self.has_years() {
            return put_bytes(out, at, b"");
        }
        let mut first = Buffer::new();
        let mut last = Buffer::new();
        let first = first.format(self.first).as_bytes();
        let last = last.format(self.last).as_bytes();
        put_pieces(out, at, &[first, b"/", last])
    }
}
