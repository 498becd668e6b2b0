// What a kind of total is.
ghost use Rattle.std.specs.Prelude.{◌≡◌, ℕ, ◌≤◌, List, length};
ghost use Rattle.total.specs.Outputs.{put, put_end};

use crate::output::OutputRefusal;

// A kind of total: what its values mean, a value called nothing, a join of two values and a
// seal of a value with a mark. The laws are about meanings, so two values are equal as totals
// when they mean the same. A seal may be any function of mark and meaning.
pub trait Total {
    ghost Meaning: { Type 0 };

    ghost meaning: { Self → Meaning };

    ghost none: { Meaning };

    ghost joined: { Meaning → Meaning → Meaning };

    ghost sealed: { ℕ → Meaning → Meaning };

    fn nothing() -> Self
        ensures { meaning result ≡ none };

    fn join(&self, other: &Self) -> Self
        ensures { meaning result ≡ joined (meaning self.now) (meaning other.now) };

    fn seal(&self, mark: u8) -> Self
        ensures { meaning result ≡ sealed mark (meaning self.now) };

    ghost associative: { (x y z : Meaning) → joined (joined x y) z ≡ joined x (joined y z) };

    ghost commutative: { (x y : Meaning) → joined x y ≡ joined y x };

    ghost unit: { (x : Meaning) → joined x none ≡ x };
}

// A kind that can write itself. Values that mean the same have the same text.
pub trait Printed: Total {
    // The length of the longest text.
    const LONGEST: usize;

    ghost LONGEST: { ℕ };

    ghost text: { Self → List ℕ };

    fn text_len(&self) -> usize
        ensures { result ≡ length (text self.now) };

    // Puts the text into the output from a place on, as `put_bytes` does its bytes.
    fn write(&self, out: &mut [u8], at: usize) -> Result<usize, OutputRefusal>
        ensures result { result ≡ put_end out.old at (text self.now) }
        ensures after { out.new ≡ put out.old at (text self.now) };

    ghost bounded: { (x : Self) → length (text x) ≤ LONGEST };

    ghost same: { (x y : Self) → Self.Total.meaning x ≡ Self.Total.meaning y → text x ≡ text y };
}
