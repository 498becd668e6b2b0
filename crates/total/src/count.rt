// The count: a number below 2^64.
ghost use Rattle.std.specs.Prelude.{◌≡◌, ℕ, decimal};
ghost use Rattle.std.proofs.Common.{ap, arith, rules};
ghost use Rattle.total.specs.Counts.{Number, number, zero_number, sum, kept, count_text};
ghost use Rattle.total.specs.Numbers.{same_number};
ghost use Rattle.std.proofs.lemmas.Fmt.{length-decimal-le};

use crate::kind::{Printed, Total};
use crate::output::{OutputRefusal, number_len, put_number};

#[derive(Clone, Copy, PartialEq, Eq, Debug)]
pub struct Count {
    pub value: u64,
}

impl Total for Count {
    ghost Meaning = { Number };

    ghost meaning = { λ c. number c.value };

    ghost none = { zero_number };

    ghost joined = { sum };

    ghost sealed = { kept };

    ghost associative = { λ x y z. same_number _ _ (omega arith) };

    ghost commutative = { Prim.search rules };

    ghost unit = { λ x. same_number _ _ (omega arith) };

    fn nothing() -> Count {
        Count { value: 0 }
    }

    #[tactic(auto, using(crate::specs::Numbers::same_number))]
    fn join(&self, other: &Count) -> Count {
        Count {
            value: self.value.wrapping_add(other.value),
        }
    }

    fn seal(&self, mark: u8) -> Count {
        if self.value >= u64::from(mark) {
            *self
        } else {
            Self::nothing()
        }
    }
}

impl Printed for Count {
    const LONGEST: usize = 20;

    ghost LONGEST = { 20 };

    ghost text = { count_text };

    ghost bounded = { λ x. length-decimal-le 20 _ (omega arith) (omega arith) (number x.value).within };

    ghost same = { λ x y e. ap (λ n. decimal n.value) e };

    fn text_len(&self) -> usize {
        number_len(self.value)
    }

    fn write(&self, out: &mut [u8], at: usize) -> Result<usize, OutputRefusal> {
        put_number(out, at, self.value)
    }
}
