// Worked cases: examples of the rules, all proved at once.
#![tactic(auto)]

ghost use Rattle.std.specs.Prelude.{◌≡◌};
ghost use Rattle.cases.specs.Worked.{AllHold, worked_cases, how_many};

// How many worked cases there are. All of them hold.
pub fn worked_cases() -> usize
    ensures hold { AllHold worked_cases }
    ensures count { result ≡ how_many worked_cases }
{
    17
}
