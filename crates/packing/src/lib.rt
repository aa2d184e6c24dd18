// An answer as one number, for callers from other languages.
// `as` from `usize` to `u64`: std has no `From` there, and the check proves that nothing is lost.
#![tactic(auto)]

ghost use Rattle.std.specs.Prelude.{◌≡◌, ◌<◌, ◌^◌};
ghost use Rattle.answers.specs.Answers.{value_of};
ghost use Rattle.packing.specs.Packed.{packed};

use answers::Answer;

// What the number of a refusal is times.
const NUMBERS: u64 = 1 << 32;

// The count of an accepted answer; the number times 2^32 and the place of a refused one.
pub fn pack(answer: Answer) -> u64
    requires { value_of answer < 2 ^ 32 }
    ensures { result ≡ packed answer }
{
    match answer {
        Answer::Accepted(count) => count as u64,
        Answer::Refused(number, place) => u64::from(number) * NUMBERS + place as u64,
    }
}
