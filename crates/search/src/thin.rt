// Makes reasons small: values are taken out of the table one at a time as long as the rule still says the same, so that what is
// learnt leaves out picks and decisions that had no part.
ghost use Rattle.std.specs.Prelude.{◌≡◌, true, length, take};
ghost use Rattle.builds.specs.Values.{up_to};
ghost use Rattle.bank.specs.Marking.{Ready};
ghost use Rattle.search.specs.Reason.{Repeats, Inside, Fewer};

use crate::propagate::Finding;
use bank::refusal::Answer;
use bank::rule_bank::RuleBank;
use option_set::OptionSet;

// Whether the rule says what was found also at these values.
fn repeats<B: RuleBank>(b: &B, rule: usize, finding: Finding, values: &[u8; 128]) -> bool
    ensures { Ready (B.meaning b.now).width (B.meaning b.now).rules rule values.now 128 → Inside (B.meaning b.now).width finding → result ≡ true
        → Repeats ((B.meaning b.now).says rule (take (B.meaning b.now).width values.now)) finding }
{
    let mut marks = [2u8; 128];
    let answer = b.mark(rule, values, &mut marks);
    match finding {
        Finding::Dead => answer == Ok(Answer::Dead),
        Finding::Marks(mark) => {
            answer == Ok(Answer::Live) && marks.get(mark.option) == Some(&(mark.value as u8))
        }
    }
}

// The table without this value at the options that the rule reads.
fn without(table: [u8; 128], reads: OptionSet, value: u8) -> [u8; 128]
    requires { length table ≡ 128 }
    ensures long { length result ≡ 128 }
    ensures small { up_to 2 table ≡ true → up_to 2 result ≡ true }
    ensures fewer { Fewer table result }
{
    let mut fewer = table;
    for option in 0..128 {
        if reads.contains(option) && table[option] == value {
            fewer[option] = 2;
        }
    }
    fewer
}

// The table with as few of the values that the rule reads as it needs to say what was found. All options that are left out are tried
// at once, then all that are taken, since a group needs one kind alone; then the others one by one.
pub(crate) fn thin<B: RuleBank>(
    b: &B,
    rule: usize,
    finding: Finding,
    reads: OptionSet,
    values: [u8; 128],
) -> [u8; 128]
    requires { length values ≡ 128 }
    ensures long { length result ≡ 128 }
    ensures small { up_to 2 values ≡ true → up_to 2 result ≡ true }
    ensures fewer { Fewer values result }
    ensures same { Ready (B.meaning b.now).width (B.meaning b.now).rules rule values 128 → up_to 2 values ≡ true → Inside (B.meaning b.now).width finding
        → Repeats ((B.meaning b.now).says rule (take (B.meaning b.now).width values)) finding → Repeats ((B.meaning b.now).says rule (take (B.meaning b.now).width result)) finding }
{
    let mut table = values;
    for value in 0..2 {
        let fewer = without(table, reads, value);
        if repeats(b, rule, finding, &fewer) {
            table = fewer;
        }
    }
    for option in 0..128 {
        if reads.contains(option) && table[option] < 2 {
            let mut fewer = table;
            fewer[option] = 2;
            if repeats(b, rule, finding, &fewer) {
                table = fewer;
            }
        }
    }
    table
}
