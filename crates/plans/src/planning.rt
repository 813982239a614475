// One call of the planner and its line: the case, the answer, and what every place of the lent slice holds after it.
ghost use Rattle.std.specs.Prelude.{◌≤◌};

use job::Numbers;
use std::io;
use worked::lent::Lent;
use worked::numbers::in_numbers;

// The slice that is lent to the planner. No split of these cases has an extract of the number that it holds before.
pub type Extracts = Lent<16, 60000>;

// With a slice that is just long enough.
pub fn plan(rt: &impl Print, case: &str, numbers: Numbers) -> io::Result<()> {
    plan_within(rt, case, numbers, 8)
}

// With a slice of this length.
pub fn plan_within(rt: &impl Print, case: &str, numbers: Numbers, room: usize) -> io::Result<()>
    requires { room ≤ 16 }
{
    let mut extracts = Extracts::new(room);
    let planned = planner::plan(numbers, extracts.as_mut_slice());
    let (refusal, count) = in_numbers(planned, 0);
    print!(rt; "{case}: refusal {refusal}, count {count}, slice")?;
    for place in extracts.as_slice() {
        print!(rt; " {place}")?;
    }
    println!(rt; "")
}
