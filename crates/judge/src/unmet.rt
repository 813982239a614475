// The fault of a need that no extract meets.
ghost use Rattle.std.specs.Prelude.{◌≡◌, List, length};
ghost use Rattle.rules.specs.Options.{Some};
ghost use Rattle.rules.specs.Needs.{Need};
ghost use Rattle.rules.specs.Marks.{need_of, before_end};
ghost use Rattle.rules.specs.Splits.{met};
ghost use Rattle.rules.specs.Verdicts.{first_unmet};
ghost use Rattle.job.specs.Rows.{StandFor};

use job::rows::MOST_NEED_MARKS;

// Whether an extract meets the need of a row.
fn need_met(row: &[u16; MOST_NEED_MARKS], split: &[u16]) -> bool
    ensures { (v : Need) → need_of (before_end row.now) ≡ Some v → result ≡ met split.now v }
{
    split.iter().any(|extract| needs::meets(row, *extract))
}

// The first of the needs, each in its row, that no extract meets. A row is copied where it is evaluated: over lent rows, as position would take them,
// the judge takes a sixteenth longer.
pub fn first_unmet(rows: &[[u16; MOST_NEED_MARKS]], split: &[u16]) -> Option<usize>
    ensures { (needs : List Need) → length needs ≡ length rows.now → StandFor rows.now needs → result ≡ first_unmet needs split.now }
{
    for (k, row) in rows.iter().enumerate() {
        let row = *row;
        if !need_met(&row, split) {
            return Some(k);
        }
    }
    None
}
