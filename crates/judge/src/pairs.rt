// The faults that take two indices.
ghost use Rattle.std.specs.Prelude.{◌≡◌};
ghost use Rattle.rules.specs.Lists.{first_where};
ghost use Rattle.rules.specs.Jobs.{Job, breaks as breaks_in, unlinked as unlinked_in};
ghost use Rattle.rules.specs.Verdicts.{first_forbidden, first_sharing};
ghost use Rattle.judge.specs.Answers.{places_of};

use columns::ColumnSet;

// Whether an extract breaks a forbidden set.
fn breaks(extract: u16, forbidden: u16) -> bool
    ensures { (job : Job) → result ≡ breaks_in job extract forbidden }
{
    (ColumnSet { bits: extract }).contains(ColumnSet { bits: forbidden })
}

// Whether two extracts share no column.
fn unlinked(one: u16, other: u16) -> bool
    ensures { (job : Job) → result ≡ unlinked_in job one other }
{
    (ColumnSet { bits: one }).apart(ColumnSet { bits: other })
}

// The first forbidden set that an extract breaks.
fn first_broken(extract: u16, forbidden: &[u16]) -> Option<usize>
    ensures { (job : Job) → result ≡ first_where (breaks_in job extract) forbidden.now }
{
    forbidden.iter().position(|set| breaks(extract, *set))
}

// The first extract that breaks a forbidden set, and the first such set.
pub fn first_forbidden(forbidden: &[u16], split: &[u16]) -> Option<(usize, usize)>
    ensures { (job : Job) → job.forbidden ≡ forbidden.now → places_of result ≡ first_forbidden job split.now }
{
    for (i, extract) in split.iter().enumerate() {
        if let Some(j) = first_broken(*extract, forbidden) {
            return Some((i, j));
        }
    }
    None
}

// The first extract that shares a column with a later one, and the first such one. 01 names this search: pairs, one loop within the other, left by a
// label at the first that shares.
pub fn first_sharing(split: &[u16]) -> Option<(usize, usize)>
    ensures { (job : Job) → places_of result ≡ first_sharing job split.now }
{
    let mut found = None;
    'search: for i in 0..split.len() {
        for j in i + 1..split.len() {
            if !unlinked(split[i], split[j]) {
                found = Some((i, j));
                break 'search;
            }
        }
    }
    found
}
