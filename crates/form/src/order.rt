// Which sections of a text may follow which.
ghost use Rattle.std.specs.Prelude.{◌≡◌};
ghost use Rattle.form.specs.Order.{follows as may_follow, likely as likely_behind};

use naming::sections::Section;

// Whether a line of the section may stand behind one of another, or first in the text where there is none.
pub fn follows(behind: Option<Section>, section: Section) -> bool
    ensures { result ≡ may_follow behind section }
{
    match behind {
        None => matches!(section, Section::Columns),
        Some(Section::Columns | Section::Forbid) => !matches!(section, Section::Columns),
        Some(Section::Need) => matches!(section, Section::Need | Section::End),
        Some(Section::End) => false,
    }
}

// The section whose key is tried first behind a line of this one: one that may follow, and often does.
pub fn likely(before: Section) -> Section
    ensures { result ≡ likely_behind before }
{
    match before {
        Section::Columns | Section::Forbid => Section::Forbid,
        Section::Need => Section::Need,
        Section::End => Section::End,
    }
}
