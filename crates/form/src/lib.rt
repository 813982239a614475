// Whether a text is of the form of a job text, and else the place where it stops being so. What is read later is only read of texts of the form.
#![tactic(auto)]

use machine::State;

mod keys; // keys.rt: a key while it is read
mod machine; // machine.rt: the machine that takes a text byte by byte
mod order; // order.rt: which sections may follow which

ghost use Rattle.form.specs.Promises.{Told};

// Tells whether a text is of the form, and else the place where it stops: the first byte after which nothing could make it a text of the form, or
// the text's length if it ends too early.
pub fn form(text: &[u8]) -> Result<(), usize>
    ensures { Told text.now result }
{
    let mut state = State::BEGIN;
    for (i, byte) in text.iter().enumerate() {
        state = machine::step(state, *byte);
        if let State::Wrong = state {
            return Err(i);
        }
    }
    if let State::Done = state {
        Ok(())
    } else {
        Err(text.len())
    }
}
