// The sentence on one field's bytes.
use crate::{form, refusals, say};
use field::{FieldType, Mark};
use stream::{Unwritten, print};

// The rule of a refusal, and what was found; for a width, the rule of its type alone.
fn rule_and_found(
    rt: &(impl Print + Eprint),
    form: FieldType,
    bytes: &[u8],
    number: usize,
) -> Result<(), Unwritten> {
    if number == 18 {
        return form::width_words(rt, form);
    }
    refusals::rule(rt, number)?;
    say::found_field(rt, bytes)
}

// The sentence on bytes that were refused by a type and its mark.
pub fn about_field(
    rt: &(impl Print + Eprint),
    form: FieldType,
    mark: Mark,
    fixed: &[u8],
    bytes: &[u8],
    number: usize,
) -> Result<(), Unwritten> {
    print(rt, b"The rule: ")?;
    rule_and_found(rt, form, bytes, number)?;
    form::right_field(rt, number, form, mark, fixed, bytes)?;
    print(rt, b".\n")
}
