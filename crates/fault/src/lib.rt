// What is wrong with one record, by a table and a summary of the records before it.
#![tactic(auto)]

ghost use Rattle.std.specs.Prelude.{◌≡◌, cond, List, ℕ, ◌<◌, ◌≤◌, ◌^◌, ◌+◌, ◌*◌, ◌-◌, eqb, length, get_or};
ghost use Rattle.text.specs.Characters.{IsClassTable};
ghost use Rattle.text.specs.Rules.{must};
ghost use Rattle.record.specs.Records.{fields, field as field_of, IsPart};
ghost use Rattle.record.specs.Step.{IsField};
ghost use Rattle.layout.specs.Layout.{row};
ghost use Rattle.layout.specs.Numbers.{rule_of, rules_from, layout_of};
ghost use Rattle.field.specs.Judge.{number_of, refusal_of};
ghost use Rattle.fault.specs.Fields.{fault_at, field_fault};
ghost use Rattle.number.specs.Numbers.{spelled};
ghost use Rattle.fault.specs.Record.{kind_of, key_in, key_type as key_type_of, keys_in_order, place_fault, key_fault, footer_fault};
ghost use Rattle.fault.specs.Code.{key_in_slots, ShapeRight, ClosedRight, OutcomeRight};

use field::{FieldType, Wrong};
use layout::Rules;
use record::{FieldSpans, Span};
use std::cmp::Ordering;

// What is wrong with a record: the number of the refusal, and the field where it stands, or 0.
#[derive(Clone, Copy)]
pub struct Fault {
    pub number: usize,
    pub field: usize,
}

// A wrong number of fields.
const WRONG_COUNT: Fault = Fault {
    number: 6,
    field: 0,
};

// A summary of the records passed: how many, the kind of the last, and their checksum.
#[derive(Clone, Copy)]
pub struct State {
    pub count: usize,
    pub last: usize,
    pub sum: u32,
}

// A record that passes: the state after it, and the place of its key in it.
#[derive(Clone, Copy)]
pub struct Passed {
    pub next: State,
    pub key: Span,
}

// One field by the rule at place p: 7, 8, 9, 10, or nothing.
#[tactic(auto, using(crate::proofs::Fields::field_by))]
fn judge_field(t: &[u32], fixed: &[u8], class: &[u8; 256], p: usize, s: &[u8]) -> Result<(), Wrong>
    requires { (p + 2 < length t.now) × IsClassTable class.now }
    ensures { refusal_of result ≡ field_fault (rule_of t.now fixed.now p) s.now }
{
    if s.is_empty() {
        if layout::may_be_empty(t, p) {
            return Ok(());
        }
        return Err(Wrong::Missing);
    }
    layout::judge_filled(t, class, p, s)?;
    if !layout::meets_mark(t, fixed, p, s) {
        return Err(Wrong::Fixed);
    }
    Ok(())
}

// The field that is here where it is the one sought, else what was found before.
fn keep(sought: bool, here: Span, before: Span) -> Span
    ensures { result ≡ cond sought here before }
{
    if sought { here } else { before }
}

// A field is wrong, where there should be n of them after the kind: a wrong number of fields comes first.
fn field_wrong(sep: u8, n: usize, wrong: Wrong, field: usize, r: &[u8]) -> Fault
    requires { n + 1 < 2 ^ 64 }
    ensures { result ≡ must (eqb (length (fields sep r.now)) (n + 1)) (fault_at 6 0) (fault_at (number_of wrong) field) }
{
    if record::count_fields(sep, r) != n + 1 {
        return WRONG_COUNT;
    }
    Fault {
        number: usize::from(wrong.number()),
        field: field,
    }
}

// The fields from 2 on by some rules, read as they come, after a kind of three bytes; where all is right, the place of field key.
#[tactic(auto, using(crate::proofs::Fields::reading_over))]
fn judge_fields(
    t: &[u32],
    fixed: &[u8],
    class: &[u8; 256],
    sep: u8,
    rules: Rules,
    key: usize,
    r: &[u8],
) -> Result<Span, Fault>
    requires { (rules.place + 3 * rules.count ≤ length t.now) × IsClassTable class.now × IsField sep r.now 0 0 3 4 }
    ensures { ShapeRight sep key (rules_from t.now fixed.now rules.place rules.count) r.now result }
{
    let mut fields = FieldSpans {
        sep,
        bytes: r,
        at: 4,
    };
    let mut found = keep(
        key == 1,
        Span { start: 0, end: 3 },
        Span { start: 0, end: 0 },
    );
    for f in 0..rules.count {
        let Some(field) = fields.next() else {
            return Err(WRONG_COUNT);
        };
        if let Err(wrong) = judge_field(t, fixed, class, rules.place + 3 * f, field.of(r)) {
            return Err(field_wrong(sep, rules.count, wrong, f + 2, r));
        }
        found = keep(f + 2 == key, field, found);
    }
    match fields.next() {
        Some(_) => Err(WRONG_COUNT),
        None => Ok(found),
    }
}

// The kind of a record by its first field, or 0.
pub fn kind_of(t: &[u32], sep: u8, r: &[u8]) -> usize
    ensures { ((fixed : List ℕ) → result ≡ kind_of sep (layout_of t.now fixed) r.now) × (result ≤ 32) }
{
    match FieldSpans::of(sep, r).next() {
        Some(first) => layout::kind_named(t, first.of(r)),
        None => 0,
    }
}

// The number at j of the slots, or 0 past their end.
fn slot(slots: &[usize], j: usize) -> usize
    ensures { result ≡ get_or slots.now j 0 }
{
    slots.get(j).copied().unwrap_or(0)
}

// The last key of kind k since its set began, from the slots; no bytes where there is none.
#[tactic(auto, using(crate::proofs::Keys::key_since, crate::proofs::Keys::key_anew))]
fn key_before<'a>(t: &[u32], file: &'a [u8], slots: &[usize], k: usize) -> &'a [u8]
    requires { k ≤ 32 }
    ensures { (fixed : List ℕ) → result.now ≡ key_in_slots (layout_of t.now fixed) file.now slots.now k }
{
    if slot(slots, 3 * layout::head_of(t, k)) < slot(slots, 3 * k) {
        return text::part(file, slot(slots, 3 * k + 1), slot(slots, 3 * k + 2));
    }
    text::part(file, 0, 0)
}

// The type of the key field of kind k.
#[tactic(auto, using(crate::proofs::Keys::key_ruled, crate::proofs::Keys::key_unruled))]
fn key_type(t: &[u32], k: usize) -> FieldType
    ensures { (fixed : List ℕ) → result ≡ key_type_of (layout_of t.now fixed) k }
{
    let rules = layout::rules_of(t, k);
    let key = layout::key_field(t, k);
    let f = key.saturating_sub(2);
    if f < rules.count {
        return layout::type_at(t, rules.place + 3 * f);
    }
    FieldType::Null
}

// Two keys of kind k are in order, by where the one before stands.
fn keys_in_order(t: &[u32], k: usize, before: Ordering) -> bool
    ensures { (fixed : List ℕ) → result ≡ keys_in_order (row (layout_of t.now fixed) k).repeats before }
{
    match before {
        Ordering::Less => true,
        Ordering::Equal => layout::may_repeat(t, k),
        Ordering::Greater => false,
    }
}

// 4 and 5: the kind, and its place in the grammar.
#[tactic(auto, unfolding(crate::specs::Record::place_fault))]
fn check_place(t: &[u32], last: usize, k: usize) -> Result<(), Fault>
    ensures { (fixed : List ℕ) → result ≡ place_fault (layout_of t.now fixed) last k }
{
    if k == 0 {
        return Err(Fault {
            number: 4,
            field: 1,
        });
    }
    if !layout::may_follow(t, last, k) {
        return Err(Fault {
            number: 5,
            field: 1,
        });
    }
    Ok(())
}

// 6 to 10: the number of fields, and those from 2 on, of a record whose kind has three bytes; where all is right, the place of the key.
fn check_shape(
    t: &[u32],
    fixed: &[u8],
    class: &[u8; 256],
    sep: u8,
    k: usize,
    r: &[u8],
) -> Result<Span, Fault>
    requires { IsClassTable class.now × IsField sep r.now 0 0 3 4 }
    ensures { (bytes : List ℕ) → ShapeRight sep (row (layout_of t.now bytes) k).key (row (layout_of t.now fixed.now) k).rules r.now result }
{
    let rules = layout::rules_of(t, k);
    let key = layout::key_field(t, k);
    judge_fields(t, fixed, class, sep, rules, key, r)
}

// 11: the key, if the kind has one, is in order with the one before, if there is one.
#[tactic(auto, unfolding(crate::specs::Record::key_fault))]
fn check_key(t: &[u32], file: &[u8], slots: &[usize], k: usize, key: &[u8]) -> Result<(), Fault>
    requires { k ≤ 32 }
    ensures { (fixed : List ℕ) → result ≡ key_fault (layout_of t.now fixed) k (key_in_slots (layout_of t.now fixed) file.now slots.now k) key.now }
{
    let at = layout::key_field(t, k);
    if at == 0 {
        return Ok(());
    }
    let old = key_before(t, file, slots, k);
    if old.len() == 0 {
        return Ok(());
    }
    if keys_in_order(t, k, field::key_order(key_type(t, k), old, key)) {
        return Ok(());
    }
    Err(Fault {
        number: 11,
        field: at,
    })
}

// Field k spells v.
fn says(sep: u8, r: &[u8], k: usize, v: u64) -> bool
    ensures { result ≡ spelled v (field_of sep k r.now) }
{
    match record::field_at(sep, r, k) {
        Some(field) => number::spells(field.of(r), v),
        None => false,
    }
}

// 12 and 13: what a footer says of the records before it.
#[tactic(auto, unfolding(crate::specs::Record::footer_fault))]
fn check_footer(t: &[u32], sep: u8, n: usize, sum: u32, k: usize, r: &[u8]) -> Result<(), Fault>
    requires { n + 1 < 2 ^ 64 }
    ensures { (fixed : List ℕ) → result ≡ footer_fault sep (layout_of t.now fixed) n sum k r.now }
{
    if !layout::is_footer(t, k) {
        return Ok(());
    }
    if !says(sep, r, 2, (n + 1) as u64) {
        return Err(Fault {
            number: 12,
            field: 2,
        });
    }
    if !says(sep, r, 3, sum as u64) {
        return Err(Fault {
            number: 13,
            field: 3,
        });
    }
    Ok(())
}

// A record of kind k that no rule up to 10 refuses, and the place of its key: 11, 12, 13, or the state after it.
#[tactic(auto, unfolding(crate::specs::Code::close_fault))]
fn close_record(
    t: &[u32],
    sep: u8,
    file: &[u8],
    slots: &[usize],
    st: State,
    k: usize,
    key: Span,
    r: &[u8],
) -> Result<Passed, Fault>
    requires { (st.count + 1 < 2 ^ 64) × (k ≤ 32) × ((fixed : List ℕ) → IsPart r.now key.start key.end (key_in sep (layout_of t.now fixed) k r.now)) }
    ensures { (fixed : List ℕ) → ClosedRight sep (layout_of t.now fixed) st (key_in_slots (layout_of t.now fixed) file.now slots.now k) k r.now result }
{
    check_key(t, file, slots, k, &r[key.start..key.end])?;
    check_footer(t, sep, st.count, st.sum, k, r)?;
    let next = State {
        count: st.count + 1,
        last: k,
        sum: checksum::add_line(st.sum, sep, r),
    };
    Ok(Passed { next, key })
}

// One record: table, state and keys before in; the state after, or a refusal, out.
#[tactic(auto, unfolding(crate::specs::Code::record_fault, crate::specs::Record::kind_fault))]
pub fn judge_record(
    t: &[u32],
    fixed: &[u8],
    class: &[u8; 256],
    sep: u8,
    file: &[u8],
    slots: &[usize],
    st: State,
    r: &[u8],
) -> Result<Passed, Fault>
    requires { (st.count + 1 < 2 ^ 64) × IsClassTable class.now }
    ensures { OutcomeRight sep (layout_of t.now fixed.now) st (key_in_slots (layout_of t.now fixed.now) file.now slots.now) r.now result }
{
    if 512 < r.len() {
        return Err(Fault {
            number: 3,
            field: 0,
        });
    }
    let k = kind_of(t, sep, r);
    check_place(t, st.last, k)?;
    let key = check_shape(t, fixed, class, sep, k, r)?;
    close_record(t, sep, file, slots, st, k, key, r)
}
