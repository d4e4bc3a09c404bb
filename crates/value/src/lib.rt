// The value of one field of a file.
#![tactic(auto)]

ghost use Rattle.std.specs.Prelude.{◌≡◌, List, ℕ, ◌≤◌};
ghost use Rattle.layout.specs.Numbers.{layout_of};
ghost use Rattle.flow.specs.Editions.{asked};
ghost use Rattle.value.specs.Value.{rule_for, by_rule, as_value, value_at, value_by, valued, paper, TextWithin};

use field::{Content, FieldType, Mark, Wrong};
use place::Refusal;
use record::BAR;

// The value of a field. A text's value is where its bytes start and end in the file.
#[derive(Clone, Copy, Debug, PartialEq, Eq)]
pub enum Value {
    Empty,
    Number(i64),
    Truth(bool),
    Text { from: usize, to: usize },
}

// Field k, past the kind, of a record of kind j, by its rule.
fn answer_by(t: &[u32], fixed: &[u8], j: usize, k: usize, s: &[u8]) -> Result<Content, Wrong>
    requires { 2 ≤ k }
    ensures { result ≡ by_rule (rule_for (layout_of t.now fixed.now) j k) s.now }
{
    let class = text::class_table();
    let rules = layout::rules_of(t, j);
    if rules.count <= k - 2 {
        return field::judge_marked(FieldType::Null, Mark::Bare, fixed, &class, s);
    }
    let p = rules.place + 3 * (k - 2);
    let kind = layout::type_at(t, p);
    let mark = layout::mark_at(t, p);
    let value = layout::fixed_at(t, fixed, p);
    field::judge_marked(kind, mark, value, &class, s)
}

// The answer of field k of record n, which stands from `from` up to `to`, as a value. A refusal comes as its number, any number.
pub fn as_value(
    a: Result<Content, u8>,
    n: usize,
    k: usize,
    from: usize,
    to: usize,
) -> Result<Value, Refusal>
    ensures { result ≡ as_value n k from to a }
{
    match a {
        Err(number) => Err(Refusal {
            number: number as usize,
            record: n,
            field: k,
            place: from,
        }),
        Ok(Content::Empty) => Ok(Value::Empty),
        Ok(Content::Number(z)) => Ok(Value::Number(z)),
        Ok(Content::Truth(b)) => Ok(Value::Truth(b)),
        Ok(Content::Text) => Ok(Value::Text { from, to }),
    }
}

// Field k of record n of an accepted file by a table: 18 where there is none, a kind's bytes, or its value by its rule.
fn value_at(t: &[u32], fixed: &[u8], f: &[u8], n: usize, k: usize) -> Result<Value, Refusal>
    ensures { result ≡ value_at (layout_of t.now fixed.now) f.now n k }
{
    let Some(record) = record::record_at(f, n) else {
        return Err(place::at(BAR, f, 18, n, k));
    };
    let r = record.of(f);
    let Some(field) = record::field_at(BAR, r, k) else {
        return Err(place::at(BAR, f, 18, n, k));
    };
    let from = record.start + field.start;
    let to = record.start + field.end;
    if k == 1 {
        return Ok(Value::Text { from, to });
    }
    let j = fault::kind_of(t, BAR, r);
    let answer = answer_by(t, fixed, j, k, field.of(r));
    as_value(answer.map_err(|wrong| wrong.number()), n, k, from, to)
}

// Field k of record n of a file by a table: the reader's refusals, then what follows of an accepted file.
fn value_by(t: &[u32], fixed: &[u8], f: &[u8], n: usize, k: usize) -> Result<Value, Refusal>
    ensures { result ≡ value_by (layout_of t.now fixed.now) f.now n k }
{
    judge::judge_by(t, fixed, f)?;
    value_at(t, fixed, f, n, k)
}

// The value of field k of record n of a file for the flow that the words ask for. Any words, any bytes, any numbers.
pub fn value_of(flow: &[u8], f: &[u8], n: usize, k: usize) -> Result<Value, Refusal>
    ensures { (paper f.now result ≡ valued (asked flow.now) f.now n k) × TextWithin f.now result }
{
    let table = flow::table_of(flow::find(flow)?);
    value_by(&table.numbers, &table.fixed, f, n, k)
}
