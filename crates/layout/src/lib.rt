// A flow as numbers and bytes that are lent, and what is read from them. Nothing is required of a table: any numbers are some layout.
#![tactic(auto)]

ghost use Rattle.std.specs.Prelude.{◌≡◌, ℕ, ◌<◌, ◌≤◌, ◌^◌, ◌+◌, ◌-◌, min, List, length};
ghost use Rattle.text.specs.Characters.{IsClassTable};
ghost use Rattle.field.specs.Judge.{marked, meets_mark};
ghost use Rattle.field.specs.Types.{Sound};
ghost use Rattle.layout.specs.Layout.{row, among as among_of, may_follow, kind_named, is_footer};
ghost use Rattle.layout.specs.Leaves.{may_be_empty_by, filled_by};
ghost use Rattle.layout.specs.Numbers.{word as word_of, type_of, rule_of, fixed_of, layout_of, row_word, row_count, name_of, RulesOf};

use field::{Content, FieldType, Mark, Wrong};

// The number at i.
fn word(t: &[u32], i: usize) -> usize
    requires { i < length t.now }
    ensures { (result ≡ word_of t.now i) × (result < 2 ^ 32) }
{
    t[i] as usize
}

// The number at i, or 0 past the end.
fn word_or_zero(t: &[u32], i: usize) -> usize
    ensures { (result ≡ word_of t.now i) × (result < 2 ^ 32) }
{
    match t.get(i) {
        Some(number) => *number as usize,
        None => 0,
    }
}

// How many rows there are: the start and the kinds.
pub fn row_count(t: &[u32]) -> usize
    ensures { result ≡ row_count t.now }
{
    word_or_zero(t, 0)
        .min(33)
        .min(t.len().saturating_sub(2) / 6)
}

// Number j of row k, or 0 where there is no such row.
fn row_word(t: &[u32], k: usize, j: usize) -> usize
    requires { j < 6 }
    ensures { (result ≡ row_word t.now k j) × (result < 2 ^ 32) }
{
    if row_count(t) <= k {
        return 0;
    }
    word(t, k * 6 + 2 + j)
}

// Kind k is in the set.
#[tactic(auto, unfolding(crate::specs::Layout::among))]
pub fn among(k: usize, set: usize) -> bool
    ensures { result ≡ among_of k set }
{
    1 <= k && k <= 32 && (set >> (k - 1)) & 1 == 1
}

// The set of the kinds that may follow kind k.
#[tactic(auto, using(crate::proofs::Rows::next_is))]
pub fn followers(t: &[u32], k: usize) -> usize
    ensures { ((bytes : List ℕ) → result ≡ (row (layout_of t.now bytes) k).next) × (result < 2 ^ 32) }
{
    row_word(t, k, 1)
}

// Kind k may follow kind last (0: may come first).
#[tactic(auto, using(crate::proofs::Rows::next_is))]
pub fn may_follow(t: &[u32], last: usize, k: usize) -> bool
    ensures { (bytes : List ℕ) → result ≡ may_follow (layout_of t.now bytes) last k }
{
    among(k, row_word(t, last, 1))
}

// The key field of kind k, or 0.
#[tactic(auto, using(crate::proofs::Rows::key_is))]
pub fn key_field(t: &[u32], k: usize) -> usize
    ensures { ((bytes : List ℕ) → result ≡ (row (layout_of t.now bytes) k).key) × (result < 1024) }
{
    row_word(t, k, 4) % 1024
}

// A key of kind k may be equal to the one before.
#[tactic(auto, using(crate::proofs::Rows::repeats_is))]
pub fn may_repeat(t: &[u32], k: usize) -> bool
    ensures { (bytes : List ℕ) → result ≡ (row (layout_of t.now bytes) k).repeats }
{
    row_word(t, k, 4) / 1024 == 1
}

// The kind that heads the set in which kind k stands, or 0 where it stands in none.
#[tactic(auto, using(crate::proofs::Rows::head_is))]
pub fn head_of(t: &[u32], k: usize) -> usize
    ensures { ((bytes : List ℕ) → result ≡ (row (layout_of t.now bytes) k).head) × (result < 2 ^ 32) }
{
    row_word(t, k, 5)
}

// The footer's line feed is needed.
#[tactic(auto, unfolding(crate::specs::Numbers::layout_of))]
pub fn needs_feed(t: &[u32]) -> bool
    ensures { (bytes : List ℕ) → result ≡ (layout_of t.now bytes).feed }
{
    word_or_zero(t, 1) == 1
}

// Kind k is the footer, which is the last row.
#[tactic(auto, using(crate::proofs::Rows::footer_is))]
pub fn is_footer(t: &[u32], k: usize) -> bool
    ensures { (bytes : List ℕ) → result ≡ is_footer (layout_of t.now bytes) k }
{
    1 <= k && row_count(t).saturating_sub(1) == k
}

// The kind of this name, or 0, as row 0 of a table is no kind: a name of three bytes is compared as one number.
#[tactic(auto, using(crate::proofs::Names::find_long, crate::proofs::Names::find_here, crate::proofs::Names::find_next, crate::proofs::Names::find_end))]
pub fn kind_named(t: &[u32], name: &[u8]) -> usize
    ensures { ((bytes : List ℕ) → result ≡ kind_named (layout_of t.now bytes) name.now) × (result ≤ 32) }
{
    let [first, second, third] = name else {
        return 0;
    };
    let spelled = usize::from(*first) * 65536 + usize::from(*second) * 256 + usize::from(*third);
    for k in 1..row_count(t) {
        if word(t, k * 6 + 2) % 16777216 == spelled {
            return k;
        }
    }
    0
}

// The three bytes of the name of kind k, zeros where there is no such kind.
pub fn name_of(t: &[u32], k: usize) -> [u8; 3]
    ensures { result ≡ name_of (row_word t.now k 0) }
{
    let w = row_word(t, k, 0);
    [
        (w / 65536 % 256) as u8,
        (w / 256 % 256) as u8,
        (w % 256) as u8,
    ]
}

// Where the rules of a kind stand among the numbers, and how many there are.
#[derive(Clone, Copy)]
pub struct Rules {
    pub place: usize,
    pub count: usize,
}

#[tactic(auto, using(crate::proofs::Rows::rules_are))]
pub fn rules_of(t: &[u32], k: usize) -> Rules
    ensures { (bytes : List ℕ) → RulesOf t.now bytes k result.place result.count }
{
    let p = row_word(t, k, 2).min(t.len());
    let n = row_word(t, k, 3).min((t.len() - p) / 3);
    Rules { place: p, count: n }
}

// The type of the rule at p.
#[tactic(auto, unfolding(crate::specs::Numbers::type_of))]
pub fn type_at(t: &[u32], p: usize) -> FieldType
    requires { p < length t.now }
    ensures { (result ≡ type_of (word_of t.now p)) × Sound result }
{
    let w = word(t, p);
    let n = w / 8 % 1024;
    match w % 8 {
        0 => FieldType::Text(n),
        1 => FieldType::Int(n.min(18)),
        2 => FieldType::Dec(n.min(18), w / 8192 % 32),
        3 => FieldType::Date,
        4 => FieldType::Datetime,
        5 => FieldType::Bol,
        6 => FieldType::Period,
        _ => FieldType::Null,
    }
}

// The mark of the rule at p; the bytes of a fixed value are those of fixed_at.
#[tactic(auto, unfolding(crate::specs::Numbers::rule_of, crate::specs::Numbers::mark_of))]
pub fn mark_at(t: &[u32], p: usize) -> Mark
    requires { p + 2 < length t.now }
    ensures { (bytes : List ℕ) → marked result (fixed_of t.now bytes p) ≡ (rule_of t.now bytes p).mark }
{
    match word(t, p + 1) % 4 {
        1 => Mark::Opt,
        2 => Mark::Fixed,
        _ => Mark::Bare,
    }
}

// The bytes of the fixed value of the rule at p.
#[tactic(auto, unfolding(crate::specs::Numbers::fixed_of))]
pub fn fixed_at<'a>(t: &[u32], bytes: &'a [u8], p: usize) -> &'a [u8]
    requires { p + 2 < length t.now }
    ensures { result.now ≡ fixed_of t.now bytes.now p }
{
    let n = word(t, p + 1) / 4 % 1024;
    text::part(bytes, word(t, p + 2), n)
}

// An empty field may stand under the rule at p: its type is null, or its mark is opt.
#[tactic(auto, unfolding(crate::specs::Numbers::rule_of, crate::specs::Numbers::mark_of, crate::specs::Numbers::type_of))]
pub fn may_be_empty(t: &[u32], p: usize) -> bool
    requires { p + 2 < length t.now }
    ensures { (bytes : List ℕ) → result ≡ may_be_empty_by (rule_of t.now bytes p) }
{
    word(t, p) % 8 == 7 || word(t, p + 1) % 4 == 1
}

// A filled field by the type of the rule at p, its mark aside. The type's number leads straight to its rule: by way of a FieldType
// each field would cost one more jump.
#[tactic(auto, unfolding(crate::specs::Numbers::rule_of, crate::specs::Numbers::type_of))]
pub fn judge_filled(t: &[u32], class: &[u8; 256], p: usize, s: &[u8]) -> Result<Content, Wrong>
    requires { (p + 2 < length t.now) × IsClassTable class.now }
    ensures { (bytes : List ℕ) → result ≡ filled_by (rule_of t.now bytes p) s.now }
{
    let w = word(t, p);
    let n = w / 8 % 1024;
    match w % 8 {
        0 => field::judge_text(class, s, n),
        1 => field::judge_int(s, n.min(18)),
        2 => field::judge_dec(s, n.min(18), w / 8192 % 32),
        3 => field::judge_date(s),
        4 => field::judge_datetime(s),
        5 => field::judge_bol(s),
        6 => field::judge_period(s),
        _ => Err(Wrong::Fixed),
    }
}

// A field meets the mark of the rule at p: a fixed value is compared as bytes.
#[tactic(auto, unfolding(crate::specs::Numbers::rule_of, crate::specs::Numbers::mark_of))]
pub fn meets_mark(t: &[u32], bytes: &[u8], p: usize, s: &[u8]) -> bool
    requires { p + 2 < length t.now }
    ensures { result ≡ meets_mark (rule_of t.now bytes.now p).mark s.now }
{
    word(t, p + 1) % 4 != 2 || text::same_bytes(fixed_at(t, bytes, p), s)
}
