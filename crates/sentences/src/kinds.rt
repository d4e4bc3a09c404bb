// The kinds of a flow, and which may stand where.
use stream::{Unwritten, print};

// The names of the kinds in a set of them.
pub fn say_kinds(rt: &(impl Print + Eprint), t: &[u32], set: usize) -> Result<(), Unwritten> {
    let rows = layout::row_count(t);
    for k in 1..rows {
        if layout::among(k, set) {
            print(rt, b" ")?;
            print(rt, &layout::name_of(t, k))?;
        }
    }
    Ok(())
}

// The kinds that may follow a kind.
pub fn say_followers(rt: &(impl Print + Eprint), t: &[u32], kind: usize) -> Result<(), Unwritten> {
    let set = layout::followers(t, kind);
    if set == 0 {
        return print(rt, b"; nothing may stand here");
    }
    print(rt, b"; here may stand:")?;
    say_kinds(rt, t, set)
}
