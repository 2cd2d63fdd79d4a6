// The values of a program's terms, written to a store.

ghost use Rattle.std.specs.Prelude.{◌≡◌, ◌+◌, ◌-◌, ◌*◌, ◌≤◌, ◌<◌, List, [], ◌∷◌, All, MatchResult, IfOk, OnOk, map, length, take, drop, slice_get};
ghost use Rattle.dg_base.specs.declared.program.Term.{out-Term};
ghost use Rattle.dg_base.specs.declared.program.Term.TheVariants.{Closure as ClosureTerm};
ghost use Rattle.dg_base.specs.Terms.{nodes};
ghost use Rattle.dg_base.specs.declared.program.CoreProgram.{CoreProgram as Program};
ghost use Rattle.dg_meaning.specs.Values.{value_of, value_of_var as value_in};
ghost use Rattle.dg_meaning.specs.Cells.{cells};
ghost use Rattle.dg_unify.specs.Store.{Saved, told, Holds, Kept, Made};
ghost use Rattle.dg_terms.specs.Terms.{Overflows, BothMade, ThreeMade, Written, MadeVars, IsNoPair, captured_in, listed, HeadsWritten};

use dg_base::{CoreProgram, Simple, Term};
use dg_unify::{Bindings, Full, Ref};

// A list that is being written: where its elements begin on the stack, and what is left of it.
#[derive(Clone, Copy)]
struct Open<'t> {
    height: usize,
    left: &'t Term,
}

/// The value of a variable; one without a value is the empty list.
pub fn write_var<B: Bindings>(store: &mut B, env: &[Ref], var: u16) -> Result<Ref, Full>
    requires { All (Holds (B.meaning store.old)) env.now }
    ensures kept { Kept (B.meaning store.old) (B.meaning store.new) }
    ensures saved { (ms : List Saved) → B.saves store.old ms → B.saves store.new ms }
    ensures written { MatchResult result (λ r. Made 0 (B.meaning store.old) (B.meaning store.new) r
        (value_in (map (told (B.meaning store.old)) env.now) var)) (λ e. Overflows 0 (B.meaning store.old) e) }
{
    match env.get(var as usize) {
        Some(value) => Ok(*value),
        None => store.value(Simple::Nil),
    }
}

// The variables that the closure of a place captures.
fn captured(program: &CoreProgram, place: u16) -> &[u16]
    ensures { result.now ≡ captured_in (slice_get program.now.closures place) }
{
    match program.closures.get(place as usize) {
        Some(closure) => closure.captured.as_slice(),
        None => &[],
    }
}

// Puts the values of variables behind a list, in order.
fn write_vars<B: Bindings>(
    store: &mut B,
    env: &[Ref],
    vars: &[u16],
    to: &mut Vec<Ref>,
) -> Result<(), Full>
    requires { All (Holds (B.meaning store.old)) env.now }
    ensures kept { Kept (B.meaning store.old) (B.meaning store.new) }
    ensures saved { (ms : List Saved) → B.saves store.old ms → B.saves store.new ms }
    ensures written { MatchResult result
        (λ _. Written 0 (map (value_in (map (told (B.meaning store.old)) env.now)) vars.now) (B.meaning store.old) (B.meaning store.new)
        to.old.items to.new.items)
        (λ e. Overflows 0 (B.meaning store.old) e) }
{
    'vars: for var in vars {
        match write_var(store, env, *var) {
            Err(e) => return Err(e),
            Ok(value) => {
                if to.push(value).is_err() {
                    return Err(Full::OutOfMemory);
                }
            }
        }
    }
    Ok(())
}

// The closure of a place, with the values that it captures. On a stack it keeps them meanwhile.
fn write_closure<B: Bindings>(
    store: &mut B,
    program: &CoreProgram,
    env: &[Ref],
    place: u16,
    stack: &mut Vec<Ref>,
) -> Result<Ref, Full>
    requires { All (Holds (B.meaning store.old)) env.now }
    ensures kept { Kept (B.meaning store.old) (B.meaning store.new) }
    ensures saved { (ms : List Saved) → B.saves store.old ms → B.saves store.new ms }
    ensures written { (p : Program) → program.now ≡ p → MatchResult result
        (λ r. Made (cells p (ClosureTerm place ∷ [])) (B.meaning store.old) (B.meaning store.new) r
        (value_of p (map (told (B.meaning store.old)) env.now) (ClosureTerm place)))
        (λ e. Overflows (cells p (ClosureTerm place ∷ [])) (B.meaning store.old) e) }
    ensures stack { OnOk result (stack.new.items ≡ stack.old.items) }
{
    let vars = captured(program, place);
    if vars.len() > 65535 {
        return Err(Full::OutOfMemory);
    }
    let height = stack.len();
    match write_vars(store, env, vars, stack) {
        Err(e) => Err(e),
        Ok(()) => match store.closure(place, &stack[height..]) {
            Err(e) => Err(e),
            Ok(closure) => {
                stack.truncate(height);
                Ok(closure)
            }
        },
    }
}

// The value of a term without parts.
fn write_leaf<B: Bindings>(
    store: &mut B,
    program: &CoreProgram,
    env: &[Ref],
    term: &Term,
    stack: &mut Vec<Ref>,
) -> Result<Ref, Full>
    requires env { All (Holds (B.meaning store.old)) env.now }
    requires no_pair { IsNoPair (out-Term term.now) }
    ensures kept { Kept (B.meaning store.old) (B.meaning store.new) }
    ensures saved { (ms : List Saved) → B.saves store.old ms → B.saves store.new ms }
    ensures written { (p : Program) → program.now ≡ p → MatchResult result
        (λ r. Made (cells p (term.now ∷ [])) (B.meaning store.old) (B.meaning store.new) r
        (value_of p (map (told (B.meaning store.old)) env.now) term.now)) (λ e. Overflows (cells p (term.now ∷ [])) (B.meaning store.old) e) }
    ensures stack { OnOk result (stack.new.items ≡ stack.old.items) }
{
    match term {
        Term::Num(n) => store.value(Simple::Num(*n)),
        Term::Word(n) => store.value(Simple::Word(*n)),
        Term::Object(n) => store.value(Simple::Object(*n)),
        Term::Nil => store.value(Simple::Nil),
        Term::Var(var) => write_var(store, env, *var),
        Term::Closure(place) => write_closure(store, program, env, *place, stack),
        Term::Pair(_, _) => unreachable!(),
    }
}

// Writes the first elements of a term, up to one that is a list itself, behind a list; what is left begins with that one.
fn write_heads<'t, B: Bindings>(
    store: &mut B,
    program: &CoreProgram,
    env: &[Ref],
    term: &'t Term,
    to: &mut Vec<Ref>,
) -> Result<&'t Term, Full>
    requires env { All (Holds (B.meaning store.old)) env.now }
    ensures kept { Kept (B.meaning store.old) (B.meaning store.new) }
    ensures saved { (ms : List Saved) → B.saves store.old ms → B.saves store.new ms }
    ensures written { (p : Program) → program.now ≡ p → MatchResult result
        (λ last. HeadsWritten p (map (told (B.meaning store.old)) env.now) term.now last.now (B.meaning store.old)
        (B.meaning store.new) to.old.items to.new.items) (λ e. Overflows (cells p (term.now ∷ [])) (B.meaning store.old) e) }
    ensures no_more { IfOk result (λ last. length (nodes last.now) ≤ length (nodes term.now)) }
{
    let mut term = term;
    'heads: while let Term::Pair(head, tail) = term {
        let head = head.get();
        if let Term::Pair(_, _) = head {
            return Ok(term);
        }
        match write_leaf(store, program, env, head, to) {
            Err(e) => return Err(e),
            Ok(value) => {
                if to.push(value).is_err() {
                    return Err(Full::OutOfMemory);
                }
                term = tail.get();
            }
        }
    }
    Ok(term)
}

/// Makes the list of the elements from a height on, with a tail, and takes them away.
pub fn write_pairs<B: Bindings>(
    store: &mut B,
    from: &mut Vec<Ref>,
    height: usize,
    tail: Ref,
) -> Result<Ref, Full>
    requires height { height ≤ length from.old.items }
    requires heads { All (Holds (B.meaning store.old)) (drop height from.old.items) }
    requires tail { Holds (B.meaning store.old) tail }
    ensures kept { Kept (B.meaning store.old) (B.meaning store.new) }
    ensures saved { (ms : List Saved) → B.saves store.old ms → B.saves store.new ms }
    ensures written { MatchResult result (λ r. Made (3 * (length from.old.items - height)) (B.meaning store.old) (B.meaning store.new) r
        (listed (map (told (B.meaning store.old)) (drop height from.old.items)) (told (B.meaning store.old) tail)))
        (λ e. Overflows (3 * (length from.old.items - height)) (B.meaning store.old) e) }
    ensures taken { OnOk result (from.new.items ≡ take height from.old.items) }
{
    let mut list = tail;
    'heads: while from.len() > height {
        let Some(head) = from.pop() else {
            unreachable!();
        };
        match store.pair(head, list) {
            Err(e) => return Err(e),
            Ok(longer) => list = longer,
        }
    }
    Ok(list)
}

// The list of the elements from a height on, whose tail is the value of a term without parts.
fn end_list<B: Bindings>(
    store: &mut B,
    program: &CoreProgram,
    env: &[Ref],
    last: &Term,
    stack: &mut Vec<Ref>,
    height: usize,
) -> Result<Ref, Full>
    requires env { All (Holds (B.meaning store.old)) env.now }
    requires no_pair { IsNoPair (out-Term last.now) }
    requires height { height ≤ length stack.old.items }
    requires heads { All (Holds (B.meaning store.old)) (drop height stack.old.items) }
    ensures kept { Kept (B.meaning store.old) (B.meaning store.new) }
    ensures saved { (ms : List Saved) → B.saves store.old ms → B.saves store.new ms }
    ensures written { (p : Program) → program.now ≡ p → MatchResult result
        (λ r. Made (cells p (last.now ∷ []) + 3 * (length stack.old.items - height)) (B.meaning store.old) (B.meaning store.new) r
        (listed (map (told (B.meaning store.old)) (drop height stack.old.items)) (value_of p (map (told (B.meaning store.old)) env.now) last.now)))
        (λ e. Overflows (cells p (last.now ∷ []) + 3 * (length stack.old.items - height)) (B.meaning store.old) e) }
    ensures taken { OnOk result (stack.new.items ≡ take height stack.old.items) }
{
    match write_leaf(store, program, env, last, stack) {
        Err(e) => Err(e),
        Ok(tail) => write_pairs(store, stack, height, tail),
    }
}

// The value of a term that may be a list, with lists in it.
fn write_list<B: Bindings>(
    store: &mut B,
    program: &CoreProgram,
    env: &[Ref],
    term: &Term,
    stack: &mut Vec<Ref>,
) -> Result<Ref, Full>
    requires env { All (Holds (B.meaning store.old)) env.now }
    ensures kept { Kept (B.meaning store.old) (B.meaning store.new) }
    ensures saved { (ms : List Saved) → B.saves store.old ms → B.saves store.new ms }
    ensures written { (p : Program) → program.now ≡ p → MatchResult result
        (λ r. Made (cells p (term.now ∷ [])) (B.meaning store.old) (B.meaning store.new) r
        (value_of p (map (told (B.meaning store.old)) env.now) term.now)) (λ e. Overflows (cells p (term.now ∷ [])) (B.meaning store.old) e) }
    ensures stack { OnOk result (stack.new.items ≡ stack.old.items) }
{
    let mut around = Vec::new(*stack.allocator());
    let mut list = Open {
        height: stack.len(),
        left: term,
    };
    'lists: loop {
        let last = write_heads(store, program, env, list.left, stack)?;
        if let Term::Pair(head, tail) = last {
            list.left = tail.get();
            if around.push(list).is_err() {
                return Err(Full::OutOfMemory);
            }
            list = Open {
                height: stack.len(),
                left: head.get(),
            };
            continue;
        }
        let value = end_list(store, program, env, last, stack, list.height)?;
        match around.pop() {
            None => return Ok(value),
            Some(outer) => {
                if stack.push(value).is_err() {
                    return Err(Full::OutOfMemory);
                }
                list = outer;
            }
        }
    }
}

/// The value of a term, among the values of the variables around it. On a stack it keeps the elements of lists
/// meanwhile.
pub fn write_term<B: Bindings>(
    store: &mut B,
    program: &CoreProgram,
    env: &[Ref],
    term: &Term,
    stack: &mut Vec<Ref>,
) -> Result<Ref, Full>
    requires env { All (Holds (B.meaning store.old)) env.now }
    ensures kept { Kept (B.meaning store.old) (B.meaning store.new) }
    ensures saved { (ms : List Saved) → B.saves store.old ms → B.saves store.new ms }
    ensures written { (p : Program) → program.now ≡ p → MatchResult result
        (λ r. Made (cells p (term.now ∷ [])) (B.meaning store.old) (B.meaning store.new) r
        (value_of p (map (told (B.meaning store.old)) env.now) term.now)) (λ e. Overflows (cells p (term.now ∷ [])) (B.meaning store.old) e) }
    ensures stack { OnOk result (stack.new.items ≡ stack.old.items) }
{
    match term {
        Term::Pair(_, _) => write_list(store, program, env, term, stack),
        _ => write_leaf(store, program, env, term, stack),
    }
}

/// Puts the values of terms behind a list, in order.
pub fn write_terms<B: Bindings>(
    store: &mut B,
    program: &CoreProgram,
    env: &[Ref],
    terms: &[Term],
    to: &mut Vec<Ref>,
) -> Result<(), Full>
    requires env { All (Holds (B.meaning store.old)) env.now }
    ensures kept { Kept (B.meaning store.old) (B.meaning store.new) }
    ensures saved { (ms : List Saved) → B.saves store.old ms → B.saves store.new ms }
    ensures written { (p : Program) → program.now ≡ p → MatchResult result
        (λ _. Written (cells p terms.now) (map (value_of p (map (told (B.meaning store.old)) env.now)) terms.now) (B.meaning store.old)
        (B.meaning store.new) to.old.items to.new.items) (λ e. Overflows (cells p terms.now) (B.meaning store.old) e) }
{
    'terms: for term in terms {
        match write_term(store, program, env, term, to) {
            Err(e) => return Err(e),
            Ok(value) => {
                if to.push(value).is_err() {
                    return Err(Full::OutOfMemory);
                }
            }
        }
    }
    Ok(())
}

/// Puts so many new variables behind a list.
pub fn new_variables<B: Bindings>(store: &mut B, count: u16, to: &mut Vec<Ref>) -> Result<(), Full>
    ensures kept { Kept (B.meaning store.old) (B.meaning store.new) }
    ensures saved { (ms : List Saved) → B.saves store.old ms → B.saves store.new ms }
    ensures made { MatchResult result (λ _. MadeVars count (B.meaning store.old) (B.meaning store.new) to.old.items to.new.items)
        (λ e. Overflows count (B.meaning store.old) e) }
{
    'variables: for _ in 0..count {
        match store.fresh() {
            Err(e) => return Err(e),
            Ok(var) => {
                if to.push(var).is_err() {
                    return Err(Full::OutOfMemory);
                }
            }
        }
    }
    Ok(())
}

/// The values of two terms, one written after the other.
pub fn write_both<B: Bindings>(
    store: &mut B,
    program: &CoreProgram,
    env: &[Ref],
    a: &Term,
    b: &Term,
    stack: &mut Vec<Ref>,
) -> Result<(Ref, Ref), Full>
    requires env { All (Holds (B.meaning store.old)) env.now }
    ensures kept { Kept (B.meaning store.old) (B.meaning store.new) }
    ensures saved { (ms : List Saved) → B.saves store.old ms → B.saves store.new ms }
    ensures written { (p : Program) → program.now ≡ p → MatchResult result
        (λ both. BothMade p a.now b.now (map (told (B.meaning store.old)) env.now) (B.meaning store.old) (B.meaning store.new) both.0 both.1)
        (λ e. Overflows (cells p (a.now ∷ b.now ∷ [])) (B.meaning store.old) e) }
{
    match write_term(store, program, env, a, stack) {
        Err(e) => Err(e),
        Ok(left) => match write_term(store, program, env, b, stack) {
            Err(e) => Err(e),
            Ok(right) => Ok((left, right)),
        },
    }
}

/// The values of three terms, one written after another.
pub fn write_three<B: Bindings>(
    store: &mut B,
    program: &CoreProgram,
    env: &[Ref],
    a: &Term,
    b: &Term,
    c: &Term,
    stack: &mut Vec<Ref>,
) -> Result<(Ref, Ref, Ref), Full>
    requires env { All (Holds (B.meaning store.old)) env.now }
    ensures kept { Kept (B.meaning store.old) (B.meaning store.new) }
    ensures saved { (ms : List Saved) → B.saves store.old ms → B.saves store.new ms }
    ensures written { (p : Program) → program.now ≡ p → MatchResult result
        (λ refs. ThreeMade p a.now b.now c.now (map (told (B.meaning store.old)) env.now) (B.meaning store.old) (B.meaning store.new) refs)
        (λ e. Overflows (cells p (a.now ∷ b.now ∷ c.now ∷ [])) (B.meaning store.old) e) }
{
    match write_both(store, program, env, a, b, stack) {
        Err(e) => Err(e),
        Ok((first, second)) => match write_term(store, program, env, c, stack) {
            Err(e) => Err(e),
            Ok(third) => Ok((first, second, third)),
        },
    }
}
