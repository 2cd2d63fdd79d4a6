// The names that the language keeps for itself. A name is written with its words and a `$` for each place, in parentheses.
ghost use Rattle.std.specs.Prelude.{◌≡◌, map};
ghost use Rattle.std.specs.List.{find, list_any};
ghost use Rattle.std.specs.Option.{option_map};
ghost use Rattle.std.specs.Str.{bytes_eq};
ghost use Rattle.dg_base.specs.Heads.{name_of};
ghost use Rattle.dg_base.specs.Tree.{parts_of};
ghost use Rattle.dg_base.specs.TreeView.{part_view};
ghost use Rattle.dg_base.specs.Names.{keywords, refused_names, prelude_names, builtins, listed_keywords, listed_refused_names, listed_prelude_names, listed_builtins, name_among, builtin_among, builtin_named};

use crate::heads::is_named;
use crate::program::{ArithOp, CompareOp, GapKind, TestKind};
use crate::tree::Part;

/// What a built-in query is.
#[derive(Clone, Copy)]
pub enum Builtin {
    Equal,
    Arith(ArithOp),
    Compare(CompareOp),
    Random,
    Test(TestKind),
    Object,
    Fail,
    Just,
    Stop,
    Quit,
    RepeatForever,
    Query,
    QueryWith,
    GetInput,
    SplitWord,
    JoinWords,
    Gap(GapKind),
    Spaces,
    HasParent,
}

/// The keywords.
pub const KEYWORDS: [&str; 19] = [
    "(now)",
    "(if)",
    "(then)",
    "(elseif)",
    "(else)",
    "(endif)",
    "(or)",
    "(exhaust)",
    "(stoppable)",
    "(collect $)",
    "(accumulate $)",
    "(into $)",
    "(select)",
    "(stopping)",
    "(cycling)",
    "(at random)",
    "(purely at random)",
    "(then at random)",
    "(then purely at random)",
];

/// The names of other Dialog programs that this profile refuses.
pub const REFUSED_NAMES: [&str; 26] = [
    "(bold)",
    "(italic)",
    "(reverse)",
    "(fixed pitch)",
    "(roman)",
    "(div $)",
    "(span $)",
    "(link)",
    "(link $)",
    "(status bar $)",
    "(inline status bar $)",
    "(clear)",
    "(get key $)",
    "(save $)",
    "(restore)",
    "(save undo $)",
    "(undo)",
    "(restart)",
    "(script on)",
    "(script off)",
    "(interface $)",
    "(generate $ $)",
    "(determine object $)",
    "(collect words)",
    "(removable word endings)",
    "(log)",
];

/// The built-in queries.
pub const BUILTINS: [(&str, Builtin); 36] = [
    ("($ = $)", Builtin::Equal),
    ("($ plus $ into $)", Builtin::Arith(ArithOp::Plus)),
    ("($ minus $ into $)", Builtin::Arith(ArithOp::Minus)),
    ("($ times $ into $)", Builtin::Arith(ArithOp::Times)),
    ("($ divided by $ into $)", Builtin::Arith(ArithOp::Divide)),
    ("($ modulo $ into $)", Builtin::Arith(ArithOp::Modulo)),
    ("($ < $)", Builtin::Compare(CompareOp::Less)),
    ("($ > $)", Builtin::Compare(CompareOp::Greater)),
    ("(random from $ to $ into $)", Builtin::Random),
    ("(number $)", Builtin::Test(TestKind::Number)),
    ("(word $)", Builtin::Test(TestKind::Word)),
    ("(unknown word $)", Builtin::Test(TestKind::UnknownWord)),
    ("(object $)", Builtin::Object),
    ("(list $)", Builtin::Test(TestKind::List)),
    ("(empty $)", Builtin::Test(TestKind::Empty)),
    ("(nonempty $)", Builtin::Test(TestKind::NonEmpty)),
    ("(bound $)", Builtin::Test(TestKind::Bound)),
    ("(unbound $)", Builtin::Test(TestKind::Unbound)),
    ("(fully bound $)", Builtin::Test(TestKind::FullyBound)),
    ("(fail)", Builtin::Fail),
    ("(just)", Builtin::Just),
    ("(stop)", Builtin::Stop),
    ("(quit)", Builtin::Quit),
    ("(repeat forever)", Builtin::RepeatForever),
    ("(query $)", Builtin::Query),
    ("(query $ $)", Builtin::QueryWith),
    ("(get input $)", Builtin::GetInput),
    ("(split word $ into $)", Builtin::SplitWord),
    ("(join words $ into $)", Builtin::JoinWords),
    ("(par)", Builtin::Gap(GapKind::Par)),
    ("(line)", Builtin::Gap(GapKind::Line)),
    ("(space)", Builtin::Gap(GapKind::Space)),
    ("(no space)", Builtin::Gap(GapKind::NoSpace)),
    ("(uppercase)", Builtin::Gap(GapKind::Upper)),
    ("(space $)", Builtin::Spaces),
    ("($ has parent $)", Builtin::HasParent),
];

/// The predicates that every program has, whose rules stand behind its own.
pub const PRELUDE_NAMES: [&str; 4] = [
    "(append $ $ $)",
    "($ is one of $)",
    "(split key $ in $)",
    "(split $ by $ into $ and $)",
];

/// The tables of the code are the lists of the definitions.
pub fn tables_are_listed()
    ensures keywords { keywords ≡ listed_keywords }
    ensures refused { refused_names ≡ listed_refused_names }
    ensures builtins { builtins ≡ listed_builtins }
    ensures prelude { prelude_names ≡ listed_prelude_names }
{}

// Whether the name of these parts is one of these.
fn is_among(parts: &[Part], names: &[&str]) -> bool
    ensures { result ≡ list_any (λ known. bytes_eq known.now (name_of (parts_of (map part_view parts.now)))) names.now }
{
    names.iter().any(|known| is_named(parts, known.as_bytes()))
}

/// Whether the name of these parts is a keyword's.
pub fn is_keyword(parts: &[Part]) -> bool
    ensures { result ≡ name_among (name_of (parts_of (map part_view parts.now))) keywords }
{
    is_among(parts, &KEYWORDS)
}

/// Whether the profile refuses the name of these parts.
pub fn is_refused_name(parts: &[Part]) -> bool
    ensures { result ≡ name_among (name_of (parts_of (map part_view parts.now))) refused_names }
{
    is_among(parts, &REFUSED_NAMES)
}

/// Whether the name of these parts is that of a predicate that every program has.
pub fn is_prelude_name(parts: &[Part]) -> bool
    ensures { result ≡ name_among (name_of (parts_of (map part_view parts.now))) prelude_names }
{
    is_among(parts, &PRELUDE_NAMES)
}

// The built-in query of the name of these parts, the first among these.
fn search_table(parts: &[Part], known: &[(&str, Builtin)]) -> Option<Builtin>
    ensures { result ≡ option_map (λ entry. entry.1) (find (λ entry. bytes_eq entry.0.now (name_of (parts_of (map part_view parts.now)))) known.now) }
{
    known
        .iter()
        .find(|entry| is_named(parts, entry.0.as_bytes()))
        .map(|entry| entry.1)
}

fn first_of(parts: &[Part], known: &[(&str, Builtin)]) -> Option<Builtin>
    ensures { result ≡ builtin_among (name_of (parts_of (map part_view parts.now))) (map (λ entry. (entry.0.now, entry.1)) known.now) }
{
    search_table(parts, known)
}

/// The built-in query that has the name of these parts.
pub fn builtin_of(parts: &[Part]) -> Option<Builtin>
    ensures { result ≡ builtin_named (name_of (parts_of (map part_view parts.now))) }
{
    first_of(parts, &BUILTINS)
}
