// Which problems are pointwise.
use crate::parts::nonterminals;
use crate::rows::field;
use crate::terms::term;
use std::alloc::Global;
use std::process::Abort;
use sy_grammar::well_formed;
use sy_grammar_base::{Grammar, Problem, Wanted};
use sy_loop_pointwise::pointwise;
use sy_meaning_integers::IntTheory;
use sy_meaning_words::BvTheory;
use sy_terms::{Seq, Sort, Theory};

/// The sort, so many times.
fn sorts(rt: &impl Abort, alloc: Global, sort: Sort, count: usize) -> Seq<Sort> {
    let mut sorts = Seq::new(alloc);
    for _ in 0..count {
        sorts.push(sort).expect(rt, "memory");
    }
    sorts
}

/// A function of so many arguments of the sort to that sort, whose grammar has these rules.
fn function<T: Theory>(
    rt: &impl Abort,
    alloc: Global,
    sort: Sort,
    arguments: usize,
    rules: &str,
) -> Wanted<T> {
    let nons = nonterminals::<T>(rt, alloc, sort, Sort::Bool, rules);
    let args = sorts(rt, alloc, sort, arguments);
    let defs = Seq::new(alloc);
    assert!(rt; well_formed(&args, &nons, &defs));
    let grammar = Grammar::new(args, nons, &defs);
    let args = sorts(rt, alloc, sort, arguments);
    Wanted {
        args,
        sort,
        grammar,
    }
}

/// Whether the problem of a row is pointwise.
fn is_pointwise<T: Theory>(rt: &impl Abort, alloc: Global, sort: Sort, row: &str) -> bool {
    let arguments = field(row, 3).len();
    let mut wanted = Seq::new(alloc);
    for _ in 0..field(row, 2).len() {
        let function = function::<T>(rt, alloc, sort, arguments, field(row, 5));
        wanted.push(function).expect(rt, "memory");
    }
    let mut constraints = Seq::new(alloc);
    for text in field(row, 6).split(' ') {
        let constraint = term::<T>(rt, alloc, arguments, text);
        constraints.push(constraint).expect(rt, "memory");
    }
    let (defs, assumptions, pool) = (Seq::new(alloc), Seq::new(alloc), Seq::new(alloc));
    let vars = sorts(rt, alloc, sort, field(row, 4).len());
    let problem = Problem {
        defs,
        vars,
        wanted,
        assumptions,
        constraints,
        pool,
    };
    let is_pointwise = pointwise(alloc, &problem).expect(rt, "memory");
    drop(problem);
    is_pointwise
}

/// The sort; the functions to be found; the arguments of each, and the variables; the rules of the grammar;
/// constraints; and whether the problem is pointwise.
///
/// It is where one function is to be found and each constraint applies it to one list of arguments, in which it isn't
/// applied. A name of a `let` counts as what it stands for. The last two are the greater of two integers, and a
/// function over vectors that undoes itself.
pub(crate) const ROWS: &str = "\
pointwise|Bool|f|x|xy|x|=fxfx|yes
pointwise|Bool|f|x|xy|x|=fxfy|no
pointwise|Bool|f|x|xy|x|=ffxx|no
pointwise|Bool|f|x|xy|x|Bx=fzfx|yes
pointwise|Bool|f|x|xy|x|Bfy=fxx|yes
pointwise|Bool|f|x|xy|x|=xy|yes
pointwise|Bool||x|xy|x|=xy|no
pointwise|Bool|fg|x|xy|x|=fxfx|no
pointwise|Int|f|xy|xy|x y ?BAA;Lxy|Gfxyx Gfxyy O=fxyx=fxyy|yes
pointwise|Bits|f|x|x|x nx ~x|=ffxx Dfxx|no";

/// Whether the row is right.
pub(crate) fn is_right(rt: &impl Abort, alloc: Global, row: &str) -> bool {
    let found = match field(row, 1) {
        "Bool" => is_pointwise::<IntTheory>(rt, alloc, Sort::Bool, row),
        "Int" => is_pointwise::<IntTheory>(rt, alloc, Sort::Int, row),
        _ => is_pointwise::<BvTheory>(rt, alloc, Sort::Bits(8), row),
    };
    found == (field(row, 7) == "yes")
}
