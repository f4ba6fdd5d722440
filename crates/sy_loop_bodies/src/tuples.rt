// At which tuples of arguments constraints want values.
ghost use Rattle.sy_terms.specs.Denoted.{vals_of};
ghost use Rattle.sy_grammar_base.specs.Fits.{ProblemFits};
ghost use Rattle.sy_grammar_base.specs.Solving.{AreValues};
ghost use Rattle.sy_loop_bodies.specs.Clauses.{AreAssignedFor};

use crate::body::Task;
use crate::columns::point_of;
use crate::wishes::{Wish, wishes_at};
use sy_terms::{Theory, Value, Values, Want};

/// The tuples at which constraints want values, each once, at most so many: those of the last assignments first.
pub fn wished_tuples<T: Theory>(
    task: &Task<T>,
    assignments: &[Values<T>],
    most: usize,
) -> Result<Vec<Values<T>>, Want>
    requires problem { ProblemFits T.Theory task.now.problem.now }
    requires assigned { AreAssignedFor T.Theory task.now.problem.now assignments.now }
{
    let mut tuples = Vec::new(task.alloc);
    for wish in wishes_of(task, assignments, most)? {
        if tuples.len() < most {
            add_tuple::<T>(wish.tuple, &mut tuples)?;
        }
    }
    Ok(tuples)
}

/// What constraints want at the assignments, the last one first: of each at most so much, evenly spaced.
pub fn wishes_of<T: Theory>(
    task: &Task<T>,
    assignments: &[Values<T>],
    most: usize,
) -> Result<Vec<Wish<T>>, Want>
    requires problem { ProblemFits T.Theory task.now.problem.now }
    requires assigned { AreAssignedFor T.Theory task.now.problem.now assignments.now }
{
    let mut wishes = Vec::new(task.alloc);
    for later in 0..assignments.len() {
        let place = assignments.len() - 1 - later;
        for wish in spaced_wishes(task, assignments[place].as_slice(), most)? {
            wishes.push(wish)?;
        }
    }
    Ok(wishes)
}

/// Of what constraints want at these values of the variables at most so much, evenly spaced.
pub(crate) fn spaced_wishes<T: Theory>(
    task: &Task<T>,
    values: &[Value<T::Num>],
    most: usize,
) -> Result<Vec<Wish<T>>, Want>
    requires problem { ProblemFits T.Theory task.now.problem.now }
    requires values { AreValues task.now.problem.now.vars (vals_of T.denotes values.now) }
{
    let wishes = wishes_at(task.alloc, task.problem, values)?;
    let count = wishes.len();
    let mut spaced = Vec::new(task.alloc);
    let mut due = 0usize;
    for wish in wishes {
        due = due.saturating_add(most.min(count));
        if due >= count {
            due -= count;
            spaced.push(wish)?;
        }
    }
    Ok(spaced)
}

/// Adds the tuple where it is new.
fn add_tuple<T: Theory>(tuple: Values<T>, tuples: &mut Vec<Values<T>>) -> Result<(), Want> {
    if point_of::<T>(tuples.as_slice(), tuple.as_slice()).is_none() {
        tuples.push(tuple)?;
    }
    Ok(())
}
