// What assignments say of points.
ghost use Rattle.std.specs.Prelude.{IfOk};
ghost use Rattle.sy_grammar_base.specs.Fits.{ProblemFits};

use crate::learning::{Learning, MOST_POINTS};
use sy_loop_bodies::Task;
use sy_loop_learn::Label;
use sy_terms::{Theory, Value, Values, Want};

impl<T: Theory> Learning<T> {
    /// Takes what constraints say at the assignments that are new, and answers the points that they ask at these.
    pub(crate) fn tell(
        &mut self,
        task: &Task<T>,
        assignments: &[Values<T>],
    ) -> Result<Vec<usize>, Want>
        requires { ProblemFits T.Theory task.now.problem.now }
    {
        let mut asked = Vec::new(task.alloc);
        for assignment in assignments.iter().skip(self.told) {
            if !self.has_room() {
                self.is_over = true;
                return Ok(asked);
            }
            self.tell_at(task, assignment.as_slice(), &mut asked)?;
        }
        self.told = assignments.len();
        Ok(asked)
    }

    /// Whether there is room for what one more assignment asks.
    fn has_room(&self) -> bool {
        !self.is_over && self.work > self.statements.nodes() && self.tuples.len() < MOST_POINTS
    }

    /// Takes what constraints say at the assignment.
    fn tell_at(
        &mut self,
        task: &Task<T>,
        values: &[Value<T::Num>],
        asked: &mut Vec<usize>,
    ) -> Result<(), Want>
        requires { ProblemFits T.Theory task.now.problem.now }
    {
        self.work = self.work.saturating_sub(self.statements.nodes());
        let conditions = self
            .statements
            .conditions_at::<T>(values, &mut self.tuples)?;
        self.take_points(task)?;
        for condition in &conditions {
            self.take_condition(task, condition.as_slice(), asked)?;
        }
        Ok(())
    }

    /// Has the learner know all points.
    fn take_points(&mut self, task: &Task<T>) -> Result<(), Want>
        requires { ProblemFits T.Theory task.now.problem.now }
    {
        let known = self.learner.points();
        for tuple in self.tuples.iter().skip(known) {
            let truths = self.atoms.truths::<T>(task.alloc, tuple.as_slice(), 0)?;
            self.learner.add_point(truths.as_slice());
        }
        Ok(())
    }

    /// Has the learner know the condition.
    fn take_condition(
        &mut self,
        task: &Task<T>,
        condition: &[(usize, bool)],
        asked: &mut Vec<usize>,
    ) -> Result<(), Want> {
        if condition.is_empty() {
            self.is_over = true;
        }
        let mut labels = Vec::with_capacity(task.alloc, condition.len())?;
        for (point, inside) in condition {
            labels.push(Label {
                point: *point,
                inside: *inside,
            })?;
            asked.push(*point)?;
        }
        self.learner.add_condition(labels.as_slice())?;
        Ok(())
    }
}
