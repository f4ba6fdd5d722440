// Pairs of kept terms of the start symbol that have what is wanted at a few points.
use crate::columns::Task;
use crate::tables::Table;
use crate::trials::Operation;
use crate::wanted::Target;
use std::alloc::Global;
use sy_seq::Want;

/// How many kept terms of one slot are met at most.
const MOST_MET: usize = 64;
/// How many pairs of one operation are met at most.
const MOST_PAIRS: usize = 50_000;
/// A table for each number of open bits.
const TABLES: usize = 32;

/// Kept terms at a few points.
#[derive(Drop)]
pub(crate) struct Kept {
    alloc: Global,
    /// The values of each at these points.
    pub(crate) values: Vec<Vec<u64>>,
    /// Those at the first point.
    firsts: Vec<u64>,
    /// For each number of open bits the kept terms by the others at the first point.
    tables: Vec<Option<Table>>,
    /// How many are judged in pairs.
    most_judged: usize,
    /// What is left of the work: one for each look-up.
    pub(crate) work: u64,
}

/// The values at these points.
pub(crate) fn values_at(alloc: Global, values: &[u64], points: &[usize]) -> Result<Vec<u64>, Want> {
    let mut found = Vec::with_capacity(alloc, points.len())?;
    for point in points {
        found.push(values.get(*point).copied().unwrap_or(0))?;
    }
    Ok(found)
}

impl Kept {
    /// The kept terms at these points, so many of which are judged in pairs, for so much work.
    pub(crate) fn new(
        alloc: Global,
        task: &Task,
        points: &[usize],
        most_judged: usize,
        work: u64,
    ) -> Result<Kept, Want> {
        let mut kept = Kept {
            alloc,
            values: Vec::new(alloc),
            firsts: Vec::new(alloc),
            tables: Vec::new(alloc),
            most_judged,
            work,
        };
        for column in task.columns(0) {
            let values = values_at(alloc, column.values.as_slice(), points)?;
            kept.firsts.push(values.get(0).copied().unwrap_or(0))?;
            kept.values.push(values)?;
        }
        for _ in 0..TABLES {
            kept.tables.push(None)?;
        }
        Ok(kept)
    }

    /// Pairs that the operation joins to what is wanted.
    pub(crate) fn pairs(
        &mut self,
        operation: Operation,
        target: &Target,
    ) -> Result<Vec<(usize, usize)>, Want> {
        let mut met = Vec::new(self.alloc);
        match operation {
            Operation::And | Operation::Or if target.masked || target.carries == 0 => {
                self.judge(operation, target, &mut met)?;
            }
            Operation::Xor if target.masked => {
                let table = self.table(target)?;
                self.look_up(operation, 0, target, &table, &mut met)?;
                self.charge(2);
            }
            Operation::Xor | Operation::Add if !target.masked => {
                self.look_up_all(operation, target, &mut met)?;
            }
            Operation::Sub if !target.masked && target.open == 0 => {
                self.look_up_all(operation, target, &mut met)?;
            }
            _ => {}
        }
        self.work = self.work.saturating_sub(met.len() as u64);
        self.serving(operation, target, met.as_slice())
    }

    /// Those of the pairs that serve at all points.
    fn serving(
        &self,
        operation: Operation,
        target: &Target,
        met: &[(usize, usize)],
    ) -> Result<Vec<(usize, usize)>, Want> {
        let mut found = Vec::new(self.alloc);
        for (first, second) in met {
            if let (Some(one), Some(two)) = (self.values.get(*first), self.values.get(*second)) {
                if target.is_met_by(operation, one.as_slice(), two.as_slice()) {
                    found.push((*first, *second))?;
                }
            }
        }
        Ok(found)
    }

    /// Takes from the work so many look-ups of each kept term.
    fn charge(&mut self, times: u64) {
        let units = times.saturating_mul(self.firsts.len() as u64);
        self.work = self.work.saturating_sub(units);
    }

    /// The kept terms by what they are looked up by.
    fn table(&self, target: &Target) -> Result<Table, Want> {
        let mut numbers = Vec::with_capacity(self.alloc, self.firsts.len())?;
        for value in &self.firsts {
            numbers.push(target.key(*value))?;
        }
        Table::new(self.alloc, numbers.as_slice())
    }

    /// Appends pairs with the first one each kept term and the second one looked up, for any carries.
    fn look_up_all(
        &mut self,
        operation: Operation,
        target: &Target,
        met: &mut Vec<(usize, usize)>,
    ) -> Result<(), Want> {
        let place = target.open as usize;
        if let Some(None) = self.tables.get(place) {
            let table = self.table(target)?;
            if let Some(slot) = self.tables.get_mut(place) {
                *slot = Some(table);
            }
        }
        let variants = match operation {
            Operation::Add if target.open > 0 => target.carries.saturating_add(2),
            Operation::Xor => target.carries.saturating_add(1),
            _ => 1,
        };
        if let Some(Some(table)) = self.tables.get(place) {
            for carries in 0..variants {
                self.look_up(operation, carries, target, table, met)?;
            }
        }
        self.charge(variants);
        Ok(())
    }

    /// Appends the pairs that have what is wanted at the first point in the bits that aren't open, less by so many
    /// carries.
    fn look_up(
        &self,
        operation: Operation,
        carries: u64,
        target: &Target,
        table: &Table,
        met: &mut Vec<(usize, usize)>,
    ) -> Result<(), Want> {
        let Some(wanted) = target.points.get(0) else {
            return Ok(());
        };
        let all = target.key(target.greatest);
        let less = target.key(wanted.value).wrapping_sub(carries) & all;
        for (first, value) in self.firsts.iter().enumerate() {
            let own = target.key(*value);
            let partner = match operation {
                Operation::Add => less.wrapping_sub(own) & all,
                Operation::Sub => own.wrapping_sub(less) & all,
                _ => less ^ own,
            };
            let mut next = table.first(partner);
            for _ in 0..MOST_MET {
                let Some(second) = next else {
                    break;
                };
                let ordered = second >= first || !operation.commutes();
                let value = self.firsts.get(second).copied().unwrap_or(0);
                if ordered && target.key(value) == partner && met.len() < MOST_PAIRS {
                    met.push((first, second))?;
                }
                next = table.next(second);
            }
        }
        Ok(())
    }

    /// Appends the pairs of kept terms that have, or keep within, the wanted bits at each point, and serve at the first
    /// one.
    fn judge(
        &mut self,
        operation: Operation,
        target: &Target,
        met: &mut Vec<(usize, usize)>,
    ) -> Result<(), Want> {
        let Some(wanted) = target.points.get(0) else {
            return Ok(());
        };
        let mut serving = Vec::new(self.alloc);
        for (place, (values, value)) in self.values.iter().zip(&self.firsts).enumerate() {
            let has_room = serving.len() < self.most_judged;
            if has_room && target.may_have_parts(operation, values.as_slice()) {
                serving.push((place, *value))?;
            }
        }
        for (number, (first, x)) in serving.iter().enumerate() {
            for other in number..serving.len() {
                let (second, y) = serving.get(other).copied().unwrap_or((*first, *x));
                let value = operation.value(target.greatest, *x, y);
                if target.serves(wanted, value) && met.len() < MOST_PAIRS {
                    met.push((*first, second))?;
                }
            }
        }
        let judged = (serving.len() as u64).saturating_mul(serving.len() as u64) / 8;
        self.work = self.work.saturating_sub(judged);
        Ok(())
    }
}
