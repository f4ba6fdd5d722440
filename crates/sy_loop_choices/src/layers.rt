// Operations round what is sought, from the outside.
use crate::columns::Rules;
use crate::pairs::Kept;
use crate::search::Search;
use crate::trials::Operation;
use crate::wanted::Target;
use sy_seq::Want;

/// How many operations stand round a body at most.
pub(crate) const DEPTH: usize = 3;
/// Their size with their kept operands at most.
pub(crate) const MOST_SIZE: u32 = 7;
/// How many kept terms are operands.
const OPERANDS: usize = 45;
/// How many layers there are at most.
const MOST_LAYERS: usize = 100_000;

/// An operation round what is sought, with what is wanted inside. The outermost layer is the body itself.
#[derive(Drop)]
pub(crate) struct Layer {
    /// The number of the layer round it.
    pub(crate) outer: usize,
    /// `None` at the outermost layer.
    pub(crate) step: Option<Step>,
    pub(crate) target: Target,
    /// The size of all operations so far, with their kept operands.
    pub(crate) size: u32,
}

/// A rule, with its kept operand if it has two.
#[derive(Clone, Copy)]
pub(crate) struct Step {
    pub(crate) shape: usize,
    pub(crate) operation: Operation,
    pub(crate) kept: Option<usize>,
    /// Whether the kept operand is the first one.
    pub(crate) kept_first: bool,
}

/// The outermost layer, of this target, and those of up to three operations in it, those of fewer first.
pub(crate) fn layers<R: Rules>(
    search: &Search<R>,
    kept: &Kept,
    target: Target,
) -> Result<Vec<Layer>, Want> {
    let mut layers = Vec::new(search.alloc);
    layers.push(Layer {
        outer: 0,
        step: None,
        target,
        size: 0,
    })?;
    let mut begin = 0;
    for _ in 0..DEPTH {
        let end = layers.len();
        for number in begin..end {
            let mut inner = match layers.get(number) {
                Some(outer) => inner_layers(search, kept, number, outer)?,
                None => Vec::new(search.alloc),
            };
            if layers.len() < MOST_LAYERS {
                layers.append(&mut inner)?;
            }
        }
        begin = end;
    }
    Ok(layers)
}

/// The layers of one operation more than the layer of this number.
fn inner_layers<R: Rules>(
    search: &Search<R>,
    kept: &Kept,
    number: usize,
    outer: &Layer,
) -> Result<Vec<Layer>, Want> {
    let mut inner = Vec::new(search.alloc);
    for (shape, operation) in search.operations.iter().enumerate() {
        let Some(operation) = operation else {
            continue;
        };
        let mut step = Step {
            shape,
            operation: *operation,
            kept: None,
            kept_first: true,
        };
        match (search.joint(shape), search.task.operands(shape)) {
            (Some(_), _) => {
                for place in 0..kept.values.len().min(OPERANDS) {
                    step.kept = Some(place);
                    step.kept_first = true;
                    push_layer(search, kept, number, outer, step, &mut inner)?;
                    if !operation.commutes() {
                        step.kept_first = false;
                        push_layer(search, kept, number, outer, step, &mut inner)?;
                    }
                }
            }
            (None, [0]) => push_layer(search, kept, number, outer, step, &mut inner)?,
            _ => {}
        }
    }
    Ok(inner)
}

/// Appends the layer of this step in the layer of this number, if it is small enough, something serves inside, and
/// the step doesn't undo the one before.
fn push_layer<R: Rules>(
    search: &Search<R>,
    kept: &Kept,
    number: usize,
    outer: &Layer,
    step: Step,
    inner: &mut Vec<Layer>,
) -> Result<(), Want> {
    let own = match step.kept {
        Some(place) => search.task.size(0, place),
        None => 0,
    };
    let added = search.task.added(step.shape).saturating_add(own);
    let size = outer.size.saturating_add(added);
    let repeats = match outer.step {
        Some(other) => other.shape == step.shape && step.operation.undoes_itself(),
        None => false,
    };
    let Some(values) = kept.values.get(step.kept.unwrap_or(0)) else {
        return Ok(());
    };
    if size > MOST_SIZE || repeats {
        return Ok(());
    }
    let target = outer.target.below(
        search.alloc,
        step.operation,
        values.as_slice(),
        step.kept_first,
    )?;
    if let Some(target) = target {
        inner.push(Layer {
            outer: number,
            step: Some(step),
            target,
            size,
        })?;
    }
    Ok(())
}
