// Shapes, each once, with what finds them.
ghost use Rattle.std.specs.Prelude.{ℕ, ◌≡◌, ◌↔◌, IsTrue, MatchOption, Contains, slice_get, Some};
ghost use Rattle.sy_loop_pointwise.specs.Denoted.{shape_of, shapes_of};

use crate::places::Places;
use crate::shape::Shape;
use std::alloc::{AllocError, Global};
use std::marker::Model;
use sy_terms::{Theory, Want};

/// Whether the shape is the one of this number.
fn is_at<T: Theory>(shapes: &[Shape<T>], number: u32, shape: &Shape<T>) -> bool
    ensures { IsTrue result ↔ slice_get (shapes_of T.denotes shapes.now) number ≡ Some (shape_of T.denotes shape.now) }
{
    match shapes.get(number as usize) {
        Some(other) => other.equals(shape),
        None => false,
    }
}

/// The number of the shape among these; `None` exactly where it is at none of them.
fn place_of<T: Theory>(shapes: &[Shape<T>], numbers: &[u32], shape: &Shape<T>) -> Option<u32>
    ensures { MatchOption result
        ((number : ℕ) → Contains numbers.now number →
        slice_get (shapes_of T.denotes shapes.now) number ≡ Some (shape_of T.denotes shape.now) → ⊥)
        (λ number. slice_get (shapes_of T.denotes shapes.now) number ≡ Some (shape_of T.denotes shape.now)) }
{
    for number in numbers {
        if is_at(shapes, *number, shape) {
            return Some(*number);
        }
    }
    None
}

/// Shapes in order, each over the numbers of those before it and none twice.
#[derive(Drop)]
pub struct Table<T: Theory> {
    shapes: Vec<Shape<T>>,
    places: Places,
}

impl<T: Theory> Model for Table<T> {
    ghost use Rattle.std.specs.Prelude.{List};
    ghost use Rattle.sy_loop_pointwise.specs.Shapes as spec;
    ghost use Rattle.sy_loop_pointwise.specs.Denoted.{shapes_of};
    ghost use Rattle.sy_loop_pointwise.specs.Places.{key_places};
    ghost use Rattle.sy_loop_pointwise.specs.Tables.{TableIsWhole};

    ghost Value = { List spec.Shape };

    ghost view = { λ t. shapes_of T.denotes t.shapes.items };

    ghost invariant = { λ t. TableIsWhole (shapes_of T.denotes t.shapes.items) (key_places t.places) };
}

impl<T: Theory> Table<T> {
    ghost use Rattle.std.specs.Prelude.{ℕ, ◌≡◌, [], length, MatchOption, slice_get, Some, IfOk, OnOk};
    ghost use Rattle.sy_loop_pointwise.specs.Shapes.{AreBelow, AreSubterms, ShapesExtend, numbers_of};

    /// No shapes. It takes no memory.
    pub fn new(alloc: Global) -> Table<T>
        ensures { result ≡ [] }
    {
        Table {
            shapes: Vec::new(alloc),
            places: Places::new(alloc),
        }
    }

    /// The shapes in order.
    pub fn shapes(&self) -> &[Shape<T>]
        ensures shapes { shapes_of T.denotes result.now ≡ self.now }
        ensures are { AreSubterms self.now }
    {
        self.shapes.as_slice()
    }

    /// The shapes in order, which are all that is left of the table.
    pub fn into_shapes(self) -> Vec<Shape<T>>
        ensures shapes { shapes_of T.denotes result.items ≡ self }
        ensures are { AreSubterms (shapes_of T.denotes result.items) }
    {
        self.shapes
    }

    /// The number of the shape; `None` exactly where it isn't there.
    pub fn find(&self, shape: &Shape<T>) -> Option<u32>
        ensures { MatchOption result
            ((number : ℕ) → slice_get self.now number ≡ Some (shape_of T.denotes shape.now) → ⊥)
            (λ number. slice_get self.now number ≡ Some (shape_of T.denotes shape.now)) }
    {
        let places = self.places.of(shape.key());
        place_of(self.shapes.as_slice(), places, shape)
    }

    /// The number of the shape, which is added where it isn't there yet. `Want` comes where memory runs out, and where
    /// 32 bits don't count it; nothing is promised of the table then.
    pub fn number(&mut self, alloc: Global, shape: Shape<T>) -> Result<u32, Want>
        requires below { AreBelow (length self.old) (numbers_of (shape_of T.denotes shape)) }
        ensures at { IfOk result (λ number. slice_get self.new number ≡ Some (shape_of T.denotes shape)) }
        ensures extends { OnOk result (ShapesExtend self.old self.new) }
        ensures are { OnOk result (AreSubterms self.new) }
    {
        if let Some(number) = self.find(&shape) {
            return Ok(number);
        }
        let Ok(number) = u32::try_from(self.shapes.as_slice().len()) else {
            return Err(AllocError);
        };
        self.places.add(alloc, shape.key(), number)?;
        self.shapes.push(shape)?;
        Ok(number)
    }
}
