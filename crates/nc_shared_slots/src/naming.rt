//! Which set of slots a handle and a hold are of.
ghost use Rattle.std.specs.Prelude.{[]};
ghost use Rattle.atomic_table.specs.Seated.{TableId};

use std::marker::Brand;

/// Names a set of shared slots. Handles and holds of one set have it in their type, so that no hold is given back to
/// another set. The function that uses a set is generic over it, and is called with [`Brand`]: the call picks `table`
/// as the table of the [`NewSlots`](crate::NewSlots) that it passes.
pub trait Naming {
    ghost table: { TableId };
}

impl Naming for Brand {
    ghost table = { record { words = 0; slots = 0; views_name = 0; atom = 0; block = 0; offset = 0; slot_names = [] } };
}
