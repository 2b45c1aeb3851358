//! Numbers laid over lent places.
ghost use Rattle.std.specs.Prelude.{◌≡◌, ◌≤◌, length};
ghost use Rattle.base.specs.Courses.{laid};

// Writes the values from the first place on; the places past them stay.
pub(crate) fn lay(values: &[u32], places: &mut [u32])
    requires { length values.now ≤ length places.old }
    ensures { places.new ≡ laid values.now places.old }
{
    places[..values.len()].copy_from_slice(values);
}
