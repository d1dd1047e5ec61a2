// Who sees each slice before it is converted.

use slice_claim::Held;

/// It sees each slice that a worker has claimed, once it is read and before it is converted. It has
/// no meaning for any result.
pub trait Gate: Sync {
    fn pass<J>(&self, held: &Held<J>);
}

/// A gate that lets every slice through at once.
#[derive(Drop)]
pub struct OpenGate;

impl Gate for OpenGate {
    fn pass<J>(&self, _held: &Held<J>) {}
}
