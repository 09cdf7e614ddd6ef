use pl_base::Text;
use pl_object::Object;

/// A name of a walk, with its object.
#[derive(Drop)]
pub struct NamedObject {
    /// The name of its file, by which the walk has it.
    pub name: Text,

    pub object: Object,
}
