use pl_base::Text;
use pl_object::Object;

/// An object of a scope.
#[derive(Drop)]
pub struct Member<'a> {
    /// The name by which it is needed.
    pub name: Text,

    pub object: &'a Object,
}
