/// A folder that is lent to states.
#[derive(Drop)]
pub struct Held<D> {
    pub folder: D,
}
