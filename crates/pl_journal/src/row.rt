use pl_base::Text;

/// A row of a journal: the file beside gets the name, or the name is dropped.
#[derive(Drop)]
pub enum Row {
    Put { name: Text },
    Drop { name: Text },
}
