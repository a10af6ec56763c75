use scenario_tree::Object;

/// What a name is declared as.
#[derive(Clone, Copy, Debug, PartialEq, Eq)]
pub enum Declared {
    Object(Object),
    /// A function of so many parameters.
    Function(usize),
    /// A body of raw greenlets.
    RawBody,
}
