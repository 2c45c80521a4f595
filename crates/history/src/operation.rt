/// What can be asked of a book, for keys Q and values V.
#[derive(Clone, Copy)]
pub enum Operation<Q, V> {
    /// Gives a key a value.
    Put(Q, V),
    /// Takes a key out.
    Drop(Q),
    /// Asks for the value of a key.
    Find(Q),
}
