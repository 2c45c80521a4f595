use crate::answer::Answer;
use crate::operation::Operation;

/// An operation on a book, and beside it its answer once it was performed.
#[derive(Clone, Copy)]
pub struct Call<Q, V> {
    pub operation: Operation<Q, V>,
    pub answer: Option<Answer<V>>,
}
