/// A key with its value.
#[derive(Clone, Copy)]
pub struct Record<Q, V> {
    pub key: Q,
    pub value: V,
}
