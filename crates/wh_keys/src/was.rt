/// What a key of a map had before a change: a value, or none.
#[derive(Drop)]
pub struct Was<K, V> {
    pub key: K,
    pub value: Option<V>,
}
